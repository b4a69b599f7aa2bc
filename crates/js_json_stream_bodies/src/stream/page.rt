//! Lists of streams, page by page.

ghost use Rattle.js_json_stream_bodies.specs.Page.{page_fields, names_request_value, list_request_value};

use js_base::{Items, Text};
use js_json_members::{FromValue, Key, Member, Object, ReadError, ToValue, optional, required};
use serde_json::Value;
use std::alloc::Global;

/// A page of a list: names of streams, or what the server reports about them.
#[derive(Drop)]
pub struct Page<T> {
    /// How many items the whole list has.
    pub total: u64,
    /// The items from the requested offset on. `None` if the server leaves them all out.
    pub streams: Option<Items<T>>,
}

impl<T: Member> FromValue for Page<T> {
    ghost fields = { page_fields T.reads };

    #[tactic(auto, unfolding(crate::specs::Page::page_fields))]
    fn from_fields(alloc: Global, object: &Value) -> Result<Page<T>, ReadError> {
        Ok(Page {
            total: required(alloc, object, Key::Total)?,
            streams: optional(alloc, object, Key::Streams)?,
        })
    }
}

/// Asks for a page of the names of streams.
#[derive(Drop)]
pub struct NamesRequest {
    /// How many names come before the page.
    pub offset: u64,
    /// A subject that each listed stream must store. `None` lists all streams.
    pub subject: Option<Text>,
}

impl ToValue for NamesRequest {
    ghost written = { names_request_value };

    #[tactic(auto, unfolding(crate::specs::Page::names_request_value))]
    fn to_value(&self, alloc: Global) -> Result<Value, ReadError> {
        Object::new(alloc)
            .always(alloc, Key::Offset, &self.offset)
            .or_null(alloc, Key::Subject, &self.subject)
            .finish()
    }
}

/// Asks for a page of what the server reports about all streams.
#[derive(Clone, Copy)]
pub struct ListRequest {
    /// How many streams come before the page.
    pub offset: u64,
}

impl ToValue for ListRequest {
    ghost written = { list_request_value };

    #[tactic(auto, unfolding(crate::specs::Page::list_request_value))]
    fn to_value(&self, alloc: Global) -> Result<Value, ReadError> {
        Object::new(alloc)
            .always(alloc, Key::Offset, &self.offset)
            .finish()
    }
}
