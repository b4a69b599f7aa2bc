//! The request that creates a consumer.

ghost use Rattle.std.specs.Prelude.{false};
ghost use Rattle.js_json.specs.CreateRequest.{action_data, create_request_value};

use crate::consumer::config::Config;
use js_base::Text;
use js_json_members::{Key, Object, ReadError, ToValue, Written};
use serde_json::Value;
use std::alloc::Global;

/// What the server does, depending on whether a consumer of that name exists.
#[derive(Clone, Copy, Debug, PartialEq, Eq)]
pub enum Action {
    /// Creates the consumer, or updates the existing one.
    CreateOrUpdate,
    /// Creates the consumer. The server refuses if one with another configuration exists.
    Create,
    /// Updates the consumer. The server refuses if it does not exist.
    Update,
}

impl Written for Action {
    ghost writes = { action_data };

    ghost is_blank = { λ _. false };

    fn write(&self, alloc: Global, _key: Key) -> Result<Value, ReadError> {
        let name = match self {
            Action::CreateOrUpdate => "",
            Action::Create => "create",
            Action::Update => "update",
        };
        Ok(Value::try_from_str(alloc, name)?)
    }

    fn is_blank(&self) -> bool {
        false
    }
}

/// The body of a request that creates or updates a consumer.
#[derive(Debug, PartialEq, Eq, Drop)]
pub struct CreateRequest {
    pub action: Action,
    pub config: Config,
    pub stream_name: Text,
}

impl ToValue for CreateRequest {
    ghost written = { create_request_value };

    #[tactic(auto, unfolding(crate::specs::CreateRequest::create_request_value))]
    fn to_value(&self, alloc: Global) -> Result<Value, ReadError> {
        Object::new(alloc)
            .always(alloc, Key::Action, &self.action)
            .always(alloc, Key::Config, &self.config)
            .always(alloc, Key::StreamName, &self.stream_name)
            .finish()
    }
}
