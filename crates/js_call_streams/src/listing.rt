//! An API list, item by item.
ghost use Rattle.std.specs.Prelude.{◌≡◌, ◌<◌, ◌^◌, ℕ, IfOk, OnErr, None};
ghost use Rattle.js_link.specs.LinkView.{LinkView};
ghost use Rattle.js_base.specs.Clock.{has_come};
ghost use Rattle.js_call.specs.Wakes.{is_due, request_of};
ghost use Rattle.js_call_streams.specs.Listing.{Polls, Turned, Takes, fresh};
ghost use Rattle.js_call_streams.specs.Wakes.{ListPends, ListSleeps, list_waits_for};
ghost use Rattle.js_call_streams.specs.WholeList.{HandsOutWhole};

use crate::list_error::StreamsError;
use crate::list_item::ListItem;
use crate::page::{AskingPage, page_call};
use crate::progress::Progress;
use js_base::{Moment, Next, OutOfMemory, Text, TryClone, Turn, replace_with};
use js_call::{ApiScope, Call, OpenRequest, State};
use js_json_stream_bodies::stream::{Info, Page};
use js_link::{Link, RequestId};
use std::alloc::Global;

/// An API list, fetched page by page. It returns each page from its end.
#[derive(Drop)]
#[must_use = "a list is asked for by its polls"]
pub struct Listing<T> {
    scope: ApiScope,
    progress: Progress<T>,
    /// The request for the current page.
    page: Option<Call<AskingPage<T>>>,
}

/// The names of all streams.
pub type StreamNames = Listing<Text>;

/// What the server reports about all streams.
pub type Streams = Listing<Info>;

impl<T: ListItem> Listing<T> {
    // The list, before its first page.
    fn new(alloc: Global, scope: &ApiScope) -> Result<Listing<T>, OutOfMemory>
        ensures { IfOk result (λ list. list ≡ fresh scope.now) }
    {
        Ok(Listing {
            scope: scope.try_clone()?,
            progress: Progress::new(alloc),
            page: None,
        })
    }

    // The request that is open, and else a new one.
    fn take_page(&mut self, alloc: Global) -> Result<Call<AskingPage<T>>, OutOfMemory>
        ensures ok { IfOk result (λ call. Takes T.list self.old.page self.old call × (self.new ≡ record self.old { page = None })) }
        ensures err { OnErr result ((self.new ≡ self.old) × (self.old.page ≡ None)) }
    {
        match self.page.take() {
            Some(call) => Ok(call),
            None => page_call(alloc, &self.scope, self.progress.offset),
        }
    }

    // Puts the request of a page, or none, in the place of the one before.
    fn put_page(&mut self, page: Option<Call<AskingPage<T>>>)
        ensures { self.new ≡ record self.old { page = page } }
    {
        replace_with(&mut self.page, page);
    }

    // What is made of what the page's request came to.
    fn turn(
        &mut self,
        alloc: Global,
        turn: Turn<Call<AskingPage<T>>, Result<Page<T>, StreamsError>>,
    ) -> Next<Result<T, StreamsError>>
        ensures { Turned turn result self.old self.new }
    {
        match turn {
            Turn::Pending(call) => {
                self.put_page(Some(call));
                Next::Pending
            }
            Turn::OutOfMemory(call) => {
                self.put_page(Some(call));
                Next::OutOfMemory
            }
            Turn::Ready(Err(error)) => {
                self.put_page(None);
                Next::Item(Err(error))
            }
            Turn::Ready(Ok(page)) => {
                self.put_page(None);
                self.progress.load(alloc, page);
                self.progress.hand_out()
            }
        }
    }

    // The request whose answer it waits for, with its clock.
    fn waits_for(&self) -> Option<OpenRequest>
        ensures { result ≡ list_waits_for T.reads self.now }
    {
        if !self.progress.rest.is_empty() || self.progress.is_last {
            return None;
        }
        match &self.page {
            None => None,
            Some(call) => call.waits_for(),
        }
    }

    /// Returns the number of the request for the current page, whose answer the list waits for.
    /// None if you should poll the list at once: an item is left to return, the last page has come,
    /// or the page was not requested yet or has come.
    pub fn request(&self) -> Option<RequestId>
        ensures { result ≡ request_of (list_waits_for T.reads self.now) }
    {
        match self.waits_for() {
            None => None,
            Some(sent) => Some(sent.request),
        }
    }

    /// Returns the moment at which the timeout of the page's request expires. None if it waits
    /// without end, or if you should poll the list at once.
    pub fn wakes_at(&self) -> Option<Moment>
        ensures { (now : ℕ) → now < 2 ^ 64 → has_come result now ≡ is_due (list_waits_for T.reads self.now) now }
    {
        match self.waits_for() {
            None => None,
            Some(sent) => sent.ends_at(),
        }
    }

    /// Returns the next item.
    ///
    /// If a page cannot be fetched, the item is the error `Other`, whose source says why. The next
    /// poll asks for the same page again. `Pending` comes only while the page's request waits and
    /// its timeout has not expired. You may then wait until the answer to its `request` has come,
    /// that request is gone, or the moment `wakes_at` has come; polling earlier changes nothing.
    /// `End` comes if a page is empty, and the next poll asks again. After the last page, `End` is
    /// final.
    pub fn poll_next<L: Link>(
        &mut self,
        alloc: Global,
        link: &mut L,
        now: Moment,
    ) -> Next<Result<T, StreamsError>>
        ensures polls { Polls T.reads T.list now result self.old self.new (L.view link.old) (L.view link.new) }
        ensures sleeps { ListSleeps T.reads now result self.old self.new (L.view link.old) (L.view link.new) }
        ensures pends { ListPends T.reads result self.new }
    {
        if !self.progress.rest.is_empty() {
            return self.progress.hand_out();
        }
        if self.progress.is_last {
            return Next::End;
        }
        let Ok(call) = self.take_page(alloc) else {
            return Next::OutOfMemory;
        };
        let turn = call.poll(alloc, link, now);
        self.turn(alloc, turn)
    }

    /// States that with an honest server you get the whole list, each place of it once. This is a
    /// theorem; calling it does nothing.
    pub fn hands_out_whole()
        ensures { HandsOutWhole T.reads T.list }
    {}
}

/// Lists the names of all streams, page by page. Nothing is sent before the first poll. Fails only
/// with `OutOfMemory`.
pub fn stream_names(alloc: Global, scope: &ApiScope) -> Result<StreamNames, OutOfMemory>
    ensures { IfOk result (λ list. list ≡ fresh scope.now) }
{
    Listing::new(alloc, scope)
}

/// Lists what the server reports about all streams, page by page. Nothing is sent before the first
/// poll. Fails only with `OutOfMemory`.
pub fn streams(alloc: Global, scope: &ApiScope) -> Result<Streams, OutOfMemory>
    ensures { IfOk result (λ list. list ≡ fresh scope.now) }
{
    Listing::new(alloc, scope)
}
