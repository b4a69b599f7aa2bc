//! How far a list has come.
ghost use Rattle.std.specs.Prelude.{◌≡◌};
ghost use Rattle.js_call_streams.specs.Listing.{loaded, HandsOut, fresh_progress};

use crate::list_error::StreamsError;
use crate::page_rest::Rest;
use js_base::Next;
use js_json_stream_bodies::stream::Page;
use std::alloc::Global;

/// The items that were received and not returned yet, and where the next page begins.
#[derive(Drop)]
pub struct Progress<T> {
    pub(crate) rest: Rest<T>,
    pub(crate) offset: u64,
    /// Whether the last page has come.
    pub(crate) is_last: bool,
}

impl<T> Progress<T> {
    /// The state before the first page.
    pub(crate) fn new(alloc: Global) -> Progress<T>
        ensures { result ≡ fresh_progress }
    {
        Progress {
            rest: Rest::new(alloc),
            offset: 0,
            is_last: false,
        }
    }
}

impl<T: Drop> Progress<T> {
    /// Takes in a page that has come.
    pub(crate) fn load(&mut self, alloc: Global, page: Page<T>)
        ensures { self.new ≡ loaded page self.old }
    {
        let Page { total, streams } = page;
        let rest = Rest::of_page(alloc, streams);
        let offset = self.offset.saturating_add(rest.len());
        *self = Progress {
            rest,
            offset,
            is_last: offset >= total,
        };
    }

    /// Returns the last item that is left.
    pub(crate) fn hand_out(&mut self) -> Next<Result<T, StreamsError>>
        ensures { HandsOut result self.old self.new }
    {
        match self.rest.pop() {
            Some(item) => Next::Item(Ok(item)),
            None => Next::End,
        }
    }
}
