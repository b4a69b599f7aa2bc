//! The items that the API lists page by page.
ghost use Rattle.std.specs.Prelude.{◌≡◌, ℕ, string_bytes};
ghost use Rattle.js_json_members.specs.Member.{GivesAs};
ghost use Rattle.js_json_members.specs.Rows.{text_of};
ghost use Rattle.js_call_streams.specs.RequestBody.{HasJson};
ghost use Rattle.js_call_streams.specs.Page.{Lists, names_list, infos_list, names_are_asked, infos_are_asked};

use js_base::Text;
use js_json_members::{Member, ReadError, ToValue};
use js_json_stream_bodies::stream::{Info, ListRequest, NamesRequest};
use std::alloc::Global;

/// An item of an API list.
pub trait ListItem: Member {
    ghost list: { Lists };

    /// Returns the words of the request for a page.
    fn words() -> &'static str
        ensures { result.now ≡ list.words };

    /// Returns the body of the request for the page that begins at `offset`. Fails only with
    /// `OutOfMemory`.
    fn request_text(alloc: Global, offset: u64) -> Result<String, ReadError>
        ensures { GivesAs string_bytes result (text_of (list.request offset)) };

    /// Each page has a request.
    ghost is_asked: { (offset : ℕ) → HasJson (list.request offset) };
}

/// The names of all streams.
impl ListItem for Text {
    ghost list = { names_list };

    ghost is_asked = { names_are_asked };

    fn words() -> &'static str {
        "STREAM.NAMES"
    }

    fn request_text(alloc: Global, offset: u64) -> Result<String, ReadError> {
        let request = NamesRequest {
            offset,
            subject: None,
        };
        let text = request.to_text(alloc);
        drop(request);
        text
    }
}

/// The infos of all streams.
impl ListItem for Info {
    ghost list = { infos_list };

    ghost is_asked = { infos_are_asked };

    fn words() -> &'static str {
        "STREAM.LIST"
    }

    fn request_text(alloc: Global, offset: u64) -> Result<String, ReadError> {
        let request = ListRequest { offset };
        request.to_text(alloc)
    }
}
