//! Copies of what a caller hands to a link to send.
ghost use Rattle.std.specs.Prelude.{◌≡◌, IfOk};
ghost use Rattle.std.specs.Option.{option_copied};

use bytes::Bytes;
use js_base::{HeaderMap, OutOfMemory, Subject, Text, TryClone};
use std::alloc::Global;

/// Returns a copy of the headers, or `None` if there are none. Fails with `OutOfMemory` if memory
/// runs out.
pub fn copy_headers(headers: Option<&HeaderMap>) -> Result<Option<HeaderMap>, OutOfMemory>
    ensures { IfOk result (λ copy. copy ≡ option_copied headers.entry) }
{
    match headers {
        Some(headers) => Ok(Some(headers.try_clone()?)),
        None => Ok(None),
    }
}

/// Returns a text as a subject, or `None` if there is no text. Fails with `OutOfMemory` if memory
/// runs out.
pub fn copy_subject(alloc: Global, text: Option<&str>) -> Result<Option<Subject>, OutOfMemory>
    ensures { IfOk result (λ copy. copy ≡ option_copied text.entry) }
{
    match text {
        Some(text) => Ok(Some(Subject::new(alloc, text)?)),
        None => Ok(None),
    }
}

/// Returns a copy of a text, or `None` if there is none. Fails with `OutOfMemory` if memory runs
/// out.
pub fn copy_text(alloc: Global, text: Option<&str>) -> Result<Option<Text>, OutOfMemory>
    ensures { IfOk result (λ copy. copy ≡ option_copied text.entry) }
{
    match text {
        Some(text) => Ok(Some(Text::from_str(alloc, text)?)),
        None => Ok(None),
    }
}

/// Returns a copy of a payload. Fails with `OutOfMemory` if memory runs out.
pub fn copy_payload(alloc: Global, payload: &[u8]) -> Result<Bytes, OutOfMemory>
    ensures { IfOk result (λ copy. copy ≡ payload.now) }
{
    Ok(Bytes::copy_from_slice(alloc, payload)?)
}
