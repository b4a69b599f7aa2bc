//! What may reach a wire.
ghost use Rattle.std.specs.Prelude.{◌≡◌, nat_le};
ghost use Rattle.std.specs.Option.{option_copied};
ghost use Rattle.js_base.specs.Headers.{all_headers, is_sendable, wire_len};
ghost use Rattle.js_link_outbox.specs.Wire.{is_subject_or_none, may_subscribe, may_publish, size};

use js_base::{HeaderMap, is_valid_subject};

fn is_subject_or_none(text: Option<&str>) -> bool
    ensures { result ≡ is_subject_or_none (option_copied text.entry) }
{
    match text {
        Some(text) => is_valid_subject(text),
        None => true,
    }
}

fn are_sendable(headers: Option<&HeaderMap>) -> bool
    ensures { result ≡ is_sendable (all_headers (option_copied headers.entry)) }
{
    match headers {
        Some(headers) => headers.is_sendable(),
        None => true,
    }
}

fn headers_len(headers: Option<&HeaderMap>) -> u64
    ensures { result ≡ wire_len (all_headers (option_copied headers.entry)) }
{
    match headers {
        Some(headers) => headers.wire_len(),
        None => 0,
    }
}

fn is_within(limit: u64, headers: Option<&HeaderMap>, payload: &[u8]) -> bool
    ensures { result ≡ nat_le (size (option_copied headers.entry) payload.now) limit }
{
    let payload = payload.len() as u64;
    let headers = headers_len(headers);
    match payload.checked_add(headers) {
        Some(size) => size <= limit,
        None => false,
    }
}

// Whether a message is read as the one that it is: its subject and its reply subject are subjects, its headers are sendable, and payload and
// headers together are no longer than the limit.
pub(crate) fn may_publish(
    limit: u64,
    subject: &str,
    reply: Option<&str>,
    headers: Option<&HeaderMap>,
    payload: &[u8],
) -> bool
    ensures { result ≡ may_publish limit subject.now (option_copied reply.entry) (option_copied headers.entry) payload.now }
{
    let named = is_valid_subject(subject) && is_subject_or_none(reply);
    named && are_sendable(headers) && is_within(limit, headers, payload)
}

// Whether a subscription is read as the one that it is: its subject is a subject, and so is its queue group.
pub(crate) fn may_subscribe(subject: &str, group: Option<&str>) -> bool
    ensures { result ≡ may_subscribe subject.now (option_copied group.entry) }
{
    is_valid_subject(subject) && is_subject_or_none(group)
}
