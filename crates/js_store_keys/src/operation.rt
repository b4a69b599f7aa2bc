//! What a message does to its key.
ghost use Rattle.std.specs.Prelude.{◌≡◌};
ghost use Rattle.std.specs.Option.{option_copied};
ghost use Rattle.js_store_keys.specs.Operation.{named, marked, operation_in as operation_in_headers, operation_by};

use js_base::HeaderMap;

/// What an entry does to its key.
#[derive(Clone, Copy, Debug, PartialEq, Eq)]
pub enum Operation {
    /// The key has the entry's value, which may be empty.
    Put,
    /// The key has no value from this entry on.
    Delete,
    /// The key has no value from this entry on, and its earlier entries are gone.
    Purge,
}

// The operation that a header names.
fn named_operation(name: &str) -> Operation
    ensures { result ≡ named name.now }
{
    if name == "DEL" {
        Operation::Delete
    } else if name == "PURGE" {
        Operation::Purge
    } else {
        Operation::Put
    }
}

// What the server's marker does, by its reason.
fn marked_operation(reason: &str) -> Operation
    ensures { result ≡ marked reason.now }
{
    if reason == "MaxAge" || reason == "Purge" {
        Operation::Purge
    } else {
        Operation::Delete
    }
}

fn operation_in(headers: &HeaderMap) -> Operation
    ensures { result ≡ operation_in_headers headers.now }
{
    match headers.get("KV-Operation") {
        Some(name) => named_operation(name),
        None => match headers.get("Nats-Marker-Reason") {
            Some(reason) => marked_operation(reason),
            None => Operation::Put,
        },
    }
}

/// Returns what a message with these headers does to its key.
///
/// The header `KV-Operation` decides: `DEL` is a deletion, `PURGE` a purge, and any other value a
/// put. Without that header, the header `Nats-Marker-Reason` shows a marker that the server placed:
/// it is a purge if the reason is `MaxAge` or `Purge`, and otherwise a deletion. Any other message
/// is a put, even with an empty payload: an empty value is a value.
pub fn operation_of(headers: Option<&HeaderMap>) -> Operation
    ensures { result ≡ operation_by (option_copied headers.entry) }
{
    match headers {
        None => Operation::Put,
        Some(headers) => operation_in(headers),
    }
}
