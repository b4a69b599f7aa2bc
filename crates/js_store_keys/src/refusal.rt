//! Why the server refused a write.
ghost use Rattle.std.specs.Prelude.{◌≡◌};
ghost use Rattle.std.specs.Option.{option_copied};
ghost use Rattle.js_base.specs.Error.{sent_by_api, source_of};
ghost use Rattle.js_store_keys.specs.Refusal.{is_wrong_sequence as is_wrong_sequence_in, named_in, named_revision as named_revision_in, refused_write, refused_with as refused_with_in};

use js_base::{Error, Text};
use js_codes::ErrorCode;
use js_message::read_u64;

/// Why the server refused a write that expects a revision. It stored nothing.
#[derive(Clone, Copy, Debug, PartialEq, Eq)]
pub enum WriteRefusal {
    /// The key was expected to have no entry but has one, which may be a deletion.
    AlreadyExists {
        /// The revision of the key's last entry, if the server names it.
        last: Option<u64>,
    },
    /// The key's last entry has another revision than expected.
    WrongRevision {
        /// The revision of the key's last entry, if the server names it.
        last: Option<u64>,
    },
}

// Whether an error of this number tells that the last sequence of a subject is another.
fn is_wrong_sequence(number: u64) -> bool
    ensures { result ≡ is_wrong_sequence_in number }
{
    let code = ErrorCode(number);
    code == ErrorCode::STREAM_WRONG_LAST_SEQUENCE
        || code == ErrorCode::STREAM_WRONG_LAST_SEQUENCE_CONSTANT
}

// The revision that the text of such an error names.
fn revision_in(text: &str) -> Option<u64>
    ensures { result ≡ named_in text.now }
{
    match text.strip_prefix("wrong last sequence: ") {
        Some(number) => read_u64(number),
        None => None,
    }
}

fn named_revision(description: Option<&Text>) -> Option<u64>
    ensures { result ≡ named_revision_in (option_copied description.entry) }
{
    match description {
        Some(description) => revision_in(description.as_str()),
        None => None,
    }
}

fn refused_with(expected: u64, last: Option<u64>) -> WriteRefusal
    ensures { result ≡ refused_with_in expected last }
{
    if expected == 0 {
        WriteRefusal::AlreadyExists { last }
    } else {
        WriteRefusal::WrongRevision { last }
    }
}

/// Returns why the server refused a write. `expected` is the revision that the write expected, 0
/// for `create`; `error` is what publishing returned.
///
/// Returns `None` if the error is not the server's or has a code other than 10071 and 10164. The
/// write then failed for another reason, or it is unknown whether it was stored.
pub fn refusal_of<K>(expected: u64, error: &Error<K>) -> Option<WriteRefusal>
    ensures { result ≡ refused_write expected (sent_by_api (source_of error.now)) }
{
    match error.api_error() {
        Some(sent) if is_wrong_sequence(sent.err_code) => {
            Some(refused_with(expected, named_revision(sent.description)))
        }
        _ => None,
    }
}
