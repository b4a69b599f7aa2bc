//! Checks of a stream's name.
ghost use Rattle.std.specs.Prelude.{◌≡◌};
ghost use Rattle.js_call_streams.specs.Refusal.{get_refusal, name_refusal, create_refusal};

use crate::error::{CreateStreamErrorKind, GetStreamErrorKind};
use js_codes::is_valid_name;

/// Returns the error for an invalid name when a stream is looked up or deleted.
pub(crate) fn get_refusal(name: &str) -> Option<GetStreamErrorKind>
    ensures { result ≡ get_refusal name.now }
{
    if name.is_empty() {
        Some(GetStreamErrorKind::EmptyName)
    } else if is_valid_name(name) {
        None
    } else {
        Some(GetStreamErrorKind::InvalidStreamName)
    }
}

/// Returns the error for an invalid name when a stream is created or updated.
pub(crate) fn name_refusal(name: &str) -> Option<CreateStreamErrorKind>
    ensures { result ≡ name_refusal name.now }
{
    if name.is_empty() {
        Some(CreateStreamErrorKind::EmptyStreamName)
    } else if is_valid_name(name) {
        None
    } else {
        Some(CreateStreamErrorKind::InvalidStreamName)
    }
}

/// Returns the error for invalid arguments when a stream is created: first its name, then a mirror
/// or source that has both a domain and an external.
pub(crate) fn create_refusal(name: &str, two_places: bool) -> Option<CreateStreamErrorKind>
    ensures { result ≡ create_refusal (name_refusal name.now) two_places }
{
    match name_refusal(name) {
        Some(kind) => Some(kind),
        None => {
            if two_places {
                Some(CreateStreamErrorKind::DomainAndExternalSet)
            } else {
                None
            }
        }
    }
}
