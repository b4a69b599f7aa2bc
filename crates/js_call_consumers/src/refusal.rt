//! Checks of names, before anything is sent.
ghost use Rattle.std.specs.Prelude.{◌≡◌};
ghost use Rattle.js_call_consumers.specs.Refusal.{get_refusal, delete_refusal};

use crate::error::ConsumerErrorKind;
use js_codes::is_valid_name;

/// Returns the error for invalid names when a consumer is looked up.
pub(crate) fn get_refusal(consumer: &str, stream: &str) -> Option<ConsumerErrorKind>
    ensures { result ≡ get_refusal consumer.now stream.now }
{
    if is_valid_name(consumer) && is_valid_name(stream) {
        None
    } else {
        Some(ConsumerErrorKind::InvalidName)
    }
}

/// Returns the error for invalid names when a consumer is deleted.
pub(crate) fn delete_refusal(consumer: &str, stream: &str) -> Option<ConsumerErrorKind>
    ensures { result ≡ delete_refusal consumer.now stream.now }
{
    if !is_valid_name(consumer) {
        Some(ConsumerErrorKind::InvalidName)
    } else if !is_valid_name(stream) {
        Some(ConsumerErrorKind::Other)
    } else {
        None
    }
}
