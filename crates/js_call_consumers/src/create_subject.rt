//! The subject for creating a consumer.
ghost use Rattle.std.specs.Prelude.{◌≡◌, IfOk, string_bytes, option_copied};
ghost use Rattle.js_call_consumers.specs.CreateSubject.{create_subject, name_of};

use js_base::{OutOfMemory, Text, named_subject, with_word};
use js_json::consumer::Config;
use std::alloc::Global;

// The name that a configuration asks for, and else its durable name.
fn name_of(config: &Config) -> Option<&Text>
    ensures { option_copied result ≡ name_of config.now }
{
    match &config.name {
        Some(name) => Some(name),
        None => config.durable_name.as_ref(),
    }
}

/// Returns the subject for creating a consumer.
pub(crate) fn create_subject(
    alloc: Global,
    stream: &str,
    config: &Config,
) -> Result<String, OutOfMemory>
    ensures { IfOk result (λ text. string_bytes text ≡ create_subject stream.now config.now) }
{
    let words = with_word(alloc, "CONSUMER.CREATE", stream)?;
    match name_of(config) {
        None => Ok(words),
        Some(name) => {
            let subject = named_subject(
                alloc,
                words.as_str(),
                name.as_str(),
                config.filter_subject.as_str(),
            );
            drop(words);
            Ok(subject?)
        }
    }
}
