//! The source of a bucket call's error: the error of the call that it makes.
ghost use Rattle.std.specs.Prelude.{◌≡◌, IfOk, option_copied};
ghost use Rattle.js_base.specs.Error.{kind_of, source_of, printed};
ghost use Rattle.js_base.specs.declared.error.Source.{Source};
ghost use Rattle.js_store.specs.ToSource.{sent_by, described_in, TellsPrinted};

use js_base::{Error, OutOfMemory, Source, Text, TryClone};
use js_call_streams::{AccountError, CreateStreamError, GetStreamError};
use js_codes::errors;
use std::alloc::Global;
use std::fmt;

/// An error of a call that can be the source of another call's error.
pub trait ToSource: Drop {
    /// The server's error if it sent one, otherwise the error's text.
    ghost told: { Self → Source };

    /// Returns the server's error if it sent one, otherwise the error's text. Fails only with
    /// `OutOfMemory`.
    fn to_source(&self, alloc: Global) -> Result<Source, OutOfMemory>
        ensures { IfOk result (λ source. source ≡ told self.now) };
}

// A source that the server sent, as one of its own.
fn described(source: &Source) -> Result<Option<Source>, OutOfMemory>
    ensures { IfOk result (λ sent. sent ≡ described_in source.now) }
{
    match source {
        Source::Text(_) => Ok(None),
        Source::Api {
            code,
            err_code,
            description,
        } => Ok(Some(Source::Api {
            code: *code,
            err_code: *err_code,
            description: description.try_clone()?,
        })),
    }
}

// The server's error, which the kind holds or which is the source.
fn sent(
    held: Option<&errors::Error>,
    source: Option<&Source>,
) -> Result<Option<Source>, OutOfMemory>
    ensures { IfOk result (λ sent. sent ≡ sent_by (option_copied held.entry) (option_copied source.entry)) }
{
    match (held, source) {
        (Some(error), _) => Ok(Some(error.try_clone()?.into_source())),
        (None, Some(source)) => described(source),
        (None, None) => Ok(None),
    }
}

// What an error tells whose kind holds this error of the server's.
#[tactic(auto, using(crate::proofs::Printed::tells_sent, crate::proofs::Printed::tells_text))]
fn told<K: fmt::Display>(
    alloc: Global,
    held: Option<&errors::Error>,
    error: &Error<K>,
) -> Result<Source, OutOfMemory>
    ensures { IfOk result (λ source. TellsPrinted (sent_by (option_copied held.entry) (source_of error.now)) (printed (K.output (kind_of error.now)) (source_of error.now)) source) }
{
    match sent(held, error.source())? {
        Some(source) => Ok(source),
        None => Ok(Source::Text(Text::from(format!(in alloc; "{error}")?))),
    }
}

impl ToSource for GetStreamError {
    ghost use Rattle.js_store.specs.ToSource.{get_told};

    ghost told = { get_told };

    #[tactic(auto, using(crate::proofs::Printed::told_as_printed))]
    fn to_source(&self, alloc: Global) -> Result<Source, OutOfMemory> {
        told(alloc, self.kind().api_error(), self)
    }
}

impl ToSource for CreateStreamError {
    ghost use Rattle.js_store.specs.ToSource.{create_told};

    ghost told = { create_told };

    #[tactic(auto, using(crate::proofs::Printed::told_as_printed))]
    fn to_source(&self, alloc: Global) -> Result<Source, OutOfMemory> {
        told(alloc, self.kind().api_error(), self)
    }
}

impl ToSource for AccountError {
    ghost use Rattle.js_store.specs.ToSource.{account_told};

    ghost told = { account_told };

    #[tactic(auto, using(crate::proofs::Printed::told_as_printed))]
    fn to_source(&self, alloc: Global) -> Result<Source, OutOfMemory> {
        told(alloc, self.kind().api_error(), self)
    }
}
