//! What the server reports about a consumer, with its configuration read as one kind.
ghost use Rattle.std.specs.Prelude.{◌≡◌, IfOk, Ok, string_bytes};
ghost use Rattle.js_json.specs.Conversion.{config_error_text};
ghost use Rattle.js_call_consumers.specs.ConsumerAnswer.{as_kind, told_fields, converted, UnlessOther};

use crate::consumer::Consumer;
use js_base::{Error, OutOfMemory, Source, Text, TryClone};
use js_call::ApiScope;
use js_json::consumer::{Config, ConfigError, FromConsumer, Info};
use js_json_members::{FromValue, ReadError};
use serde_json::Value;
use std::alloc::{AllocError, Global};

/// What the server reports about a consumer. Its configuration is read as one kind, if it is of
/// that kind.
#[derive(Drop)]
pub struct ConsumerAnswer<C> {
    pub info: Info,
    /// The configuration as this kind, or why it is not of this kind.
    pub config: Result<C, Source>,
}

fn fault_text(alloc: Global, fault: ConfigError) -> Result<String, AllocError>
    ensures { IfOk result (λ text. string_bytes text ≡ config_error_text fault) }
{
    format!(in alloc; "{fault}")
}

// The configuration as that of a kind, or why it is none, as the source of an error.
fn as_kind<C>(
    alloc: Global,
    config: Result<C, ConfigError>,
) -> Result<Result<C, Source>, OutOfMemory>
    ensures { IfOk result (λ told. told ≡ as_kind config) }
{
    match config {
        Ok(config) => Ok(Ok(config)),
        Err(fault) => Ok(Err(Source::Text(Text::from(fault_text(alloc, fault)?)))),
    }
}

// A configuration that was told, as that of a kind.
fn told_as<C: FromConsumer>(alloc: Global, told: &Config) -> Result<Result<C, Source>, OutOfMemory>
    ensures { IfOk result (λ config. config ≡ as_kind (C.of_config told.now)) }
{
    let converted = C::try_from_consumer_config(told.try_clone()?);
    as_kind(alloc, converted)
}

// What was read, beside what was made of it. It is generic over what was read, so that it does not open it.
fn beside<I: Drop, C>(info: I, made: Result<C, OutOfMemory>) -> Result<(I, C), OutOfMemory>
    ensures { IfOk result (λ both. (both.0 ≡ info) × (made ≡ Ok both.1)) }
{
    let made = made?;
    Ok((info, made))
}

impl<C: FromConsumer> FromValue for ConsumerAnswer<C> {
    ghost fields = { told_fields C.of_config };

    #[tactic(auto, unfolding(crate::specs::ConsumerAnswer::told_fields))]
    fn from_fields(alloc: Global, object: &Value) -> Result<ConsumerAnswer<C>, ReadError> {
        let info = Info::from_fields(alloc, object)?;
        let config = told_as(alloc, &info.config);
        let (info, config) = beside(info, config)?;
        Ok(ConsumerAnswer { info, config })
    }
}

// The configuration beside what else is known; or an error of that kind, with why it is none as its source.
fn unless_other<C, K: Drop, I: Drop>(
    config: Result<C, Source>,
    other: K,
    known: I,
) -> Result<(C, I), Error<K>>
    ensures { UnlessOther config other known result }
{
    match config {
        Ok(config) => Ok((config, known)),
        Err(cause) => Err(Error::with_source(other, cause)),
    }
}

impl<C: Drop> ConsumerAnswer<C> {
    /// Returns the consumer. Fails with the error `other` if its configuration is not of this kind;
    /// the source says why.
    pub(crate) fn into_consumer<K: Drop>(
        self,
        scope: ApiScope,
        other: K,
    ) -> Result<Consumer<C>, Error<K>>
        ensures { result ≡ converted other scope self.info self.config }
    {
        let ConsumerAnswer { info, config } = self;
        let (config, (info, scope)) = unless_other(config, other, (info, scope))?;
        Ok(Consumer::new(config, info, scope))
    }
}
