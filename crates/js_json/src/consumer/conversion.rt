//! Conversions between the configuration of each kind of consumer and the general one.

ghost use Rattle.std.specs.Prelude.{◌≡◌, Result, Ok, refl};
ghost use Rattle.js_json.specs.declared.consumer.config.Config.{Config};
ghost use Rattle.js_json.specs.declared.consumer.conversion.ConfigError.{ConfigError};

use crate::consumer::config::Config;
use js_base::Nanos;
use std::alloc::Global;
use std::{error, fmt};

/// How long an ordered consumer outlives its last reader: 30 seconds.
pub(crate) const ORDERED_INACTIVE_THRESHOLD: Nanos = 30_000_000_000;

/// Why a general configuration does not convert to one kind of consumer.
#[derive(Clone, Copy, Debug, PartialEq, Eq)]
pub enum ConfigError {
    /// The configuration has a deliver subject, which a pull consumer must not have.
    HasDeliverSubject,
    /// The configuration has no deliver subject, which a push consumer must have.
    NoDeliverSubject,
}

impl fmt::Display for ConfigError {
    ghost use Rattle.std.specs.Prelude.{Some};
    ghost use Rattle.js_json.specs.Conversion.{config_error_text};

    ghost output = { λ e. Some (config_error_text e) };

    fn fmt<W: fmt::Write>(&self, f: &mut fmt::Formatter<W>) -> fmt::Result {
        f.write_str(match self {
            ConfigError::HasDeliverSubject => "pull consumer cannot have delivery subject",
            ConfigError::NoDeliverSubject => "push consumer must have delivery subject",
        })
    }
}

impl error::Error for ConfigError {}

/// A configuration that converts to the general one, which is sent to the server.
pub trait IntoConsumerConfig: Drop {
    ghost config: { Self → Config };

    /// Converts to the general configuration. Allocates no memory.
    fn into_consumer_config(self, alloc: Global) -> Config
        ensures { result ≡ config self };
}

/// A configuration that a general one may convert to.
pub trait FromConsumer: IntoConsumerConfig {
    ghost of_config: { Config → Result Self ConfigError };

    /// Converts from the general configuration. Ignores fields that this kind does not have. Fails
    /// with `HasDeliverSubject` or `NoDeliverSubject` if the deliver subject does not fit this
    /// kind.
    fn try_from_consumer_config(config: Config) -> Result<Self, ConfigError>
        ensures { result ≡ of_config config };

    // There and back is the same value.
    ghost there_and_back: { (x : Self) → of_config (Self.config x) ≡ Ok x };
}

impl IntoConsumerConfig for Config {
    ghost config = { λ c. c };

    fn into_consumer_config(self, _alloc: Global) -> Config {
        self
    }
}

impl FromConsumer for Config {
    ghost of_config = { λ c. Ok c };

    ghost there_and_back = { λ _. refl };

    fn try_from_consumer_config(config: Config) -> Result<Config, ConfigError> {
        Ok(config)
    }
}

/// Converts a configuration to the general one and back. Always returns the same configuration.
pub fn there_and_back<C: FromConsumer>(alloc: Global, config: C) -> Result<C, ConfigError>
    ensures { result ≡ Ok config }
{
    C::try_from_consumer_config(config.into_consumer_config(alloc))
}
