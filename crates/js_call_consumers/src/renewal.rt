//! A consumer together with the answer to a call on it.
ghost use Rattle.std.specs.Prelude.{◌≡◌};
ghost use Rattle.js_call_consumers.specs.Renewal.{renewed};

use crate::Consumer;
use crate::info_pair::InfoCopies;
use js_base::Error;
use js_json::consumer::Info;

/// Returns the consumer with the reported info, and the answer. An error leaves the consumer
/// unchanged.
pub(crate) fn renewed<T: Drop, K: Drop>(
    consumer: Consumer<T>,
    told: Result<InfoCopies, Error<K>>,
) -> (Consumer<T>, Result<Info, Error<K>>)
    ensures { result ≡ renewed consumer told }
{
    match told {
        Ok(InfoCopies { kept, answered }) => {
            let Consumer {
                scope,
                config,
                info,
            } = consumer;
            drop(info);
            (Consumer::new(config, kept, scope), Ok(answered))
        }
        Err(error) => (consumer, Err(error)),
    }
}
