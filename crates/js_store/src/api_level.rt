//! The server's API level, which is asked for before the stream of a bucket is created or changed.
ghost use Rattle.std.specs.Prelude.{◌≡◌, IfOk};
ghost use Rattle.js_call.specs.declared.scope.ApiScope.{ApiScope};
ghost use Rattle.js_store.specs.ApiLevel.{asking_level, level_row, refused_with, unless_allowed, LevelFirst};
ghost use Rattle.js_store.specs.declared.kv.Config.{Config};

use crate::bucket_call::{BucketCall, BucketCallRow};
use crate::kv;
use crate::refusal::{OfRefusal, Refusal, Refused, config_refusal};
use crate::store::Store;
use js_base::{Error, OutOfMemory, Source};
use js_call::{ApiScope, Decision, Then};
use js_call_streams::{AccountError, QueryAccount, query_account};
use js_json::account::Account;
use std::alloc::Global;

/// How the call that asks for the server's API level checks its arguments and reads its answer.
#[derive(Drop)]
pub struct AskingLevel {
    // What the bucket is refused with before anything is sent.
    refusal: Option<Refusal>,
}

/// The first call of those that create or change a bucket of keys: it asks for the server's API
/// level.
pub type AskLevel = BucketCall<QueryAccount, Account, AccountError, AskingLevel>;

impl BucketCallRow<Account, AccountError> for AskingLevel {
    type Needs = ();

    type Answer = Result<u64, Refused>;

    ghost table = { level_row };

    fn refusal(&self) -> Option<Result<u64, Refused>> {
        match self.refusal {
            None => None,
            Some(refusal) => Some(Err(Refused {
                refusal,
                source: None,
            })),
        }
    }

    fn needs(&self, _alloc: Global, _given: &Account) -> Result<(), OutOfMemory> {
        Ok(())
    }

    fn accept(self, given: Account, _needs: ()) -> Result<u64, Refused> {
        let level = given.requests.level;
        drop(given);
        Ok(level)
    }

    fn refuse(self, error: AccountError, source: Source) -> Result<u64, Refused> {
        drop(error);
        Err(Refused {
            refusal: Refusal::JetStream,
            source: Some(source),
        })
    }
}

// The call, which is not sent.
fn level_call(
    alloc: Global,
    scope: &ApiScope,
    refusal: Option<Refusal>,
) -> Result<AskLevel, OutOfMemory>
    ensures { IfOk result (λ call. call ≡ asking_level scope.now refusal) }
{
    let asked = query_account(alloc, scope)?;
    Ok(BucketCall::new(AskingLevel { refusal }, asked))
}

/// Makes the second call if the account query succeeded and its level allows the requested markers.
#[derive(Clone, Copy, Drop)]
pub struct IfAllowed {
    pub(crate) limit_markers: bool,
}

/// How the second call of those that create or change a bucket of keys asks for its stream.
pub(crate) trait AfterLevel: Drop {
    /// The call.
    type Call: Drop;

    /// What the call is, by the scope and the configuration.
    ghost asks: { ApiScope → Config → Self.Call → Type 0 };

    /// Returns the call without sending it. Fails only with `OutOfMemory`.
    fn ask(alloc: Global, scope: &ApiScope, config: kv::Config) -> Result<Self::Call, OutOfMemory>
        ensures { IfOk result (λ call. asks scope.now config call) };
}

/// Returns the calls that ask for the server's API level, and then for the bucket's stream if the
/// level allows the requested markers. It sends neither. Fails only with `OutOfMemory`.
pub(crate) fn after_level<M: AfterLevel>(
    alloc: Global,
    scope: &ApiScope,
    config: kv::Config,
) -> Result<Then<AskLevel, M::Call, IfAllowed>, OutOfMemory>
    ensures { IfOk result (λ calls. LevelFirst M.asks scope.now config calls) }
{
    let refusal = config_refusal(&config);
    let limit_markers = config.limit_markers.is_some();
    let second = M::ask(alloc, scope, config)?;
    let first = level_call(alloc, scope, refusal)?;
    Ok(Then::First {
        first,
        second,
        decision: IfAllowed { limit_markers },
    })
}

impl<K: OfRefusal> Decision<Result<u64, Refused>, Result<Store, Error<K>>> for IfAllowed {
    ghost decides = { λ asks first. unless_allowed K.of_refusal asks.limit_markers first };

    fn decide(self, first: Result<u64, Refused>) -> Option<Result<Store, Error<K>>> {
        match first {
            Ok(level) => {
                if self.limit_markers && level < 1 {
                    let kind = K::of_refusal(Refusal::LimitMarkersNotSupported);
                    Some(Err(Error::new(kind)))
                } else {
                    None
                }
            }
            Err(refused) => Some(Err(refused.into_error())),
        }
    }
}
