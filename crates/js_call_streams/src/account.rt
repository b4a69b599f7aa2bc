//! The call that asks for the account's usage and limits.
ghost use Rattle.std.specs.Prelude.{◌≡◌, IfOk};
ghost use Rattle.js_call_streams.specs.Account.{account_in, account_row, querying};

use crate::account_error::{AccountError, AccountErrorKind, account_kind};
use bytes::Bytes;
use js_base::{Error, OutOfMemory, Source};
use js_call::{ApiCall, ApiScope, Call, Failure};
use js_json::account::Account;
use js_json::{Response, response_as};
use js_json_members::ReadError;
use std::alloc::Global;

/// How `query_account` reads its answer. It keeps nothing, because the call has no arguments.
#[derive(Drop)]
pub struct QueryingAccount;

/// The `query_account` call under way.
pub type QueryAccount = Call<QueryingAccount>;

// The account, or the API's error.
fn account_in(reply: Response<Account>) -> Result<Account, AccountError>
    ensures { result ≡ account_in reply }
{
    match reply {
        Response::Ok(account) => Ok(account),
        Response::Err { error } => Err(Error::new(AccountErrorKind::JetStream(error))),
    }
}

impl ApiCall for QueryingAccount {
    type Reply = Response<Account>;

    type Answer = Result<Account, AccountError>;

    ghost table = { account_row };

    fn refusal(&self) -> Option<Result<Account, AccountError>> {
        None
    }

    fn read(alloc: Global, payload: &[u8]) -> Result<Response<Account>, ReadError> {
        response_as(alloc, payload)
    }

    fn answer(self, reply: Response<Account>) -> Result<Account, AccountError> {
        account_in(reply)
    }

    fn failure(self, failure: Failure, source: Source) -> Result<Account, AccountError> {
        Err(Error::with_source(account_kind(failure.kind()), source))
    }
}

/// Asks how much of JetStream the account of this connection uses and may use, and which API level
/// its server has (NATS docs, "JetStream API", `$JS.API.INFO`).
///
/// Fails with `OutOfMemory` if memory runs out; the polls return all other errors. `JetStream`
/// holds the server's error. `JetStreamUnavailable` means that nobody answers, `TimedOut` that the
/// timeout expired, and `Other` that the request got no reply for another reason or its reply
/// cannot be read; the source of these is the text of that error. The account of a server before
/// 2.7 cannot be read, because it does not say what is reserved: the source is then
/// `reserved_memory: missing`.
pub fn query_account(alloc: Global, scope: &ApiScope) -> Result<QueryAccount, OutOfMemory>
    ensures { IfOk result (λ call. call ≡ querying scope.now) }
{
    let asked = scope.ask(alloc, "INFO", Bytes::from_static(b"[]"))?;
    Ok(Call::new(QueryingAccount, asked))
}
