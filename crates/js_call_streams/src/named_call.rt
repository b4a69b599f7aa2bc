//! Calls whose request names a stream.
ghost use Rattle.std.specs.Prelude.{◌≡◌, IfOk};
ghost use Rattle.js_call.specs.Call.{calling};
ghost use Rattle.js_call.specs.Scope.{asking, under};

use bytes::Bytes;
use js_base::OutOfMemory;
use js_call::{ApiCall, ApiScope, Call};
use std::alloc::Global;

/// Makes a call on the words of a request and a name, with this body. It is generic over the call's
/// type, so that it does not open that type.
pub(crate) fn call_on<M: ApiCall>(
    alloc: Global,
    scope: &ApiScope,
    row: M,
    words: &str,
    name: &str,
    body: &'static [u8],
) -> Result<Call<M>, OutOfMemory>
    ensures { IfOk result (λ call. call ≡ calling row (asking scope.now (under words.now name.now) body.now)) }
{
    let asked = scope.ask_named(alloc, words, name, Bytes::from_static(body))?;
    Ok(Call::new(row, asked))
}
