//! Values that always have JSON: writing them fails only if memory runs out.
ghost use Rattle.std.specs.Prelude.{◌≡◌, Ok, IfErr, IfOk};
ghost use Rattle.js_json_members.specs.Rows.{text_of};
ghost use Rattle.js_json_members.specs.declared.error.ReadError.TheVariants.{OutOfMemory as memory};
ghost use Rattle.js_call_streams.specs.RequestBody.{HasJson};

use bytes::Bytes;
use js_base::OutOfMemory;
use js_json_members::{ReadError, ToValue};
use std::alloc::Global;

/// Returns what was written. Fails only with `OutOfMemory`.
pub(crate) fn written<T: Drop>(made: Result<T, ReadError>) -> Result<T, OutOfMemory>
    requires { IfErr made (λ e. e ≡ memory) }
    ensures { IfOk result (λ value. made ≡ Ok value) }
{
    match made {
        Ok(value) => Ok(value),
        Err(ReadError::OutOfMemory) => Err(OutOfMemory),
        Err(_) => unreachable!(),
    }
}

/// Returns the JSON text of a value as a body. The value must have JSON.
pub(crate) fn body_of<T: ToValue>(alloc: Global, value: &T) -> Result<Bytes, OutOfMemory>
    requires { HasJson (T.written value.now) }
    ensures { IfOk result (λ body. text_of (T.written value.now) ≡ Ok body) }
{
    let text = written(value.to_text(alloc))?;
    Ok(Bytes::from_string(text)?)
}
