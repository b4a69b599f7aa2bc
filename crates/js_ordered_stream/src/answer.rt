//! What the answer to a create says, as a recreation reads it.
ghost use Rattle.std.specs.Prelude.{◌≡◌, IfOk, Some, is_some, option_map, true};
ghost use Rattle.js_ordered_stream.specs.Rows.{answer_in};
ghost use Rattle.js_pull.specs.Reader.{info_reply as info_said, reply_to};

use crate::remaining_rows::Seen;
use js_base::OutOfMemory;
use js_pull::{InfoReply, info_reply};
use std::alloc::Global;

// What the answer to a create says, which was met.
pub(crate) fn reply_met(alloc: Global, request: u64, seen: &Seen) -> Result<InfoReply, OutOfMemory>
    requires { is_some (reply_to request (answer_in seen.now)) ≡ true }
    ensures { IfOk result (λ said. option_map info_said (reply_to request (answer_in seen.now)) ≡ Some said) }
{
    match seen {
        Seen::Reply(reply) => info_reply(alloc, reply.message.as_ref()),
        Seen::Nothing => unreachable!(),
        Seen::Message { .. } => unreachable!(),
    }
}
