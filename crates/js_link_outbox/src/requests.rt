//! The state of open requests.
ghost use Rattle.std.specs.BTreeMap.{btree_map_len};
ghost use Rattle.std.specs.Prelude.{◌≡◌};
ghost use Rattle.js_link_outbox.specs.Requests.{GivesAnswer, TakesAnswer};

use crate::numbered::Numbered;
use js_base::{Message, replace_with};
use js_link::Answer;

// Gives a request its answer, and says whether it waited for one. For another one the message is let go.
pub(crate) fn give_answer(
    requests: &mut Numbered<Option<Message>>,
    number: u64,
    message: Message,
) -> bool
    ensures given { GivesAnswer result number message requests.old requests.new }
    ensures next { requests.new.next ≡ requests.old.next }
{
    match requests.map.get_mut(&number) {
        None | Some(Some(_)) => {
            drop(message);
            false
        }
        Some(answer) => {
            replace_with(answer, Some(message));
            true
        }
    }
}

// Takes the answer to a request, which is no more.
pub(crate) fn take_answer(requests: &mut Numbered<Option<Message>>, number: u64) -> Answer
    ensures taken { TakesAnswer number result requests.old requests.new }
    ensures next { requests.new.next ≡ requests.old.next }
{
    match requests.map.get(&number) {
        None => Answer::Gone,
        Some(None) => Answer::Waiting,
        Some(Some(_)) => match requests.remove(number) {
            Some(Some(message)) => Answer::Got(message),
            Some(None) | None => Answer::Gone,
        },
    }
}
