//! The messages in open inboxes.
ghost use Rattle.std.specs.Prelude.{◌≡◌, ◌++◌, ◌∷◌, [], None, Some, is_some, OnErr, IfErr, IfOk};
ghost use Rattle.std.specs.BTreeMap.{btree_map_len};
ghost use Rattle.js_link_outbox.specs.Inboxes.{PutsInto, Keeps, TakesFrom};

use crate::numbered::Numbered;
use js_base::Message;
use js_link::Taken;
use std::alloc::AllocFailed;
use std::collections::VecDeque;

// Puts a message behind the others of an inbox, and says whether it is one that is open. For another one the message is let go.
pub(crate) fn put_into(
    inboxes: &mut Numbered<VecDeque<Message>>,
    inbox: u64,
    message: Message,
) -> Result<bool, AllocFailed<Message>>
    ensures ok { IfOk result (λ wanted. PutsInto wanted inbox message inboxes.old inboxes.new) }
    ensures err { OnErr result (Keeps inboxes.old inboxes.new) }
    ensures back { IfErr result (λ refused. refused.value ≡ message) }
    ensures next { inboxes.new.next ≡ inboxes.old.next }
    ensures len { btree_map_len inboxes.new.map ≡ btree_map_len inboxes.old.map }
{
    match inboxes.map.get_mut(&inbox) {
        None => {
            drop(message);
            Ok(false)
        }
        Some(messages) => match messages.push_back(message) {
            Ok(()) => Ok(true),
            Err(refused) => Err(refused),
        },
    }
}

// Takes the first message of an inbox.
pub(crate) fn take_from(inboxes: &mut Numbered<VecDeque<Message>>, inbox: u64) -> Taken
    ensures taken { TakesFrom inbox result inboxes.old inboxes.new }
    ensures next { inboxes.new.next ≡ inboxes.old.next }
    ensures len { btree_map_len inboxes.new.map ≡ btree_map_len inboxes.old.map }
{
    match inboxes.map.get_mut(&inbox) {
        None => Taken::Closed,
        Some(messages) => match messages.pop_front() {
            Some(message) => Taken::Message(message),
            None => Taken::Empty,
        },
    }
}
