//! A connection's end that does no input or output itself.
ghost use Rattle.std.specs.Prelude.{◌+◌, ◌≤◌, length};
ghost use Rattle.std.specs.BTreeMap.{btree_map_len};
ghost use Rattle.std.specs.VecDeque.{deque_capacity, deque_len};

use crate::numbered::Numbered;
use crate::outgoing::Outgoing;
use js_base::{Message, Nanos, Text};
use js_link::Watch;
use std::collections::VecDeque;

/// The subscription under which all answers come.
pub(crate) const ANSWERS: u64 = 0;

/// The end of a connection that does no input or output itself: an adapter takes from it what to
/// send, and delivers to it what came.
///
/// It keeps the messages in its open inboxes, one entry for each open request, and what is still to
/// be sent. A closed inbox and an ended request leave nothing behind. A request ends when its answer
/// is taken, when `forget` is called for it, as the states of this client do after a timeout, or
/// when you close the link.
///
/// All answers come under one subscription, which covers each subject of one more token behind the
/// link's own front. A request is a message whose reply subject is the front and the request's
/// number.
///
/// It cannot know beforehand whether a send will fail, so it does not tell whether it is up. Of what
/// it sent it tells only what was not taken yet.
///
/// It does not keep the subjects of its subscriptions. If you reconnect after a loss, and so have to
/// subscribe again, use the `Connection` of js_link_connection. It keeps which subject and queue
/// group each open subscription has, and writes them again over the new connection.
#[derive(Drop)]
pub struct OutboxLink {
    /// What its own subjects begin with: the prefix of inboxes, a dot, the token, and a dot.
    pub(crate) front: Text,
    pub(crate) inboxes: Numbered<VecDeque<Message>>,
    pub(crate) requests: Numbered<Option<Message>>,
    pub(crate) outgoing: VecDeque<Outgoing>,
    pub(crate) fresh: u64,
    pub(crate) faults: u64,
    pub(crate) watch: Watch,
    pub(crate) max_payload: u64,
    pub(crate) request_timeout: Option<Nanos>,
    /// Each open inbox reserves a place for the item that ends its subscription, so closing it needs
    /// no memory.
    ghost room: { deque_len outgoing + btree_map_len inboxes.map ≤ deque_capacity outgoing },
}
