//! The health that a queue of published messages tells.

use crate::tables::says;
use calls_tests::Words;
use js_context::Context;
use js_context_queue::PublishQueue;
use std::alloc::Global;
use std::sync::Wait;

// What a queue tells after a message was pushed.
fn pushed(alloc: Global, queue: &mut PublishQueue) -> Words {
    queue.publish(alloc, "events.a", b"a", 7)?;
    let health = queue.health();
    Ok(format!(in alloc; "{health}")?)
}

fn queue_health<R: Wait>(rt: &R, alloc: Global) -> Words {
    let context = Context::new(rt, alloc)?;
    let mut queue = PublishQueue::new(alloc, context, 9);
    let words = pushed(alloc, &mut queue);
    drop(queue.close());
    words
}

#[test]
fn a_queue_counts_what_it_holds(rt: HostRuntime) {
    says(
        &rt,
        "one message",
        queue_health(&rt, rt.alloc()),
        "pushed: 1; in flight: 0; unsent: 1, the first since 7 ns",
    );
}
