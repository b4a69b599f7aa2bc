//! Settling detached acks, which nobody awaits.
ghost use Rattle.std.specs.Prelude.{◌≡◌, ◌<◌, ◌≤◌, length};
ghost use Rattle.js_link.specs.LinkView.{LinkView};
ghost use Rattle.js_context.specs.Context.{ContextView};
ghost use Rattle.js_context.specs.DetachedAcks.{GoesRound, LooksFirst, Reaps, is_settled, looked_at};

use crate::context::Context;
use js_base::Moment;
use js_call::Shown;
use js_link::Link;
use std::sync::Wait;

// Whether an ack is settled whose request shows this.
fn is_settled(shown: Shown) -> bool
    ensures { result ≡ is_settled shown }
{
    let settled = match &shown {
        Shown::Came(_) | Shown::Gone | Shown::Due => true,
        Shown::Still => false,
    };
    drop(shown);
    settled
}

impl Context {
    /// Looks at the first `concurrency_limit` detached acks, or at all if the limit is `None` or 0,
    /// and removes the settled ones: those that were answered, whatever the answer, whose replier
    /// is gone, or whose ack timeout is due. It gives their permits back and returns how many it
    /// removed. The others stay in their order. The clock of an ack begins at the first look.
    ///
    /// With a limit, it looks at the same first acks again and again until they are settled. It
    /// takes no memory; its time grows with the length of the list.
    pub fn reap<R: Wait, L: Link>(&mut self, rt: &R, link: &mut L, now: Moment) -> u64
        ensures { Reaps (looked_at self.old.settings.concurrency_limit (length self.old.detached)) now self.old self.new (L.view link.old) (L.view link.new) result }
    {
        let count = self.reaped_len();
        let others = self.detached_len() - count;
        let settled = self.reap_first(rt, link, now, count);
        self.turn_detached(others);
        settled
    }

    // Looks at so many of the first detached acks. Those that stay go behind the others, in their order.
    fn reap_first<R: Wait, L: Link>(
        &mut self,
        rt: &R,
        link: &mut L,
        now: Moment,
        count: usize,
    ) -> u64
        requires { count ≤ length self.old.detached }
        ensures { GoesRound count now self.old self.new (L.view link.old) (L.view link.new) result }
    {
        let mut settled = 0;
        for look in 0..count {
            if self.reap_one(rt, link, now) {
                settled += 1;
            }
        }
        settled
    }

    // Looks at the first detached ack, which goes behind the others where it stays. Whether it was settled.
    fn reap_one<R: Wait, L: Link>(&mut self, rt: &R, link: &mut L, now: Moment) -> bool
        requires { 0 < length self.old.detached }
        ensures { LooksFirst now result self.old self.new (L.view link.old) (L.view link.new) }
    {
        let sent = match self.first_detached(now) {
            Some(sent) => sent,
            None => unreachable!(),
        };
        let settled = is_settled(sent.look(link, now));
        self.settle_or_keep(rt, settled, sent.since);
        settled
    }

    // How many detached acks are looked at.
    fn reaped_len(&self) -> usize
        ensures { result ≡ looked_at self.now.settings.concurrency_limit (length self.now.detached) }
    {
        let all = self.detached_len();
        match self.settings().concurrency_limit {
            Some(limit) if 0 < limit && limit < all as u64 => limit as usize,
            _ => all,
        }
    }
}
