//! How a recorder makes an event of what was taken, writes it and passes it to the replay.
ghost use Rattle.std.specs.Prelude.{◌≡◌, [], ℕ, List, Some, None, OnErr, OnOk, is_some, true};
ghost use Rattle.js_link.specs.LinkView.{LinkView};
ghost use Rattle.js_ordered_table.specs.declared.event.Event as events;
ghost use Rattle.js_ordered_recorder.specs.Acts.{Rests};
ghost use Rattle.js_ordered_recorder.specs.Recorder.{Goes, IsCounted};
ghost use Rattle.js_ordered_recorder.specs.LinkInput.{message_at};
ghost use Rattle.js_ordered_recorder.specs.Recording.{WritesAll};

use super::Recorder;
use crate::link_event::message_of;
use crate::link_input::later;
use crate::recording::{Recording, write_event};
use js_base::{Moment, OutOfMemory, replace_with};
use js_ordered_table::Event;
use std::alloc::Global;

impl<'a> Recorder<'a> {
    // The event was made of what was taken.
    fn begin_event(&mut self, event: Event)
        ensures { self.new ≡ record self.old { taken = None; event = Some event; message = message_at self.old.taken; moment = event.at } }
    {
        let message = message_of(self.taken.take());
        replace_with(&mut self.message, message);
        self.moment = event.at;
        replace_with(&mut self.event, Some(event));
    }

    // Makes the event of what was taken, and writes it.
    fn write_taken<R: Recording>(
        &mut self,
        alloc: Global,
        recording: &mut R,
        now: Moment,
    ) -> Result<(), OutOfMemory>
        ensures goes { OnOk result ((v : LinkView) → (es : List events.Event) × Goes now (record { recorder = self.old; link = v }) es [] (record { recorder = self.new; link = v }) × WritesAll R.writes self.old.fault es self.new.fault recording.old recording.new) }
        ensures taken { OnOk result (self.new.taken ≡ None) }
        ensures brought { is_some self.old.taken ≡ true → OnOk result (is_some self.new.event ≡ true) }
        ensures replay { self.new.replay ≡ self.old.replay }
        ensures kept { OnErr result (self.new ≡ self.old) }
        ensures recording { OnErr result (recording.new ≡ recording.old) }
    {
        let Some(taken) = &self.taken else {
            return Ok(());
        };
        let event = Event {
            at: later(now, self.moment),
            what: taken.kind(alloc)?,
        };
        self.fault = write_event(alloc, recording, self.fault, &event);
        self.begin_event(event);
        Ok(())
    }

    // Passes the event that was written, or the rest of it.
    fn pass_event(&mut self, alloc: Global) -> Result<(), OutOfMemory>
        ensures goes { (now : ℕ) → (v : LinkView) → Goes now (record { recorder = self.old; link = v }) [] [] (record { recorder = self.new; link = v }) }
        ensures event { OnOk result (self.new.event ≡ None) }
        ensures taken { self.new.taken ≡ self.old.taken }
        ensures fault { self.new.fault ≡ self.old.fault }
        ensures counted { is_some self.old.event ≡ true → OnOk result (IsCounted self.old self.new) }
    {
        let Some(event) = &self.event else {
            return Ok(());
        };
        // The events are counted in a `u64`, so no poll goes on for ever.
        let _count = self.replay.count();
        self.replay.advance(alloc, event)?;
        replace_with(&mut self.event, None);
        self.worked = 0;
        Ok(())
    }

    // Writes what was taken, and passes its event.
    pub(super) fn resume<R: Recording>(
        &mut self,
        alloc: Global,
        recording: &mut R,
        now: Moment,
    ) -> Result<(), OutOfMemory>
        ensures goes { (v : LinkView) → (es : List events.Event) × Goes now (record { recorder = self.old; link = v }) es [] (record { recorder = self.new; link = v }) × WritesAll R.writes self.old.fault es self.new.fault recording.old recording.new }
        ensures rests { OnOk result (Rests self.new) }
        ensures counted { is_some self.old.taken ≡ true → OnOk result (IsCounted self.old self.new) }
    {
        self.write_taken(alloc, recording, now)?;
        self.pass_event(alloc)
    }
}
