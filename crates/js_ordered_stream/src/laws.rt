//! What fixes the rows of a poll.
ghost use Rattle.js_link.specs.Memory.{memory_view};
ghost use Rattle.js_link.specs.declared.memory.MemoryLink.{MemoryLink};
ghost use Rattle.js_ordered_stream.specs.FixedRows.{FixesRows, TellsAll};
ghost use Rattle.js_ordered_table.specs.declared.consumer.ReplayInput.{ReplayInput};

/// States that the link fixes the rows of a poll: if two polls of a consumer begin at the same
/// place and moment, and each row of the one found the link as that row of the other did, then both
/// passed the same rows and handed out the same. The link has to tell what the rows ask for, as a
/// `MemoryLink` does. This is a law; calling it does nothing.
pub fn links_fix_rows()
    ensures rows { (g : ReplayInput) → FixesRows g }
    ensures memory { (m : MemoryLink) → TellsAll (memory_view m) }
{}
