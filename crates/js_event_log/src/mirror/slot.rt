//! What a mirror has at a sequence: an entry, a hole, or nothing because the sequence lies outside
//! of it.

use js_base::Entry;

/// What stands at a sequence of a mirror.
#[derive(Clone, Copy, Debug, PartialEq, Eq)]
pub enum Slot<'a> {
    /// The sequence is below the start.
    Before,
    /// This entry has the sequence.
    Message(&'a Entry),
    /// A hole: the sequence lies between the start and the last entry, and no entry has it.
    Hole,
    /// The sequence is above that of the last entry.
    Beyond,
}
