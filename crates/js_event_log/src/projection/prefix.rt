//! The part of a list of entries that lies up to a sequence, and the last sequence.

ghost use Rattle.std.specs.Prelude.{◌≡◌, ◌≤◌, length, take, drop};
ghost use Rattle.js_event_log.specs.Projection.{RisesAbove, last_sequence, up_to, after};

use js_base::Entry;

/// Returns the sequence of the last entry, or 0 if the list is empty.
pub(crate) fn last_sequence(entries: &[Entry]) -> u64
    ensures { result ≡ last_sequence entries.now }
{
    match entries.last() {
        None => 0,
        Some(entry) => entry.sequence,
    }
}

/// Counts the entries up to a sequence. The time grows with the logarithm of the number of entries.
pub(crate) fn count_up_to(entries: &[Entry], sequence: u64) -> usize
    requires { RisesAbove 0 entries.now }
    ensures within { result ≤ length entries.now }
    ensures first { take result entries.now ≡ up_to sequence entries.now }
    ensures rest { drop result entries.now ≡ after sequence entries.now }
{
    entries.partition_point(|entry| entry.sequence <= sequence)
}
