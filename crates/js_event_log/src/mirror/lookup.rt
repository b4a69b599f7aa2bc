//! Looking up an entry by its sequence.

ghost use Rattle.std.specs.Prelude.{◌≡◌};
ghost use Rattle.std.specs.Option.{option_copied};
ghost use Rattle.js_event_log.specs.Mirror.{RisesFrom, entry_with, at_or_past};
ghost use Rattle.js_event_log.specs.MirrorJoin.{headed};

use js_base::Entry;

/// Returns the entries at or after a sequence. The time grows with the logarithm of their number.
pub(crate) fn entries_from(entries: &[Entry], sequence: u64) -> &[Entry]
    requires { RisesFrom 0 entries.now }
    ensures { result.now ≡ at_or_past sequence entries.now }
{
    let below = entries.partition_point(|entry| entry.sequence < sequence);
    &entries[below..]
}

/// Returns the first entry if it has this sequence.
pub(crate) fn first_with(entries: &[Entry], sequence: u64) -> Option<&Entry>
    ensures { option_copied result ≡ headed sequence entries.now }
{
    let entry = entries.first()?;
    if entry.sequence == sequence {
        Some(entry)
    } else {
        None
    }
}

/// Returns the entry that has a sequence. The time grows with the logarithm of their number.
pub(crate) fn entry_with(entries: &[Entry], sequence: u64) -> Option<&Entry>
    requires { RisesFrom 0 entries.now }
    ensures { option_copied result ≡ entry_with sequence entries.now }
{
    first_with(entries_from(entries, sequence), sequence)
}
