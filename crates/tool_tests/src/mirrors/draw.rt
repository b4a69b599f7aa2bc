//! Random mirrors of one log.
ghost use Rattle.std.specs.Prelude.{◌<◌};

use bytes::Bytes;
use js_base::{Entry, OutOfMemory, Subject, both};
use js_event_log::{Mirror, MirrorError};
use rand_core::utils::NextWord;
use rand_pcg::Pcg32;
use std::alloc::Global;

/// The log's entry with this sequence, which is the same whenever it is drawn.
pub(crate) fn entry(alloc: Global, sequence: u64) -> Result<Entry, OutOfMemory> {
    let payload = format!(in alloc; "{sequence}")?;
    entry_with(alloc, sequence, payload.as_bytes())
}

/// An entry with this sequence and this payload, on the subject of the log's.
pub(crate) fn entry_with(
    alloc: Global,
    sequence: u64,
    payload: &[u8],
) -> Result<Entry, OutOfMemory> {
    let (subject, payload) = both(subject_of(alloc, sequence), bytes_of(alloc, payload))?;
    Ok(Entry {
        subject,
        sequence,
        payload,
    })
}

fn subject_of(alloc: Global, sequence: u64) -> Result<Subject, OutOfMemory> {
    let text = format!(in alloc; "key.{}", sequence % 5)?;
    Subject::new(alloc, text.as_str())
}

fn bytes_of(alloc: Global, payload: &[u8]) -> Result<Bytes, OutOfMemory> {
    Ok(Bytes::copy_from_slice(alloc, payload)?)
}

/// A mirror from a start on that has each of the next 40 entries of the log, or has it not.
pub(crate) fn mirror(alloc: Global, rng: &mut Pcg32, start: u64) -> Result<Mirror, MirrorError>
    requires { 0 < start }
{
    let mut mirror = Mirror::new(alloc, start);
    for place in 0..40 {
        if rng.next_word() % 3 != 0 {
            mirror.push(entry(alloc, start.saturating_add(place))?)?;
        }
    }
    Ok(mirror)
}
