//! The place of each subject's last entry in the list of the applied entries.

ghost use Rattle.std.specs.Prelude.{◌≡◌, List, [], ◌∷◌, ◌++◌, length, IfOk, OnOk, OnErr};
ghost use Rattle.std.specs.BTreeMap.{IsUnchanged};
ghost use Rattle.js_base.specs.declared.message.Entry.{Entry};
ghost use Rattle.js_event_log.specs.ProjectionPlaces.{IsPlaced};

use js_base::{Entry, OutOfMemory};
use std::alloc::Global;
use std::collections::BTreeMap;

/// The place of the last entry of each subject, counted from 0.
pub(crate) type Places = BTreeMap<String, usize>;

/// Records that an entry stands at a place, which has to be after all others. If it fails, the
/// places are unchanged.
pub(crate) fn set_place(
    alloc: Global,
    places: &mut Places,
    entry: &Entry,
    place: usize,
) -> Result<(), OutOfMemory>
    ensures ok { OnOk result ((entries : List Entry) → IsPlaced places.old.entries entries → length entries ≡ place → IsPlaced places.new.entries (entries ++ entry.now ∷ [])) }
    ensures err { OnErr result (IsUnchanged places.old places.new) }
{
    let subject = String::from_str(alloc, entry.subject.as_str())?;
    drop(places.insert(subject, place)?);
    Ok(())
}

/// Returns the places in a list of entries.
pub(crate) fn places_of(alloc: Global, entries: &[Entry]) -> Result<Places, OutOfMemory>
    ensures { IfOk result (λ places. IsPlaced places.entries entries.now) }
{
    let mut places = BTreeMap::new(alloc);
    for place in 0..entries.len() {
        set_place(alloc, &mut places, &entries[place], place)?;
    }
    Ok(places)
}
