//! Merging of two mirrors: whether their entries conflict, and the list that has the entries of
//! both.

ghost use Rattle.std.specs.Prelude.{◌≡◌, ◌+◌, ◌≤◌, ◌++◌, ◌<◌, ◌↔◌, [], length, IfOk, IfSome, IsTrue, OnOk, OnErr};
ghost use Rattle.std.specs.Option.{option_copied, option_to_list, IfNone};
ghost use Rattle.std.specs.Vec.{vec_len, vec_capacity};
ghost use Rattle.std.specs.VecDeque.{deque_len};
ghost use Rattle.js_event_log.specs.Mirror.{RisesFrom};
ghost use Rattle.js_event_log.specs.MirrorMerge.{Agree, IsFirstConflict, IsOther};
ghost use Rattle.js_event_log.specs.MirrorCauses.{HasMergeCause};
ghost use Rattle.js_event_log.specs.MirrorJoin.{front_below, behind_below, lacked, lacking, joined};

use crate::mirror::error::MirrorError;
use crate::mirror::lookup::first_with;
use js_base::{Entry, OutOfMemory, TryClone};
use std::alloc::Global;
use std::collections::VecDeque;
use std::mem;

// The entries behind those in front that are below a sequence.
#[tactic(auto, using(std::proofs::lemmas::Grind::common_steps, crate::proofs::MirrorPass::skips, crate::proofs::MirrorPass::stops, crate::proofs::MirrorPass::ends))]
fn skip_below(entries: &[Entry], sequence: u64) -> &[Entry]
    ensures { result.now ≡ behind_below sequence entries.now }
{
    let mut rest = entries;
    while let Some((first, others)) = rest.split_first() {
        if first.sequence >= sequence {
            return rest;
        }
        rest = others;
    }
    rest
}

// Whether there is an entry that is not the same as another.
fn is_other(held: Option<&Entry>, entry: &Entry) -> bool
    ensures { IsTrue result ↔ IsOther (option_copied held.entry) entry.now }
{
    match held {
        None => false,
        Some(held) => held != entry,
    }
}

// The least sequence at which two lists have unequal entries.
fn first_conflict(one: &[Entry], other: &[Entry]) -> Option<u64>
    requires one { RisesFrom 0 one.now }
    requires other { RisesFrom 0 other.now }
    ensures none { IfNone result (Agree one.now other.now) }
    ensures some { IfSome result (λ sequence. IsFirstConflict one.now other.now sequence) }
{
    let mut rest = one;
    for entry in other {
        rest = skip_below(rest, entry.sequence);
        if is_other(first_with(rest, entry.sequence), entry) {
            return Some(entry.sequence);
        }
    }
    None
}

/// Checks that a list can be merged with another one, and fails with the reason if it can't.
pub(crate) fn check(
    start: u64,
    own: &[Entry],
    other_start: u64,
    other: &[Entry],
) -> Result<(), MirrorError>
    requires own { RisesFrom 0 own.now }
    requires other { RisesFrom 0 other.now }
    ensures { HasMergeCause (record { start = start; entries = own.now }) (record { start = other_start; entries = other.now }) result }
{
    if start != other_start {
        return Err(MirrorError::StartDiffers {
            start,
            other: other_start,
        });
    }
    match first_conflict(own, other) {
        Some(sequence) => Err(MirrorError::Conflict { sequence }),
        None => Ok(()),
    }
}

// Adds a copy of an entry where no other stands in its place.
fn add_lacked(
    missing: &mut VecDeque<Entry>,
    held: Option<&Entry>,
    entry: &Entry,
) -> Result<(), OutOfMemory>
    ensures { OnOk result (missing.new.items ≡ missing.old.items ++ lacked (option_copied held.entry) entry.now) }
{
    match held {
        None => {
            missing.push_back(entry.try_clone()?)?;
            Ok(())
        }
        Some(_) => Ok(()),
    }
}

// Copies of the other's entries whose sequences a list does not have.
fn missing(alloc: Global, one: &[Entry], other: &[Entry]) -> Result<VecDeque<Entry>, OutOfMemory>
    requires one { RisesFrom 0 one.now }
    requires other { RisesFrom 0 other.now }
    ensures { IfOk result (λ missing. missing.items ≡ lacking one.now other.now) }
{
    let mut missing = VecDeque::new(alloc);
    let mut rest = one;
    for entry in other {
        rest = skip_below(rest, entry.sequence);
        add_lacked(&mut missing, first_with(rest, entry.sequence), entry)?;
    }
    Ok(missing)
}

// Takes the first entry, where it is below a sequence.
fn pop_below(entries: &mut VecDeque<Entry>, sequence: u64) -> Option<Entry>
    ensures entries { entries.old.items ≡ option_to_list result ++ entries.new.items }
    ensures number { deque_len entries.new + length (option_to_list result) ≡ deque_len entries.old }
    ensures below { IfSome result (λ entry. entry.sequence < sequence) }
    ensures none { IfNone result (front_below sequence entries.new.items ≡ []) }
{
    if entries.front()?.sequence < sequence {
        entries.pop_front()
    } else {
        None
    }
}

// Moves the entries in front that are below a sequence behind others, for which there is room.
#[tactic(auto, using(std::proofs::lemmas::Grind::common_steps, crate::proofs::MirrorJoin::move_more, crate::proofs::MirrorJoin::left_more, crate::proofs::MirrorJoin::none_below))]
fn move_below(from: &mut VecDeque<Entry>, sequence: u64, to: &mut Vec<Entry>)
    requires { vec_len to.old + deque_len from.old ≤ vec_capacity to.old }
    ensures moved { to.new.items ≡ to.old.items ++ front_below sequence from.old.items }
    ensures left { from.new.items ≡ behind_below sequence from.old.items }
    ensures number { vec_len to.new + deque_len from.new ≡ vec_len to.old + deque_len from.old }
    ensures capacity { vec_capacity to.new ≡ vec_capacity to.old }
{
    while let Some(entry) = pop_below(from, sequence) {
        to.push_reserved(entry);
    }
}

// Moves all entries behind others, for which there is room.
fn move_all(from: VecDeque<Entry>, to: &mut Vec<Entry>)
    requires { vec_len to.old + deque_len from ≤ vec_capacity to.old }
    ensures { to.new.items ≡ to.old.items ++ from.items }
{
    for entry in from {
        to.push_reserved(entry);
    }
}

// Moves the entries of two lists into an empty one that has room for them.
fn join(one: Vec<Entry>, mut other: VecDeque<Entry>, mut to: Vec<Entry>) -> Vec<Entry>
    requires room { vec_len one + deque_len other ≤ vec_capacity to }
    requires empty { to.items ≡ [] }
    ensures { result.items ≡ joined one.items other.items }
{
    for entry in one {
        move_below(&mut other, entry.sequence, &mut to);
        to.push_reserved(entry);
    }
    move_all(other, &mut to);
    to
}

/// Adds copies of the other list's entries whose sequences `own` lacks, each at its place.
pub(crate) fn add_missing(own: &mut Vec<Entry>, other: &[Entry]) -> Result<(), OutOfMemory>
    requires own { RisesFrom 0 own.old.items }
    requires other { RisesFrom 0 other.now }
    ensures added { OnOk result (own.new.items ≡ joined own.old.items (lacking own.old.items other.now)) }
    ensures refused { OnErr result (own.new.items ≡ own.old.items) }
{
    let alloc = *own.allocator();
    let missing = missing(alloc, own, other)?;
    let to = Vec::with_capacity(alloc, own.len() + missing.len())?;
    *own = join(mem::replace(own, Vec::new(alloc)), missing, to);
    Ok(())
}
