//! What is written over an object that was read.
ghost use Rattle.std.specs.Prelude.{◌≡◌, IfOk};
ghost use Rattle.serde_json.specs.Data.{null};
ghost use Rattle.serde_json.specs.Find.{get};
ghost use Rattle.serde_json.specs.View.{view, members_view};
ghost use Rattle.js_call_streams.specs.Overlay.{over as over_in, members_over as members_over_in, with_new, if_new, kept_member, is_same, member_or};

use js_base::both;
use js_json_members::has_float;
use serde_json::{Map, Value, put};
use std::alloc::{AllocError, Global};

// The member of that name, or what stands in its place where there is none.
fn member_or<'a>(value: &'a Value, name: &str, nothing: &'a Value) -> &'a Value
    ensures { view result.now ≡ member_or (get name.now (view value.entry.now)) (view nothing.entry.now) }
{
    match value.get(name) {
        None => nothing,
        Some(member) => member,
    }
}

/// Returns whether two values without floats have the same compact text.
pub(crate) fn is_same(alloc: Global, before: &Value, after: &Value) -> Result<bool, AllocError>
    ensures { IfOk result (λ same. same ≡ is_same (view before.now) (view after.now)) }
{
    if has_float(before) || has_float(after) {
        return Ok(false);
    }
    let (before, after) = both(before.to_string(alloc), after.to_string(alloc))?;
    let same = before.as_str() == after.as_str();
    drop(before);
    drop(after);
    Ok(same)
}

/// Returns `kept` with the changes from `before` to `after` written over it. If `before` and
/// `after` have the same text, returns `kept` unchanged. Otherwise, writes an object's members over
/// those of `kept`, and replaces any other value.
#[cycle(over)]
pub(crate) fn over(
    alloc: Global,
    kept: &Value,
    before: &Value,
    after: &Value,
) -> Result<Value, AllocError>
    ensures { IfOk result (λ v. view v ≡ over_in (view kept.now) (view before.now) (view after.now)) }
{
    if is_same(alloc, before, after)? {
        return kept.clone();
    }
    match (kept, after) {
        (Value::Object(members), Value::Object(changed)) => {
            let mut out = Map::new(alloc);
            members_over(alloc, members, before, after, &mut out)?;
            put_new(alloc, kept, changed, &mut out)?;
            Ok(Value::Object(out))
        }
        _ => after.clone(),
    }
}

// Puts the members that were kept, each with what is written over it.
#[cycle(over)]
fn members_over(
    alloc: Global,
    members: &Map<String, Value>,
    before: &Value,
    after: &Value,
    out: &mut Map<String, Value>,
) -> Result<(), AllocError>
    ensures { IfOk result (λ _. members_view out.new.entries
        ≡ members_over_in (members_view members.now.entries) (view before.now) (view after.now) (members_view out.old.entries)) }
{
    for (key, member) in members.iter() {
        put_member(alloc, key.as_str(), member, before, after, out)?;
    }
    Ok(())
}

// Puts what is written over a member that was kept.
#[cycle(over)]
#[tactic(auto, using(crate::proofs::UnwrittenMember::unwritten))]
fn put_member(
    alloc: Global,
    name: &str,
    member: &Value,
    before: &Value,
    after: &Value,
    out: &mut Map<String, Value>,
) -> Result<(), AllocError>
    ensures { IfOk result (λ _.
        let was = member_or (get name.now (view before.now)) null in
        let now = member_or (get name.now (view after.now)) null in
        members_view out.new.entries ≡ kept_member (get name.now (view before.now)) (get name.now (view after.now)) name.now (view member.now)
        (over_in (view member.now) was now) (members_view out.old.entries)) }
{
    match after.get(name) {
        Some(changed) => {
            let nothing = Value::Null;
            let made = over(alloc, member, member_or(before, name, &nothing), changed);
            drop(nothing);
            put(out, alloc, name, made?)
        }
        None => put_if_new(alloc, before, name, member, out),
    }
}

// Puts the members that are new.
fn put_new(
    alloc: Global,
    kept: &Value,
    changed: &Map<String, Value>,
    out: &mut Map<String, Value>,
) -> Result<(), AllocError>
    ensures { IfOk result (λ _. members_view out.new.entries
        ≡ with_new (view kept.now) (members_view changed.now.entries) (members_view out.old.entries)) }
{
    for (key, value) in changed.iter() {
        put_if_new(alloc, kept, key.as_str(), value, out)?;
    }
    Ok(())
}

// Puts a copy of a member where a value has none of that name.
fn put_if_new(
    alloc: Global,
    value: &Value,
    name: &str,
    member: &Value,
    out: &mut Map<String, Value>,
) -> Result<(), AllocError>
    ensures { IfOk result (λ _. members_view out.new.entries
        ≡ if_new (get name.now (view value.now)) name.now (view member.now) (members_view out.old.entries)) }
{
    if value.get(name).is_none() {
        put(out, alloc, name, member.clone()?)?;
    }
    Ok(())
}
