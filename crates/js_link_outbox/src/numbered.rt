//! Values by numbers that are given once.
ghost use Rattle.std.specs.Prelude.{◌≡◌, ◌+◌, ◌≤◌, ◌<◌, ◌^◌, ◌-◌, ℕ, false, is_some, IfOk, OnOk, OnErr, None, Some, if◌then◌else◌};
ghost use Rattle.std.specs.Ordering.{nat_cmp};
ghost use Rattle.std.specs.BTreeMap.{BTreeMap, get, btree_map_len};

use js_base::OutOfMemory;
use std::alloc::Global;
use std::collections::BTreeMap;

/// Values by their numbers, and the next number. A number is given once. A removed value takes no
/// memory.
#[derive(Drop)]
pub(crate) struct Numbered<T> {
    pub(crate) map: BTreeMap<u64, T>,
    pub(crate) next: u64,
    ghost unused: { (n : ℕ) → next ≤ n → is_some (get nat_cmp map n) ≡ false },
}

impl<T: Drop> Numbered<T> {
    ghost use Rattle.js_link.specs.LinkView.{put};
    ghost use Rattle.js_link_outbox.specs.Numbered.{IsSame, at};

    // No values. The first number is as given.
    pub(crate) fn new(alloc: Global, first: u64) -> Numbered<T>
        ensures values { at result ≡ (λ _. None) }
        ensures next { result.next ≡ first }
        ensures len { btree_map_len result.map ≡ 0 }
    {
        Numbered {
            map: BTreeMap::new(alloc),
            next: first,
        }
    }

    // Adds a value under the next number.
    pub(crate) fn add(&mut self, value: T) -> Result<u64, OutOfMemory>
        requires { self.old.next < 2 ^ 64 - 1 }
        ensures number { IfOk result (λ n. n ≡ self.old.next) }
        ensures unused { at self.old self.old.next ≡ None }
        ensures values { OnOk result (at self.new ≡ put (at self.old) self.old.next (Some value)) }
        ensures next { OnOk result (self.new.next ≡ self.old.next + 1) }
        ensures len { OnOk result (btree_map_len self.new.map ≡ btree_map_len self.old.map + 1) }
        ensures err { OnErr result (IsSame self.old self.new) }
    {
        let number = self.next;
        self.map.insert(number, value)?;
        self.next += 1;
        Ok(number)
    }

    // Removes the value of a number.
    pub(crate) fn remove(&mut self, number: u64) -> Option<T>
        ensures value { result ≡ at self.old number }
        ensures values { at self.new ≡ put (at self.old) number None }
        ensures next { self.new.next ≡ self.old.next }
        ensures len { btree_map_len self.new.map + (if is_some result then 1 else 0) ≡ btree_map_len self.old.map }
    {
        self.map.remove(&number)
    }

    // Removes all values.
    pub(crate) fn clear(&mut self)
        ensures values { at self.new ≡ (λ _. None) }
        ensures next { self.new.next ≡ self.old.next }
        ensures len { btree_map_len self.new.map ≡ 0 }
    {
        self.map.clear();
    }
}
