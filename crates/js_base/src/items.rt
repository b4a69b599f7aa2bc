//! Lists, whose growth fails with an error if memory runs out.

ghost use Rattle.std.specs.Prelude.{◌≡◌, List, [], ◌∷◌, ◌++◌, length, IfOk, OnOk, OnErr, ◌<◌, ◌==◌};
ghost use Rattle.std.specs.List.Retain.{IsFiltered};
ghost use Rattle.std.specs.Fn.{CalledAt};
ghost use Rattle.std.specs.Cmp.Lexicographic.{pointwise, lists_per, lists_equiv};

use crate::memory::{OutOfMemory, TryClone};
use std::alloc::Global;
use std::marker::Model;

/// Items in order.
/// Contracts see the list of the items.
#[derive(Debug, Drop)]
pub struct Items<T> {
    items: Vec<T>,
}

impl<T> Model for Items<T> {
    ghost use Rattle.std.specs.Prelude.{List};

    ghost Value = { List T };

    ghost view = { λ s. s.items.items };
}

impl<T> Items<T> {
    /// Returns an empty list.
    /// It allocates nothing.
    pub fn new(alloc: Global) -> Items<T>
        ensures { result ≡ [] }
    {
        Items {
            items: Vec::new(alloc),
        }
    }

    /// Returns the items as a plain `Vec`, without a copy.
    pub fn into_vec(self) -> Vec<T>
        ensures { result.items ≡ self }
    {
        let Items { items } = self;
        items
    }

    /// Returns the items in order, as a slice.
    pub fn as_slice(&self) -> &[T]
        ensures { result.now ≡ self.now }
    {
        self.items.as_slice()
    }

    /// Returns whether there are no items.
    pub fn is_empty(&self) -> bool
        ensures { result ≡ (length self.now == 0) }
    {
        self.items.is_empty()
    }
}

impl<T: Drop> Items<T> {
    /// Adds an item at the end.
    /// Fails with `OutOfMemory` if memory runs out: it then drops the item and leaves the list as
    /// it was.
    pub fn push(&mut self, item: T) -> Result<(), OutOfMemory>
        ensures ok { OnOk result (self.new ≡ self.old ++ item ∷ []) }
        ensures err { OnErr result (self.new ≡ self.old) }
    {
        self.items.push(item)?;
        Ok(())
    }
}

impl<T: Drop> Items<T> {
    /// Removes the items for which `keep` returns false, then adds an item at the end.
    /// Fails with `OutOfMemory` if memory runs out: it then drops the new item and leaves the list
    /// as it was.
    pub fn keep_and_push<F: FnMut(&T) -> bool>(
        &mut self,
        keep: F,
        item: T,
    ) -> Result<(), OutOfMemory>
        requires { F.IsAlwaysCallable keep }
        ensures ok { OnOk result ((kept : List T) × IsFiltered (CalledAt F.FnMut) keep self.old kept × (self.new ≡ kept ++ item ∷ [])) }
        ensures err { OnErr result (self.new ≡ self.old) }
    {
        self.items.reserve(1)?;
        self.items.retain(keep);
        self.items.push_reserved(item);
        Ok(())
    }
}

impl<T> From<Vec<T>> for Items<T> {
    ghost from_gives = { λ v x. x ≡ v.items };

    fn from(items: Vec<T>) -> Items<T> {
        Items { items }
    }
}

impl<T: TryClone> TryClone for Items<T> {
    fn try_clone(&self) -> Result<Items<T>, OutOfMemory> {
        let mut copy = Items::new(*self.items.allocator());
        for item in &self.items {
            copy.push(item.try_clone()?)?;
        }
        Ok(copy)
    }
}

impl<T: PartialEq> PartialEq for Items<T> {
    ghost eq = { pointwise T.eq };

    ghost laws = { lists_per T.laws };

    fn eq(&self, other: &Items<T>) -> bool {
        self.items == other.items
    }
}

impl<T: Eq> Eq for Items<T> {
    ghost laws = { lists_equiv T.Eq.laws };
}
