//! Values on the heap.

ghost use Rattle.std.specs.Prelude.{◌≡◌, IfOk};

use crate::memory::{OutOfMemory, TryClone};
use std::alloc::Global;
use std::marker::Model;

/// A value on the heap.
/// Contracts see the value itself.
#[derive(Debug, Drop)]
pub struct Boxed<T> {
    inner: Box<T>,
}

impl<T> Model for Boxed<T> {
    ghost Value = { T };

    ghost view = { λ b. b.inner.value };
}

impl<T> Boxed<T> {
    /// Moves the value off the heap and returns it.
    pub fn into_inner(self) -> T
        ensures { result ≡ self }
    {
        let Boxed { inner } = self;
        Box::into_inner(inner)
    }

    /// Returns a reference to the value.
    pub fn get(&self) -> &T
        ensures { result.now ≡ self.now }
    {
        &*self.inner
    }
}

impl<T: Drop> Boxed<T> {
    /// Moves a value to the heap.
    /// Fails with `OutOfMemory` if memory runs out: it then drops the value.
    pub fn new(alloc: Global, value: T) -> Result<Boxed<T>, OutOfMemory>
        ensures { IfOk result (λ boxed. boxed ≡ value) }
    {
        Ok(Boxed {
            inner: Box::new(alloc, value)?,
        })
    }
}

impl<T: TryClone> TryClone for Boxed<T> {
    fn try_clone(&self) -> Result<Boxed<T>, OutOfMemory> {
        let copy = self.get().try_clone()?;
        Boxed::new(*Box::allocator(&self.inner), copy)
    }
}

impl<T: PartialEq> PartialEq for Boxed<T> {
    ghost eq = { T.eq };

    ghost laws = { T.laws };

    fn eq(&self, other: &Boxed<T>) -> bool {
        self.get() == other.get()
    }
}

impl<T: Eq> Eq for Boxed<T> {
    ghost laws = { T.Eq.laws };
}
