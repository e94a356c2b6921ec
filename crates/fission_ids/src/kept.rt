ghost use Rattle.std.specs.Prelude.{◌≡◌, IfOk};

use crate::memory::{Duplicate, OutOfMemory};
use std::alloc::Global;
use std::marker::Model;

/// A value that is kept behind a pointer, seen as the value itself. It makes what holds it small.
#[derive(Debug, Drop)]
pub struct Kept<T> {
    value: Box<T>,
}

impl<T> Model for Kept<T> {
    ghost Value = { T };

    ghost coded = { T.code };

    ghost view = { λ k. k.value.value };
}

impl<T> Kept<T> {
    /// The value.
    pub fn get(&self) -> &T
        ensures { result.now ≡ self.now }
    {
        self.value.as_ref()
    }

    /// The value, which isn't kept behind a pointer any more.
    pub fn into_inner(self) -> T
        ensures { result ≡ self }
    {
        let Kept { value } = self;
        Box::into_inner(value)
    }
}

impl<T: Drop> Kept<T> {
    /// Keeps a value.
    pub fn of(alloc: Global, value: T) -> Result<Kept<T>, OutOfMemory>
        ensures { IfOk result (λ k. k ≡ value) }
    {
        Ok(Kept {
            value: Box::new(alloc, value)?,
        })
    }
}

impl<T: Duplicate + Drop> Duplicate for Kept<T> {
    fn copy(&self) -> Result<Kept<T>, OutOfMemory> {
        Kept::of(*Box::allocator(&self.value), self.get().copy()?)
    }
}
