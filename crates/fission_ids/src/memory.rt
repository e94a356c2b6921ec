ghost use Rattle.std.specs.Prelude.{◌≡◌, IfOk};

use std::alloc::{AllocError, AllocFailed};
use thiserror::Error;

/// Memory wasn't there. It can come at any call that answers it.
#[derive(Clone, Copy, Debug, PartialEq, Eq, Error)]
#[error("out of memory")]
pub struct OutOfMemory;

impl From<AllocError> for OutOfMemory {
    fn from(_e: AllocError) -> OutOfMemory {
        OutOfMemory
    }
}

impl<T: Drop> From<AllocFailed<T>> for OutOfMemory {
    fn from(_e: AllocFailed<T>) -> OutOfMemory {
        OutOfMemory
    }
}

/// A value that can be copied where there is memory.
pub trait Duplicate: Sized {
    /// An equal value.
    fn copy(&self) -> Result<Self, OutOfMemory>
        ensures { IfOk result (λ c. c ≡ self.now) };
}

impl<T: Duplicate> Duplicate for Option<T> {
    fn copy(&self) -> Result<Option<T>, OutOfMemory> {
        match self {
            None => Ok(None),
            Some(value) => Ok(Some(value.copy()?)),
        }
    }
}
