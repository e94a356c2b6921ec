use crate::memory::{Duplicate, OutOfMemory};

/// The number of a process's commit, which counts up from 1; 0 is before the first.
#[derive(Clone, Copy, Debug, PartialEq, Eq, PartialOrd, Ord)]
pub struct Epoch(pub u64);

impl Duplicate for Epoch {
    fn copy(&self) -> Result<Epoch, OutOfMemory> {
        Ok(*self)
    }
}
