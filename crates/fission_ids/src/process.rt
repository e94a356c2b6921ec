ghost use Rattle.std.specs.Prelude.{◌≡◌, ◌<◌};
ghost use Rattle.fission_ids.specs.ProcSet.{AddsOne, RemovesOne, IsEmpty, has, with, without};

use crate::memory::{Duplicate, OutOfMemory};

/// The number of a content process, from 0 on, below 16.
#[derive(Clone, Copy, Debug, PartialEq, Eq)]
pub struct ProcId(pub u8);

impl Duplicate for ProcId {
    fn copy(&self) -> Result<ProcId, OutOfMemory> {
        Ok(*self)
    }
}

/// A set of processes: bit p tells whether process p is in it.
#[derive(Clone, Copy, Debug, PartialEq, Eq)]
pub struct ProcSet(pub u16);

impl ProcSet {
    /// No process.
    pub const EMPTY: ProcSet = ProcSet(0);

    /// Whether p is in the set.
    pub fn has(self, p: ProcId) -> bool
        requires { p.0 < 16 }
        ensures { result ≡ has self p.0 }
    {
        self.0 >> p.0 & 1 == 1
    }

    /// The set with p in it.
    pub fn with(self, p: ProcId) -> ProcSet
        requires { p.0 < 16 }
        ensures value { result ≡ with self p.0 }
        ensures members { AddsOne self result p.0 }
    {
        ProcSet(self.0 | 1 << p.0)
    }

    /// The set without p.
    pub fn without(self, p: ProcId) -> ProcSet
        requires { p.0 < 16 }
        ensures value { result ≡ without self p.0 }
        ensures members { RemovesOne self result p.0 }
    {
        ProcSet(self.0 & !(1 << p.0))
    }
}

// The empty set has no process.
fn empty_is_empty()
    ensures { IsEmpty ProcSet.EMPTY }
{}
