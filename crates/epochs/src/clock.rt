ghost use Rattle.std.specs.Prelude.{◌≡◌, ◌+◌, ◌-◌, ◌^◌, ◌<◌, IfOk, OnErr};

use fission_ids::{Duplicate, Epoch, OutOfMemory};
use std::marker::Model;
use thiserror::Error;

/// The clock is at the last epoch that there is, 2^64 - 1.
#[derive(Clone, Copy, Debug, PartialEq, Eq, Error)]
#[error("the clock is at its last epoch")]
pub struct Worn;

/// A process's count of commits, seen as the number of the last epoch that it gave.
#[derive(Debug, Drop)]
pub struct Clock {
    last: Epoch,
}

impl Model for Clock {
    ghost use Rattle.std.specs.Prelude.{ℕ};

    ghost Value = { ℕ };

    ghost view = { λ c. c.last.0 };
}

impl Clock {
    /// A clock that has given no epoch.
    pub fn new() -> Clock
        ensures { result ≡ 0 }
    {
        Clock { last: Epoch(0) }
    }

    /// The last epoch that was given, 0 before the first.
    pub fn last(&self) -> Epoch
        ensures { result.0 ≡ self.now }
    {
        self.last
    }

    /// Gives the next epoch. A clock at 2^64 - 1 is worn, and stays there.
    pub fn next(&mut self) -> Result<Epoch, Worn>
        ensures ok { IfOk result
            (λ e. (e.0 ≡ self.old + 1) × (self.new ≡ self.old + 1) × (self.old < 2 ^ 64 - 1)) }
        ensures worn { OnErr result ((self.old ≡ 2 ^ 64 - 1) × (self.new ≡ self.old)) }
    {
        if self.last.0 == u64::MAX {
            return Err(Worn);
        }
        self.last = Epoch(self.last.0 + 1);
        Ok(self.last)
    }
}

impl Duplicate for Clock {
    fn copy(&self) -> Result<Clock, OutOfMemory> {
        Ok(Clock { last: self.last })
    }
}
