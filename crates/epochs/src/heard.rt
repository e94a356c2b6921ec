ghost use Rattle.std.specs.Prelude.{◌≡◌, ◌≢◌, ◌-◌, ◌^◌, ◌<◌, IfOk, IfErr, OnOk};
ghost use Rattle.epochs.specs.Heard.{due};

use fission_ids::{Duplicate, Epoch, OutOfMemory};
use std::marker::Model;
use thiserror::Error;

/// A bundle said an epoch that isn't due.
#[derive(Clone, Copy, Debug, PartialEq, Eq, Error)]
#[error("a bundle said the epoch {}, where {} is due", .said.0, .due.0)]
pub struct BadEpoch {
    /// The epoch that it said.
    pub said: Epoch,
    /// The epoch that is due.
    pub due: Epoch,
}

/// The epoch that was last heard from a process, seen as a number.
#[derive(Debug, Drop)]
pub struct Heard {
    last: Epoch,
}

impl Model for Heard {
    ghost use Rattle.std.specs.Prelude.{ℕ};

    ghost Value = { ℕ };

    ghost view = { λ h. h.last.0 };
}

impl Heard {
    /// Nothing was heard yet.
    pub fn new() -> Heard
        ensures { result ≡ 0 }
    {
        Heard { last: Epoch(0) }
    }

    /// The last epoch that was heard, 0 before the first.
    pub fn last(&self) -> Epoch
        ensures { result.0 ≡ self.now }
    {
        self.last
    }

    /// Records the epoch of a bundle. Due is the next epoch where the bundle has a commit, else the last one.
    /// Another epoch is an error, and nothing is recorded.
    pub fn note(&mut self, e: Epoch, commit: bool) -> Result<(), BadEpoch>
        requires { self.old < 2 ^ 64 - 1 }
        ensures ok { OnOk result ((e.0 ≡ due self.old commit) × (self.new ≡ e.0)) }
        ensures bad { IfErr result
            (λ b. (e.0 ≢ due self.old commit) × (b.said ≡ e)
            × (b.due.0 ≡ due self.old commit) × (self.new ≡ self.old)) }
    {
        let due = if commit {
            Epoch(self.last.0 + 1)
        } else {
            self.last
        };
        if e != due {
            return Err(BadEpoch { said: e, due });
        }
        self.last = e;
        Ok(())
    }
}

impl Duplicate for Heard {
    fn copy(&self) -> Result<Heard, OutOfMemory> {
        Ok(Heard { last: self.last })
    }
}
