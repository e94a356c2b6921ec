ghost use Rattle.std.specs.Prelude.{◌≡◌};
ghost use Rattle.scenario.specs.declared.fault.ReadFault.TheVariants as faults;

use std::alloc::{AllocError, AllocFailed};
use thiserror::Error;

/// Why bytes couldn't be read as a scenario.
#[derive(Clone, Copy, Debug, PartialEq, Eq, Error)]
pub enum ReadFault {
    /// They aren't JSON.
    #[error("not JSON")]
    Unread,
    /// They are JSON and no scenario.
    #[error("no scenario: the first fault is at place {place}")]
    Shape {
        /// Where the first fault is: 0 for the top object, 100000 + n for the n-th tab, n for the n-th
        /// step, and 20001 for more than 20,000 steps.
        place: u32,
    },
    /// Memory wasn't there.
    #[error("{}", fission_ids::OutOfMemory)]
    OutOfMemory,
}

impl From<AllocError> for ReadFault {
    ghost from_gives = { λ _ e. e ≡ faults.OutOfMemory };

    fn from(_e: AllocError) -> ReadFault {
        ReadFault::OutOfMemory
    }
}

impl<T: Drop> From<AllocFailed<T>> for ReadFault {
    ghost from_gives = { λ _ e. e ≡ faults.OutOfMemory };

    fn from(_e: AllocFailed<T>) -> ReadFault {
        ReadFault::OutOfMemory
    }
}

impl From<fission_ids::OutOfMemory> for ReadFault {
    ghost from_gives = { λ _ e. e ≡ faults.OutOfMemory };

    fn from(_e: fission_ids::OutOfMemory) -> ReadFault {
        ReadFault::OutOfMemory
    }
}
