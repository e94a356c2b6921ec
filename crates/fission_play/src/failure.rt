ghost use Rattle.std.specs.Prelude.{◌≡◌};

use report::ReportFault;
use thiserror::Error;

/// Why the report of a scenario wasn't written whole.
#[derive(Clone, Copy, Debug, PartialEq, Eq, Error)]
pub enum Failure {
    /// Memory wasn't there.
    #[error("memory ran out")]
    Memory,
    /// The words aren't the one word `play`.
    #[error("the words aren't the one word `play`")]
    Words,
    /// The bytes aren't JSON.
    #[error("the bytes aren't JSON")]
    Unread,
    /// The bytes are JSON and no scenario.
    #[error("the JSON is no scenario: its first fault is at place {place}")]
    Shape {
        /// The place of the first fault, as `ReadFault` tells it.
        place: u32,
    },
    /// There are more bytes than are read.
    #[error("there are more than {} bytes", crate::player::LIMIT)]
    TooLarge,
    /// A read failed.
    #[error("a read failed")]
    ReadFault,
    /// A write failed.
    #[error("a write failed")]
    WriteFault,
}

impl From<ReportFault> for Failure {
    ghost use Rattle.fission_play.specs.Status.{failure_of};

    ghost from_gives = { λ fault failure. failure ≡ failure_of fault };

    fn from(fault: ReportFault) -> Failure {
        match fault {
            ReportFault::Failed => Failure::WriteFault,
            ReportFault::OutOfMemory => Failure::Memory,
        }
    }
}
