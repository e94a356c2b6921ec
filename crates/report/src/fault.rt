ghost use Rattle.std.specs.Prelude.{◌≡◌};
ghost use Rattle.report.specs.declared.fault.ReportFault.TheVariants as faults;

use fission_ids::OutOfMemory;
use thiserror::Error;

/// Why a report couldn't be written to its end.
#[derive(Clone, Copy, Debug, PartialEq, Eq, Error)]
pub enum ReportFault {
    /// The sink failed.
    #[error("the report couldn't be written")]
    Failed,
    /// Memory wasn't there.
    #[error("{}", fission_ids::OutOfMemory)]
    OutOfMemory,
}

impl From<OutOfMemory> for ReportFault {
    ghost from_gives = { λ _ e. e ≡ faults.OutOfMemory };

    fn from(_e: OutOfMemory) -> ReportFault {
        ReportFault::OutOfMemory
    }
}

impl From<edge::Failed> for ReportFault {
    ghost from_gives = { λ _ e. e ≡ faults.Failed };

    fn from(_e: edge::Failed) -> ReportFault {
        ReportFault::Failed
    }
}
