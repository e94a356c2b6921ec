ghost use Rattle.std.specs.Prelude.{◌≡◌};
ghost use Rattle.match_pattern.specs.declared.fault.PatternFault.TheVariants as faults;

use fission_ids::OutOfMemory;
use thiserror::Error;

/// Why a text is no pattern: the first place that breaks it, in bytes from 0.
#[derive(Clone, Copy, Debug, PartialEq, Eq, Error)]
pub enum PatternFault {
    /// No scheme of a pattern stands before a first `://`. The place is 0.
    #[error("no scheme at {at}")]
    NoScheme { at: u32 },
    /// The host breaks here.
    #[error("bad host at {at}")]
    BadHost { at: u32 },
    /// The path breaks here.
    #[error("bad path at {at}")]
    BadPath { at: u32 },
    /// Memory wasn't there.
    #[error("out of memory")]
    OutOfMemory,
}

impl From<OutOfMemory> for PatternFault {
    ghost from_gives = { λ _ e. e ≡ faults.OutOfMemory };

    fn from(_e: OutOfMemory) -> PatternFault {
        PatternFault::OutOfMemory
    }
}
