ghost use Rattle.std.specs.Prelude.{◌≡◌};
ghost use Rattle.window_global.specs.declared.fault.WindowFault.TheVariants as faults;

use fission_ids::OutOfMemory;
use thiserror::Error;

/// Why a window wasn't made. The first of these that fits is told.
#[derive(Clone, Copy, Debug, PartialEq, Eq, Error)]
pub enum WindowFault {
    /// A window of this id was made.
    #[error("the window was made already")]
    Known,
    /// Memory wasn't there.
    #[error("out of memory")]
    OutOfMemory,
}

impl From<OutOfMemory> for WindowFault {
    ghost from_gives = { λ _ e. e ≡ faults.OutOfMemory };

    fn from(_e: OutOfMemory) -> WindowFault {
        WindowFault::OutOfMemory
    }
}
