ghost use Rattle.std.specs.Prelude.{◌≡◌};
ghost use Rattle.context_tree.specs.declared.fault.TreeFault.TheVariants as faults;

use fission_ids::OutOfMemory;
use thiserror::Error;

/// Why a context can't be attached. The first of these that fits is told.
#[derive(Clone, Copy, Debug, PartialEq, Eq, Error)]
pub enum TreeFault {
    /// The tree holds the context already.
    #[error("the context is in the tree already")]
    Known,
    /// The tree doesn't hold the parent.
    #[error("the parent isn't in the tree")]
    NoParent,
    /// Memory wasn't there.
    #[error("out of memory")]
    OutOfMemory,
}

impl From<OutOfMemory> for TreeFault {
    ghost from_gives = { λ _ e. e ≡ faults.OutOfMemory };

    fn from(_e: OutOfMemory) -> TreeFault {
        TreeFault::OutOfMemory
    }
}
