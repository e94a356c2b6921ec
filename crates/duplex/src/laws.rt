//! What the rule of the table means.
ghost use Rattle.duplex.specs.Shown.{ShowsDown, ShowsUp};

use crate::lane::Stamped;

/// The words and slots of the table show what waits in each lane, oldest first, wherever the taker of the
/// lane has no slot out.
pub fn slots_show_what_waits<D: Stamped, U: Stamped>()
    ensures down { ShowsDown D U U.stamp_of }
    ensures up { ShowsUp D U U.stamp_of }
{}
