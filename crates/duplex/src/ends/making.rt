//! How two ends are made.
ghost use Rattle.std.specs.Prelude.{◌<◌, ◌≤◌, IfOk};
ghost use Rattle.duplex.specs.Ends.{IsPair, IsNewLeft, IsNewRight};

use super::{Left, Right};
use crate::lane::{Board, Stamped};
use crate::plays::Part;
use fission_ids::OutOfMemory;
use std::alloc::Global;
use std::sync::Arc;

/// The two ends of a duplex on which nothing was sent, where at most `cap` items, 1 to 64, wait in each lane.
pub fn pair<D: Stamped, U: Stamped>(
    alloc: Global,
    cap: u32,
) -> Result<(Left<D, U>, Right<D, U>), OutOfMemory>
    requires { (0 < cap) × (cap ≤ 64) }
    ensures pair { IfOk result (λ ends. IsPair ends.0 ends.1) }
    ensures left { IfOk result (λ ends. IsNewLeft cap ends.0) }
    ensures right { IfOk result (λ ends. IsNewRight cap ends.1) }
{
    let cap = cap as u64;
    let (board, mut seat) = Board::<D, U>::vacant(
        alloc,
        &[0, 0, 0, 0],
        (cap + cap) as usize,
        &cap,
    )?;
    let right = board.shared.split_seat::<Part>(&mut seat);
    let board = Arc::new(alloc, board)?;
    let other = board.clone()?;
    let left = Left {
        board,
        seat,
        cap,
        sent: 0,
        taken: 0,
    };
    let right = Right {
        board: other,
        seat: right,
        cap,
        sent: 0,
        taken: 0,
    };
    Ok((left, right))
}
