//! What is left when the ends meet again.
ghost use Rattle.std.specs.Prelude.{◌≡◌, ◌<◌, ◌++◌, [], ◌∷◌, length, IfOk, IfSome, MatchOption};
ghost use Rattle.duplex.specs.Lanes.{united};
ghost use Rattle.duplex.specs.Joined.{down_sent, down_taken, up_sent, up_taken};
ghost use Rattle.duplex.specs.Ends.{left_sent, left_taken, right_sent, right_taken, IsPair};

use super::{Joined, Left, Right};
use crate::lane::Stamped;
use crate::plays::Unite;
use crate::steps::{take_down, take_up};
use fission_ids::OutOfMemory;
use std::alloc::Global;

/// What was sent and not taken in each lane, oldest first.
#[derive(Debug, Drop)]
pub struct Rest<D, U> {
    /// What the left end sent.
    pub down: Vec<D>,
    /// What the right end sent.
    pub up: Vec<U>,
}

fn join<D: Stamped, U: Stamped>(left: Left<D, U>, right: Right<D, U>) -> Joined<D, U>
    requires { IsPair left right }
    ensures { result.seat.me.0 ≡ united left.seat.me.0 right.seat.me.0 }
{
    let Left {
        board,
        mut seat,
        cap,
        sent: _,
        taken: up_taken,
    } = left;
    let Right {
        board: _other,
        seat: right_seat,
        cap: _,
        sent: _,
        taken: down_taken,
    } = right;
    board.shared.join_seat::<Unite>(&mut seat, right_seat);
    Joined {
        board,
        seat,
        cap,
        down_taken,
        up_taken,
    }
}

impl<D: Stamped, U: Stamped> Joined<D, U> {
    fn take_down(&mut self) -> Option<D>
        ensures taken { IfSome result (λ item. down_taken self.new ≡ down_taken self.old ++ item ∷ []) }
        ensures last { MatchOption result
            (down_sent self.old ≡ down_taken self.old)
            (λ _. length (down_taken self.old) < length (down_sent self.old)) }
        ensures sent { down_sent self.new ≡ down_sent self.old }
        ensures up { (up_sent self.new ≡ up_sent self.old) × (up_taken self.new ≡ up_taken self.old) }
    {
        let item = take_down(
            &self.board.shared,
            &mut self.seat,
            self.cap,
            self.down_taken,
        )?;
        self.down_taken += 1;
        Some(item)
    }

    fn take_up(&mut self) -> Option<U>
        ensures taken { IfSome result (λ item. up_taken self.new ≡ up_taken self.old ++ item ∷ []) }
        ensures last { MatchOption result
            (up_sent self.old ≡ up_taken self.old)
            (λ _. length (up_taken self.old) < length (up_sent self.old)) }
        ensures sent { up_sent self.new ≡ up_sent self.old }
    {
        let item = take_up(&self.board.shared, &mut self.seat, self.cap, self.up_taken)?;
        self.up_taken += 1;
        Some(item)
    }

    // Takes what waits downwards.
    fn drain_down(&mut self, alloc: Global) -> Result<Vec<D>, OutOfMemory>
        ensures drained { IfOk result (λ rest. down_sent self.old ≡ down_taken self.old ++ rest.items) }
        ensures up { (up_sent self.new ≡ up_sent self.old) × (up_taken self.new ≡ up_taken self.old) }
    {
        let mut rest = Vec::new(alloc);
        while let Some(item) = self.take_down() {
            rest.push(item)?;
        }
        Ok(rest)
    }

    // Takes what waits upwards.
    fn drain_up(&mut self, alloc: Global) -> Result<Vec<U>, OutOfMemory>
        ensures drained { IfOk result (λ rest. up_sent self.old ≡ up_taken self.old ++ rest.items) }
    {
        let mut rest = Vec::new(alloc);
        while let Some(item) = self.take_up() {
            rest.push(item)?;
        }
        Ok(rest)
    }
}

/// Brings both ends of one duplex together and takes what is left in each lane, so that what an end took and
/// its lane of the rest are what the other end sent.
pub fn close<D: Stamped, U: Stamped>(
    alloc: Global,
    left: Left<D, U>,
    right: Right<D, U>,
) -> Result<Rest<D, U>, OutOfMemory>
    requires { IsPair left right }
    ensures down { IfOk result (λ rest. left_sent left ≡ right_taken right ++ rest.down.items) }
    ensures up { IfOk result (λ rest. right_sent right ≡ left_taken left ++ rest.up.items) }
{
    let mut joined = join(left, right);
    let down = joined.drain_down(alloc)?;
    let up = joined.drain_up(alloc)?;
    Ok(Rest { down, up })
}
