//! The two ends.
ghost use Rattle.std.specs.Prelude.{◌≡◌, true};
ghost use Rattle.std.specs.Arc.{arc_value};
ghost use Rattle.duplex.specs.Lanes.{down, up};
ghost use Rattle.duplex.specs.Seats.{FitsCap, MaySend, MayTake};

use crate::lane::{Board, Place, Stamped};
use std::sync::Arc;

mod closing;
mod left_end;
mod making;
mod right_end;

pub use closing::{Rest, close};
pub use making::pair;

/// The end that sends downwards and takes upwards.
#[derive(Drop)]
pub struct Left<D: Stamped, U: Stamped> {
    board: Arc<Board<D, U>>,
    seat: Place<D, U>,
    cap: u64,
    sent: u64,
    taken: u64,
    ghost keyed: { (arc_value board).shared.key ≡ cap },
    ghost fits: { FitsCap (arc_value board).shared.table_id cap },
    ghost seated: { seat.table_id ≡ (arc_value board).shared.table_id },
    ghost sender: { MaySend down seat.me sent },
    ghost taker: { MayTake up seat.me taken },
}

/// The end that sends upwards and takes downwards.
#[derive(Drop)]
pub struct Right<D: Stamped, U: Stamped> {
    board: Arc<Board<D, U>>,
    seat: Place<D, U>,
    cap: u64,
    sent: u64,
    taken: u64,
    ghost keyed: { (arc_value board).shared.key ≡ cap },
    ghost fits: { FitsCap (arc_value board).shared.table_id cap },
    ghost seated: { seat.table_id ≡ (arc_value board).shared.table_id },
    ghost sender: { MaySend up seat.me sent },
    ghost taker: { MayTake down seat.me taken },
}

// The one seat of both ends.
#[derive(Drop)]
struct Joined<D: Stamped, U: Stamped> {
    board: Arc<Board<D, U>>,
    seat: Place<D, U>,
    cap: u64,
    down_taken: u64,
    up_taken: u64,
    ghost keyed: { (arc_value board).shared.key ≡ cap },
    ghost fits: { FitsCap (arc_value board).shared.table_id cap },
    ghost seated: { seat.table_id ≡ (arc_value board).shared.table_id },
    ghost sender: { (seat.me.0.down_send.has ≡ true) × (seat.me.0.up_send.has ≡ true) },
    ghost takers: { MayTake down seat.me down_taken × MayTake up seat.me up_taken },
}

/// As many items wait in the lane as it holds.
#[derive(Debug, Drop)]
pub struct Full<T> {
    /// The item, which wasn't sent.
    pub item: T,
    /// How many items the peer had taken.
    pub taken_seen: u64,
}
