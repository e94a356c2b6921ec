//! The table that both ends share, and what an end knows of each lane.
//! Word 0 counts what was sent downwards and word 1 what was taken of it, words 2 and 3 the same upwards.
//! The first `cap` slots are those of the lane down and the others those of the lane up. Item n lies in the
//! slot `n % cap` of its lane.
ghost use Rattle.std.specs.Prelude.{◌≡◌, ℕ};

use atomic_table::{Seat, Shared, Table, TableRule};
use std::alloc::Global;
use std::collections::LinkedList;

/// An item with a stamp: how many items its sender had taken when it was made, or fewer.
pub trait Stamped: Drop {
    ghost stamp_of: { Self → ℕ };

    /// The stamp.
    fn stamp(&self) -> u64
        ensures { result ≡ stamp_of self.now };
}

/// What the sender of a lane knows. No value of it is made.
pub struct SendHalf<T> {
    /// Whether this is the sender.
    pub has: bool,
    /// What was sent, oldest first.
    pub items: LinkedList<T>,
    /// Whether it has the next slot out.
    pub busy: bool,
    /// How often it loaded the taken word, and the last value.
    pub loads: u64,
    pub last: u64,
}

/// What the taker of a lane knows. No value of it is made.
pub struct TakeHalf<T> {
    /// Whether this is the taker.
    pub has: bool,
    /// What was taken, oldest first.
    pub items: LinkedList<T>,
    /// Whether it has the first slot out, and the item that it found there.
    pub busy: bool,
    pub hand: Option<T>,
    /// How often it loaded the sent word, and the last value.
    pub loads: u64,
    pub last: u64,
}

/// What a seat knows of the two lanes. No value of it is made.
pub struct View<D, U> {
    pub down_send: SendHalf<D>,
    pub down_take: TakeHalf<D>,
    pub up_send: SendHalf<U>,
    pub up_take: TakeHalf<U>,
}

/// What lies in a slot.
#[derive(Drop)]
pub enum Goods<D: Drop, U: Drop> {
    Down(D),
    Up(U),
}

/// The rule of the table. Its key is `cap`.
pub struct TwoLanes;

impl<D: Stamped, U: Stamped> TableRule<Option<Goods<D, U>>, View<D, U>, u64> for TwoLanes {
    ghost use Rattle.duplex.specs.Lanes.{Duplex, both};

    ghost holds = { λ cap. Duplex U.stamp_of cap };

    ghost first = { λ _. both };
}

pub(crate) type Board<D, U> = Table<Option<Goods<D, U>>, View<D, U>, u64, TwoLanes, Global>;

pub(crate) type Lanes<D, U> = Shared<Option<Goods<D, U>>, View<D, U>, u64, TwoLanes>;

pub(crate) type Place<D, U> = Seat<Option<Goods<D, U>>, View<D, U>>;
