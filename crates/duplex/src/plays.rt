//! What each step on the table tells. These types are for the proofs alone.
ghost use Rattle.duplex.specs.Lanes.{down, up, left_of, right_of, united, spent};
ghost use Rattle.duplex.specs.Plays.{Answered, SawSent, SawTaken, Sent, Took};

use crate::lane::{Goods, Stamped, View};
use atomic_table::{Join, Play, Split};

pub(crate) struct SeeDownTaken;

impl<D: Drop, U: Drop> Play<Option<Goods<D, U>>, View<D, U>> for SeeDownTaken {
    ghost then = { SawTaken down };
}

pub(crate) struct SeeUpTaken;

impl<D: Drop, U: Drop> Play<Option<Goods<D, U>>, View<D, U>> for SeeUpTaken {
    ghost then = { SawTaken up };
}

pub(crate) struct SendDown;

impl<D: Drop, U: Drop> Play<Option<Goods<D, U>>, View<D, U>> for SendDown {
    ghost then = { Sent down };
}

pub(crate) struct SendUp;

impl<D: Drop, U: Drop> Play<Option<Goods<D, U>>, View<D, U>> for SendUp {
    ghost then = { Sent up };
}

pub(crate) struct SeeDownSent;

impl<D: Drop, U: Drop> Play<Option<Goods<D, U>>, View<D, U>> for SeeDownSent {
    ghost then = { SawSent down (λ _ _. Unit {0}) };
}

pub(crate) struct SeeUpSent;

impl<D: Stamped, U: Stamped> Play<Option<Goods<D, U>>, View<D, U>> for SeeUpSent {
    ghost then = { SawSent up (Answered U.stamp_of) };
}

pub(crate) struct TakeDown;

impl<D: Drop, U: Drop> Play<Option<Goods<D, U>>, View<D, U>> for TakeDown {
    ghost then = { Took down };
}

pub(crate) struct TakeUp;

impl<D: Drop, U: Drop> Play<Option<Goods<D, U>>, View<D, U>> for TakeUp {
    ghost then = { Took up };
}

/// The right end's seat is cut off the left one's.
pub(crate) struct Part;

impl<D, U> Split<View<D, U>> for Part {
    ghost left = { left_of };

    ghost right = { right_of };
}

/// The left end's seat takes in the right one's.
pub(crate) struct Unite;

impl<D, U> Join<View<D, U>> for Unite {
    ghost both = { united };

    ghost spent = { spent };
}
