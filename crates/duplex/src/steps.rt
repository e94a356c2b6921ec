//! A send and a take on each lane, each of one load of the peer's word and, where that allows it, one slot
//! and one store.
ghost use Rattle.std.specs.Prelude.{◌≡◌, ◌+◌, ◌-◌, ◌^◌, ◌<◌, ◌≤◌, length};
ghost use Rattle.std.specs.Prelude.{true, IsTrue, IsFalse, IsSome, IfSome, MatchOption, MatchResult};
ghost use Rattle.duplex.specs.declared.lane.Goods.TheVariants.{Down, Up};
ghost use Rattle.duplex.specs.Lanes.{down, up};
ghost use Rattle.duplex.specs.Plays.{Answered};
ghost use Rattle.duplex.specs.Seats.{FitsCap, MaySend, MayTake, HasSent, FoundFull, HasTaken, FoundNone};

use crate::ends::Full;
use crate::lane::{Goods, Lanes, Place, Stamped};
use crate::plays::{
    SeeDownSent, SeeDownTaken, SeeUpSent, SeeUpTaken, SendDown, SendUp, TakeDown, TakeUp,
};

// The words of the table.
const DOWN_SENT: usize = 0;

const DOWN_TAKEN: usize = 1;

const UP_SENT: usize = 2;

const UP_TAKEN: usize = 3;

// Whether `cap` items wait, by what the peer has taken.
fn is_full(sent: u64, taken: u64, cap: u64) -> bool
    requires { taken ≤ sent }
    ensures full { IsTrue result → taken + cap ≤ sent }
    ensures room { IsFalse result → sent < taken + cap }
{
    sent - taken >= cap
}

fn down_of<D: Drop, U: Drop>(slot: Option<Goods<D, U>>) -> D
    requires { (x : D) × (slot ≡ Some (Down x)) }
    ensures { slot ≡ Some (Down result) }
{
    match slot {
        Some(Goods::Down(item)) => item,
        _ => unreachable!(),
    }
}

fn up_of<D: Drop, U: Drop>(slot: Option<Goods<D, U>>) -> U
    requires { (x : U) × (slot ≡ Some (Up x)) }
    ensures { slot ≡ Some (Up result) }
{
    match slot {
        Some(Goods::Up(item)) => item,
        _ => unreachable!(),
    }
}

pub(crate) fn send_down<D: Stamped, U: Stamped>(
    board: &Lanes<D, U>,
    seat: &mut Place<D, U>,
    cap: u64,
    sent: u64,
    item: D,
) -> Result<(), Full<D>>
    requires board { (board.now.key ≡ cap) × FitsCap board.now.table_id cap }
    requires table { seat.old.table_id ≡ board.now.table_id }
    requires seat { MaySend down seat.old.me sent }
    requires room { sent < 2 ^ 64 - 1 }
    ensures seat { (seat.new.table_id ≡ seat.old.table_id) × (seat.new.id ≡ seat.old.id) }
    ensures told { MatchResult result
        (λ _. HasSent down cap item seat.old.me seat.new.me)
        (λ e. (e.item ≡ item) × FoundFull down cap e.taken_seen seat.old.me seat.new.me) }
{
    let taken = board.load::<SeeDownTaken>(seat, DOWN_TAKEN);
    if is_full(sent, taken, cap) {
        return Err(Full {
            item,
            taken_seen: taken,
        });
    }
    let index = (sent % cap) as usize;
    match board.exchange(seat, index, Some(Goods::Down(item))) {
        None => {}
        Some(_) => unreachable!(),
    }
    board.store::<SendDown>(seat, DOWN_SENT, sent + 1);
    Ok(())
}

// Its stamp is at most what this end took, so what the peer sent.
pub(crate) fn send_up<D: Stamped, U: Stamped>(
    board: &Lanes<D, U>,
    seat: &mut Place<D, U>,
    cap: u64,
    sent: u64,
    item: U,
) -> Result<(), Full<U>>
    requires board { (board.now.key ≡ cap) × FitsCap board.now.table_id cap }
    requires table { seat.old.table_id ≡ board.now.table_id }
    requires seat { MaySend up seat.old.me sent }
    requires room { sent < 2 ^ 64 - 1 }
    requires peer { seat.old.me.0.down_take.has ≡ true }
    requires stamp { U.stamp_of item ≤ length seat.old.me.0.down_take.items }
    ensures seat { (seat.new.table_id ≡ seat.old.table_id) × (seat.new.id ≡ seat.old.id) }
    ensures told { MatchResult result
        (λ _. HasSent up cap item seat.old.me seat.new.me)
        (λ e. (e.item ≡ item) × FoundFull up cap e.taken_seen seat.old.me seat.new.me) }
{
    let taken = board.load::<SeeUpTaken>(seat, UP_TAKEN);
    if is_full(sent, taken, cap) {
        return Err(Full {
            item,
            taken_seen: taken,
        });
    }
    let index = (cap + sent % cap) as usize;
    match board.exchange(seat, index, Some(Goods::Up(item))) {
        None => {}
        Some(_) => unreachable!(),
    }
    board.store::<SendUp>(seat, UP_SENT, sent + 1);
    Ok(())
}

pub(crate) fn take_down<D: Stamped, U: Stamped>(
    board: &Lanes<D, U>,
    seat: &mut Place<D, U>,
    cap: u64,
    taken: u64,
) -> Option<D>
    requires board { (board.now.key ≡ cap) × FitsCap board.now.table_id cap }
    requires table { seat.old.table_id ≡ board.now.table_id }
    requires seat { MayTake down seat.old.me taken }
    ensures seat { (seat.new.table_id ≡ seat.old.table_id) × (seat.new.id ≡ seat.old.id) }
    ensures told { MatchOption result
        (FoundNone down seat.old.me seat.new.me)
        (λ x. HasTaken down x seat.old.me seat.new.me) }
    ensures room { IsSome result → taken < 2 ^ 64 - 1 }
    ensures last { seat.old.me.0.down_send.has ≡ true → MatchOption result
        (seat.old.me.0.down_send.items ≡ seat.old.me.0.down_take.items)
        (λ _. taken < length seat.old.me.0.down_send.items) }
{
    let sent = board.load::<SeeDownSent>(seat, DOWN_SENT);
    if sent <= taken {
        return None;
    }
    let index = (taken % cap) as usize;
    let item = down_of(board.exchange(seat, index, None));
    board.store::<TakeDown>(seat, DOWN_TAKEN, taken + 1);
    Some(item)
}

pub(crate) fn take_up<D: Stamped, U: Stamped>(
    board: &Lanes<D, U>,
    seat: &mut Place<D, U>,
    cap: u64,
    taken: u64,
) -> Option<U>
    requires board { (board.now.key ≡ cap) × FitsCap board.now.table_id cap }
    requires table { seat.old.table_id ≡ board.now.table_id }
    requires seat { MayTake up seat.old.me taken }
    requires peer { seat.old.me.0.down_send.has ≡ true }
    ensures seat { (seat.new.table_id ≡ seat.old.table_id) × (seat.new.id ≡ seat.old.id) }
    ensures told { MatchOption result
        (FoundNone up seat.old.me seat.new.me)
        (λ x. HasTaken up x seat.old.me seat.new.me) }
    ensures stamp { IfSome result (λ x. Answered U.stamp_of seat.old.me.0 x) }
    ensures room { IsSome result → taken < 2 ^ 64 - 1 }
    ensures last { seat.old.me.0.up_send.has ≡ true → MatchOption result
        (seat.old.me.0.up_send.items ≡ seat.old.me.0.up_take.items)
        (λ _. taken < length seat.old.me.0.up_send.items) }
{
    let sent = board.load::<SeeUpSent>(seat, UP_SENT);
    if sent <= taken {
        return None;
    }
    let index = (cap + taken % cap) as usize;
    let item = up_of(board.exchange(seat, index, None));
    board.store::<TakeUp>(seat, UP_TAKEN, taken + 1);
    Some(item)
}
