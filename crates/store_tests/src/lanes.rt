ghost use Rattle.std.specs.Prelude.{◌≡◌, ◌<◌, ◌≤◌};
ghost use Rattle.duplex.specs.Ends.{IsSameLeft, IsSameRight};

use duplex::*;
use fission_ids::OutOfMemory;
use std::alloc::Global;
use std::test::Fail;
use std::thread;
use std::thread::Threads;

// An item with a number, by which it is known again.
#[derive(Clone, Copy, Debug, PartialEq, Eq)]
struct Item {
    number: u64,
    stamp: u64,
}

impl Stamped for Item {
    ghost stamp_of = { λ i. i.stamp };

    fn stamp(&self) -> u64 {
        self.stamp
    }
}

fn numbered(number: u64) -> Item
    ensures { result.stamp ≡ 0 }
{
    Item { number, stamp: 0 }
}

// Whether the items have the numbers from `first` on.
fn counts_on(items: &[Item], first: u64) -> bool {
    let mut due = first;
    for item in items {
        if item.number != due {
            return false;
        }
        due = due.wrapping_add(1);
    }
    true
}

#[test]
fn one_slot_holds_one_item(rt: HostRuntime) -> Result<(), Fail> {
    let (mut left, mut right) = pair::<Item, Item>(rt.alloc(), 1)?;
    assert!(rt; left.send(numbered(7)).is_ok());
    match left.send(numbered(8)) {
        Ok(()) => panic!(rt; "two items in one slot"),
        Err(full) => assert_eq!(rt; (full.item, full.taken_seen), (numbered(8), 0)),
    }
    assert_eq!(rt; right.take(), Some(numbered(7)));
    assert_eq!(rt; right.take(), None);
    assert!(rt; left.send(numbered(8)).is_ok());
    assert_eq!(rt;
        (left.sent(), left.taken(), right.sent(), right.taken()),
        (2, 0, 0, 1)
    );
    let rest = close(rt.alloc(), left, right)?;
    assert_eq!(rt;
        (rest.down.len(), counts_on(rest.down.as_slice(), 8)),
        (1, true)
    );
    assert!(rt; rest.up.is_empty() && numbered(8).stamp() == 0);
    Ok(())
}

// Sends numbers from 0 on until the lane is full, 65 at most, and tells how many were sent.
fn fill(right: &mut Right<Item, Item>) -> u64
    ensures { IsSameRight right.old right.new }
{
    for _call in 0..65 {
        let number = right.sent();
        if number == u64::MAX || right.send(numbered(number)).is_err() {
            break;
        }
    }
    right.sent()
}

// Whether a lane takes exactly `cap` items, one more for each that is taken, and the rest is in order.
fn holds_cap(alloc: Global, cap: u32) -> Result<bool, OutOfMemory>
    requires { (0 < cap) × (cap ≤ 64) }
{
    let (mut left, mut right) = pair::<Item, Item>(alloc, cap)?;
    let sent = fill(&mut right);
    let first = left.take();
    let again = fill(&mut right);
    let rest = close(alloc, left, right)?;
    let whole = sent == cap as u64 && again == sent.wrapping_add(1);
    let left_over = rest.up.len() == cap as usize && counts_on(rest.up.as_slice(), 1);
    Ok(whole && first == Some(numbered(0)) && left_over && rest.down.is_empty())
}

#[test]
fn a_lane_holds_cap_items(rt: HostRuntime) -> Result<(), Fail> {
    assert!(rt; holds_cap(rt.alloc(), 1)?);
    assert!(rt; holds_cap(rt.alloc(), 64)?);
    Ok(())
}

// Sends its next number and takes, in turn, and tells whether what it took came in order.
fn play_left(left: &mut Left<Item, Item>, calls: u32) -> bool
    ensures { IsSameLeft left.old left.new }
{
    let mut in_order = true;
    for call in 0..calls {
        let due = left.taken();
        let number = left.sent();
        if call % 2 == 0 && number < u64::MAX {
            let _ = left.send(numbered(number));
        } else if let Some(item) = left.take() {
            in_order = in_order && item.number == due;
        }
    }
    in_order
}

// The same, with the number of items that were taken as a stamp.
fn play_right(right: &mut Right<Item, Item>, calls: u32) -> bool
    ensures { IsSameRight right.old right.new }
{
    let mut in_order = true;
    for call in 0..calls {
        let due = right.taken();
        let number = right.sent();
        if call % 2 == 0 && number < u64::MAX {
            let _ = right.send(Item { number, stamp: due });
        } else if let Some(item) = right.take() {
            in_order = in_order && item.number == due;
        }
    }
    in_order
}

// Both ends at once. What each took came in order, and with its lane of the rest it's what the other sent.
fn plays_across<R: Threads + Sync>(rt: &R, alloc: Global, calls: u32) -> Result<bool, OutOfMemory> {
    let (left, right) = pair::<Item, Item>(alloc, 4)?;
    let ((left, left_in_order), (right, right_in_order)) = thread::join(
        rt,
        move || -> (Left<Item, Item>, bool)
            ensures { IsSameLeft left result.0 }
        {
            let mut left = left;
            let in_order = play_left(&mut left, calls);
            (left, in_order)
        },
        move || -> (Right<Item, Item>, bool)
            ensures { IsSameRight right result.0 }
        {
            let mut right = right;
            let in_order = play_right(&mut right, calls);
            (right, in_order)
        },
    );
    let (down_sent, down_taken) = (left.sent(), right.taken());
    let (up_sent, up_taken) = (right.sent(), left.taken());
    let rest = close(alloc, left, right)?;
    let down = down_sent.wrapping_sub(down_taken) == rest.down.len() as u64
        && counts_on(rest.down.as_slice(), down_taken);
    let up = up_sent.wrapping_sub(up_taken) == rest.up.len() as u64
        && counts_on(rest.up.as_slice(), up_taken);
    Ok(left_in_order && right_in_order && down && up)
}

#[test]
fn two_threads_exchange_items(rt: HostRuntime) -> Result<(), Fail> {
    assert!(rt; plays_across(&rt, rt.alloc(), 100_000)?);
    Ok(())
}
