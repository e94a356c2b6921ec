ghost use Rattle.std.specs.Prelude.{◌≡◌, ℕ, ◌<◌, ◌≤◌, ◌++◌, ◌∷◌, [], length, map, true, false};
ghost use Rattle.std.specs.Prelude.{◌+◌, if◌then◌else◌, unwrap_or, IfOk, OnOk, MatchOption, ⊤};
ghost use Rattle.std.specs.Option.{option_map_or};
ghost use Rattle.context_group.specs.Sets.{set_without};
ghost use Rattle.context_group.specs.Groups.{at_group, group_after_ack, group_after_await, group_after_drop};
ghost use Rattle.context_group.specs.Groups.{group_after_grow, group_after_subscribe, group_at, is_kept};
ghost use Rattle.context_group.specs.Groups.{AreSound, IsMade};
ghost use Rattle.protocol.specs.FactsAfter.{one_if};
ghost use Rattle.fission_ids.specs.ProcSet.{has};
ghost use Rattle.parent_core.specs.Membership.{group_begun, group_with, group_with_more, groups_opened};
ghost use Rattle.parent_core.specs.Membership.{HasRoom, IsBegun, shrunk};

use context_group::{GroupFault, Groups};
use fission_ids::{ContextId, GroupId, OutOfMemory, ProcId, ProcSet};

/// One process, if it is subscribed to a group.
pub(crate) fn one_subscribed(groups: &Groups, g: GroupId, p: ProcId) -> ProcSet
    requires { p.0 < 16 }
    ensures { result ≡ one_if (has (group_at g groups.now).subscribers p.0) p.0 }
{
    if groups.subscribers(g).has(p) {
        ProcSet::EMPTY.with(p)
    } else {
        ProcSet::EMPTY
    }
}

/// The processes that are subscribed to a group, but perhaps one.
pub(crate) fn subscribed_but(groups: &Groups, g: GroupId, but: Option<ProcId>) -> ProcSet
    requires { MatchOption but ⊤ (λ p. p.0 < 16) }
    ensures { result ≡ option_map_or (λ p. set_without p.0 (group_at g groups.now).subscribers) but
        (group_at g groups.now).subscribers }
{
    let all = groups.subscribers(g);
    match but {
        Some(p) if all.has(p) => all.without(p),
        _ => all,
    }
}

/// The processes of a set owe the acknowledgement of a context, if its group is kept.
pub(crate) fn await_if_kept(
    groups: &mut Groups,
    g: GroupId,
    who: ProcSet,
    x: ContextId,
) -> Result<(), OutOfMemory>
    ensures groups { OnOk result (groups.new ≡
        (if is_kept g groups.old then at_group (group_after_await who x) g groups.old else groups.old)) }
    ensures sound { OnOk result (AreSound groups.new) }
{
    if groups.is_kept(g) {
        groups.await_acks(g, who, x)?;
    }
    let _ = groups.len();
    Ok(())
}

/// So many live contexts fewer in a group that has as many.
pub(crate) fn shrink_by(groups: &mut Groups, g: GroupId, count: usize)
    requires { count ≤ (group_at g groups.old).live }
    ensures groups { groups.new ≡ shrunk count g groups.old }
    ensures sound { AreSound groups.new }
{
    for _ in 0..count {
        groups.shrink(g);
    }
    let _ = groups.len();
}

/// One live context more in a group that is kept and has room.
pub(crate) fn grow(groups: &mut Groups, g: GroupId)
    requires kept { is_kept g groups.old ≡ true }
    requires room { (group_at g groups.old).live < 4080 }
    ensures groups { groups.new ≡ at_group group_after_grow g groups.old }
    ensures sound { AreSound groups.new }
{
    groups.grow(g);
    let _ = groups.len();
}

/// The group of a new tab, which is the one that is named or a new one, with the tab's context.
pub(crate) fn open_in(groups: &mut Groups, named: Option<GroupId>) -> Result<GroupId, OutOfMemory>
    requires { MatchOption named (length groups.old < 64) (HasRoom groups.old) }
    ensures number { IfOk result (λ g. g ≡ unwrap_or named (record { 0 = length groups.old + 1 })) }
    ensures groups { OnOk result (groups.new ≡ groups_opened named groups.old) }
    ensures sound { OnOk result (AreSound groups.new) }
{
    match named {
        Some(g) => {
            grow(groups, g);
            Ok(g)
        }
        None => {
            begin_with(groups, ProcSet::EMPTY)?;
            Ok(GroupId(groups.len() as u32))
        }
    }
}

/// Process p is subscribed to a group that was made, if it wasn't.
pub(crate) fn subscribe(groups: &mut Groups, p: ProcId, g: GroupId)
    requires process { p.0 < 16 }
    requires made { IsMade g groups.old }
    ensures groups { groups.new ≡ (if has (group_at g groups.old).subscribers p.0 then groups.old
        else at_group (group_after_subscribe p.0) g groups.old) }
    ensures sound { AreSound groups.new }
{
    groups.subscribe(p, g);
    let _ = groups.len();
}

/// Process p acknowledges the discard of a context.
pub(crate) fn acknowledge(groups: &mut Groups, p: ProcId, x: ContextId)
    ensures groups { groups.new ≡ map (group_after_ack p.0 x) groups.old }
    ensures sound { AreSound groups.new }
{
    groups.ack(p, x);
    let _ = groups.len();
}

/// Process p is subscribed to no group and owes nothing.
pub(crate) fn drop_process(groups: &mut Groups, p: ProcId)
    ensures groups { groups.new ≡ map (group_after_drop p.0) groups.old }
    ensures sound { AreSound groups.new }
{
    groups.drop_process(p);
    let _ = groups.len();
}

/// Begins a group with these subscribers and one live context.
pub(crate) fn begin_with(groups: &mut Groups, members: ProcSet) -> Result<(), OutOfMemory>
    requires room { length groups.old < 64 }
    requires low { (q : ℕ) → has members q ≡ true → q < 16 }
    ensures { OnOk result (groups.new ≡ groups.old ++ group_begun members ∷ []) }
{
    match groups.begin() {
        Ok(g) => {
            subscribe_all(groups, g, members);
            groups.grow(g);
            Ok(())
        }
        Err(GroupFault::OutOfMemory) => Err(OutOfMemory),
        Err(GroupFault::TooMany) => unreachable!(),
    }
}

// Subscribes the processes of a set to a group that has just begun.
fn subscribe_all(groups: &mut Groups, g: GroupId, members: ProcSet)
    requires begun { IsBegun g groups.old }
    requires low { (q : ℕ) → has members q ≡ true → q < 16 }
    ensures { groups.new ≡ at_group (group_with members) g groups.old }
{
    for p in 0..16 {
        subscribe_if(groups, g, members, ProcId(p));
    }
}

// Subscribes a process to a group that has just begun, if it is in the set.
fn subscribe_if(groups: &mut Groups, g: GroupId, members: ProcSet, p: ProcId)
    requires process { p.0 < 16 }
    requires made { IsMade g groups.old }
    requires absent { has (group_at g groups.old).subscribers p.0 ≡ false }
    ensures { groups.new ≡ at_group (group_with_more (has members p.0) p.0) g groups.old }
{
    if members.has(p) {
        groups.subscribe(p, g);
    }
}
