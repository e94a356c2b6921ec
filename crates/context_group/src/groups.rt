ghost use Rattle.std.specs.Prelude.{◌≡◌, ◌<◌, ◌≤◌, ◌+◌, ◌==◌, ◌&&◌, ◌||◌, [], ◌∷◌, ◌++◌, ◌↔◌};
ghost use Rattle.std.specs.Prelude.{if◌then◌else◌, length, map, not, true, unwrap_or, IfOk, IsErrOf};
ghost use Rattle.std.specs.Prelude.{IsTrue, OnErr, OnOk, ℕ};
ghost use Rattle.std.specs.List.{list_any};
ghost use Rattle.std.specs.Bool.{OnFalse};
ghost use Rattle.std.specs.Option.{option_copied};
ghost use Rattle.fission_ids.specs.ProcSet.{has};
ghost use Rattle.fission_ids.specs.Ids.{same_context};
ghost use Rattle.fission_ids.specs.declared.context.ContextId.{ContextId};
ghost use Rattle.fission_ids.specs.declared.group.GroupId.{GroupId};
ghost use Rattle.context_group.specs.Groups.{at_group, awaits, group_after_ack, group_after_await};
ghost use Rattle.context_group.specs.Groups.{group_after_drop, group_after_grow, group_after_shrink};
ghost use Rattle.context_group.specs.Groups.{group_after_subscribe, group_at, is_awaited, is_kept};
ghost use Rattle.context_group.specs.Groups.{is_subscribed, new_group, no_group, AreSound, IsMade};
ghost use Rattle.context_group.specs.Groups.{SameAwaited, SameSubscribers};
ghost use Rattle.context_group.specs.declared.groups.GroupFault.TheVariants as faults;

use crate::group::Group;
use fission_ids::{ContextId, Duplicate, GroupId, OutOfMemory, ProcId, ProcSet};
use std::alloc::{AllocFailed, Global};
use std::marker::Model;
use thiserror::Error;

const MOST_GROUPS: usize = 64;

/// Why no group was begun.
#[derive(Clone, Copy, Debug, PartialEq, Eq, Error)]
pub enum GroupFault {
    /// 64 groups were made.
    #[error("64 groups were made, which is all that there can be")]
    TooMany,
    /// Memory wasn't there.
    #[error("out of memory")]
    OutOfMemory,
}

impl<T: Drop> From<AllocFailed<T>> for GroupFault {
    ghost from_gives = { λ _ e. e ≡ faults.OutOfMemory };

    fn from(_e: AllocFailed<T>) -> GroupFault {
        GroupFault::OutOfMemory
    }
}

/// The browsing context groups that were made, at most 64. Seen as the list of them, g1 first.
#[derive(Debug, Drop)]
pub struct Groups {
    groups: Vec<Group>,
}

impl Model for Groups {
    ghost use Rattle.std.specs.Prelude.{List};
    ghost use Rattle.context_group.specs.declared.group.Group.{Group};
    ghost use Rattle.context_group.specs.Groups.{AreSound};

    ghost Value = { List Group };

    ghost view = { λ g. g.groups.items };

    ghost invariant = { λ g. AreSound g.groups.items };
}

impl Groups {
    /// No group was made.
    pub fn new(alloc: Global) -> Groups
        ensures { result ≡ [] }
    {
        Groups {
            groups: Vec::new(alloc),
        }
    }

    /// How many groups were made, at most 64.
    pub fn len(&self) -> usize
        ensures count { result ≡ length self.now }
        ensures sound { AreSound self.now }
    {
        self.groups.len()
    }

    /// Makes a group, which is kept, and has no subscribers and no contexts. Its number is how many groups
    /// there are then. TooMany comes exactly where 64 were made. On Err the groups stay as they were.
    pub fn begin(&mut self) -> Result<GroupId, GroupFault>
        ensures ok { OnOk result (self.new ≡ self.old ++ new_group ∷ []) }
        ensures number { IfOk result (λ g. g.0 ≡ length self.new) }
        ensures err { OnErr result (self.new ≡ self.old) }
        ensures subscribers { SameSubscribers self.old self.new }
        ensures awaited { SameAwaited self.old self.new }
        ensures full { IsErrOf result faults.TooMany ↔ (length self.old ≡ 64) }
    {
        if self.groups.len() == MOST_GROUPS {
            return Err(GroupFault::TooMany);
        }
        let group = Group::new(*self.groups.allocator());
        self.groups.push(group)?;
        Ok(GroupId(self.groups.len() as u32))
    }

    /// Subscribes p to a group that was made. False exactly where p was subscribed.
    pub fn subscribe(&mut self, p: ProcId, g: GroupId) -> bool
        requires process { p.0 < 16 }
        requires made { IsMade g self.old }
        ensures answer { result ≡ not (has (group_at g self.old).subscribers p.0) }
        ensures groups { self.new ≡
            (if result then at_group (group_after_subscribe p.0) g self.old else self.old) }
        ensures subscribers { (h : GroupId) (q : ℕ) →
            is_subscribed q h self.new ≡ ((h.0 == g.0 && q == p.0) || is_subscribed q h self.old) }
        ensures awaited { SameAwaited self.old self.new }
    {
        self.groups[g.0 as usize - 1].subscribe(p)
    }

    /// The processes that are subscribed to a group, none where it wasn't made.
    pub fn subscribers(&self, g: GroupId) -> ProcSet
        ensures { result ≡ (group_at g self.now).subscribers }
    {
        match group_at(self.groups.as_slice(), g) {
            Some(group) => group.subscribers,
            None => ProcSet::EMPTY,
        }
    }

    /// Whether a group is kept, which is false where it wasn't made.
    pub fn is_kept(&self, g: GroupId) -> bool
        ensures { result ≡ is_kept g self.now }
    {
        match group_at(self.groups.as_slice(), g) {
            Some(group) => group.is_kept,
            None => false,
        }
    }

    /// How many live contexts a group has, at most 4,080, none where it wasn't made.
    pub fn live(&self, g: GroupId) -> u16
        ensures count { result ≡ (group_at g self.now).live }
        ensures most { result ≤ 4080 }
    {
        match group_at(self.groups.as_slice(), g) {
            Some(group) => group.live,
            None => 0,
        }
    }

    /// One live context more in a group that is kept and has fewer than 4,080.
    pub fn grow(&mut self, g: GroupId)
        requires kept { is_kept g self.old ≡ true }
        requires room { (group_at g self.old).live < 4080 }
        ensures groups { self.new ≡ at_group group_after_grow g self.old }
        ensures subscribers { SameSubscribers self.old self.new }
        ensures awaited { SameAwaited self.old self.new }
    {
        self.groups[g.0 as usize - 1].grow();
    }

    /// One live context fewer in a group that has one. The group is kept no longer where that was the last
    /// and no acknowledgement is awaited in it.
    pub fn shrink(&mut self, g: GroupId)
        requires { 1 ≤ (group_at g self.old).live }
        ensures groups { self.new ≡ at_group group_after_shrink g self.old }
        ensures subscribers { SameSubscribers self.old self.new }
        ensures awaited { SameAwaited self.old self.new }
    {
        self.groups[g.0 as usize - 1].shrink();
    }

    /// The processes of a set owe the acknowledgement of x, beside those that owe it already, in a group that
    /// is kept. Where memory is wanting the groups stay as they were.
    pub fn await_acks(&mut self, g: GroupId, who: ProcSet, x: ContextId) -> Result<(), OutOfMemory>
        requires { is_kept g self.old ≡ true }
        ensures ok { OnOk result (self.new ≡ at_group (group_after_await who x) g self.old) }
        ensures err { OnErr result (self.new ≡ self.old) }
        ensures subscribers { SameSubscribers self.old self.new }
        ensures awaited { OnOk result ((h : GroupId) (q : ℕ) (y : ContextId) → is_awaited q y h self.new
            ≡ ((h.0 == g.0 && (same_context x y && has who q)) || is_awaited q y h self.old)) }
    {
        self.groups[g.0 as usize - 1].await_acks(who, x)
    }

    /// Whether p owes the acknowledgement of x in some group.
    pub fn is_awaited(&self, p: ProcId, x: ContextId) -> bool
        ensures { result ≡ list_any (awaits p.0 x) self.now }
    {
        self.groups
            .iter()
            .any(|group| group.awaited.is_awaited(p, x))
    }

    /// p acknowledges x, in each group in which it owes that. Such a group is kept no longer where it has no
    /// live context and awaits nothing more. False exactly where p owed it in no group, and then nothing
    /// changes.
    pub fn ack(&mut self, p: ProcId, x: ContextId) -> bool
        ensures answer { result ≡ list_any (awaits p.0 x) self.old }
        ensures groups { self.new ≡ map (group_after_ack p.0 x) self.old }
        ensures unchanged { OnFalse result (self.new ≡ self.old) }
        ensures subscribers { SameSubscribers self.old self.new }
        ensures awaited { (g : GroupId) (q : ℕ) (y : ContextId) →
            is_awaited q y g self.new ≡ (not (q == p.0 && same_context x y) && is_awaited q y g self.old) }
    {
        ack_each(self.groups.as_mut_slice(), p, x)
    }

    /// p's subscriptions and the acknowledgements that it owes go. A group that had one of these is kept no
    /// longer where it has no live context and awaits nothing more.
    pub fn drop_process(&mut self, p: ProcId)
        ensures groups { self.new ≡ map (group_after_drop p.0) self.old }
        ensures subscribers { (g : GroupId) (q : ℕ) →
            is_subscribed q g self.new ≡ (not (q == p.0) && is_subscribed q g self.old) }
        ensures awaited { (g : GroupId) (q : ℕ) (y : ContextId) →
            is_awaited q y g self.new ≡ (not (q == p.0) && is_awaited q y g self.old) }
    {
        drop_from_each(self.groups.as_mut_slice(), p);
    }
}

impl Duplicate for Groups {
    fn copy(&self) -> Result<Groups, OutOfMemory> {
        Ok(Groups {
            groups: copied(*self.groups.allocator(), self.groups.as_slice())?,
        })
    }
}

// The group of this number, if it was made.
fn group_at(groups: &[Group], g: GroupId) -> Option<&Group>
    ensures { unwrap_or (option_copied result) no_group ≡ group_at g groups.now }
{
    groups.get(g.0.checked_sub(1)? as usize)
}

fn ack_each(groups: &mut [Group], p: ProcId, x: ContextId) -> bool
    ensures answer { result ≡ list_any (awaits p.0 x) groups.old }
    ensures groups { groups.new ≡ map (group_after_ack p.0 x) groups.old }
{
    let mut was_awaited = false;
    for group in groups.iter_mut() {
        was_awaited |= group.ack(p, x);
    }
    was_awaited
}

fn drop_from_each(groups: &mut [Group], p: ProcId)
    ensures { groups.new ≡ map (group_after_drop p.0) groups.old }
{
    for group in groups.iter_mut() {
        group.drop_process(p);
    }
}

fn copied(alloc: Global, groups: &[Group]) -> Result<Vec<Group>, OutOfMemory>
    ensures { IfOk result (λ v. v.items ≡ groups.now) }
{
    let mut copies = Vec::with_capacity(alloc, groups.len())?;
    for group in groups {
        copies.push(group.copy()?)?;
    }
    Ok(copies)
}
