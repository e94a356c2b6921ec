ghost use Rattle.std.specs.Prelude.{◌≡◌, ◌<◌, ◌≤◌, ◌||◌, if◌then◌else◌, not, OnErr, OnOk};
ghost use Rattle.fission_ids.specs.ProcSet.{has};
ghost use Rattle.context_group.specs.Groups.{awaits, awaits_any, group_after_ack, group_after_await};
ghost use Rattle.context_group.specs.Groups.{group_after_drop, group_after_grow, group_after_shrink};
ghost use Rattle.context_group.specs.Groups.{group_after_subscribe, is_needed, new_group};
ghost use Rattle.context_group.specs.Groups.{group_kept_if_needed};

use crate::acks::Acks;
use crate::sets::{is_in, without};
use fission_ids::{ContextId, Duplicate, OutOfMemory, ProcId, ProcSet};
use std::alloc::Global;

/// A browsing context group.
#[derive(Debug, Drop)]
pub struct Group {
    /// The processes that are subscribed to it.
    pub subscribers: ProcSet,
    /// The acknowledgements that are awaited in it.
    pub awaited: Acks,
    /// How many live contexts it has, at most 4,080.
    pub live: u16,
    /// Whether it is kept. Once it isn't, it has no live context and awaits nothing.
    pub is_kept: bool,
}

impl Group {
    /// A group as it begins: kept, and with nothing in it.
    pub fn new(alloc: Global) -> Group
        ensures { result ≡ new_group }
    {
        Group {
            subscribers: ProcSet::EMPTY,
            awaited: Acks::new(alloc),
            live: 0,
            is_kept: true,
        }
    }

    /// Subscribes p. False exactly where p was subscribed.
    pub fn subscribe(&mut self, p: ProcId) -> bool
        requires { p.0 < 16 }
        ensures answer { result ≡ not (has self.old.subscribers p.0) }
        ensures group { self.new ≡ (if result then group_after_subscribe p.0 self.old else self.old) }
    {
        let is_new = !self.subscribers.has(p);
        if is_new {
            self.subscribers = self.subscribers.with(p);
        }
        is_new
    }

    /// One live context more.
    pub fn grow(&mut self)
        requires { self.old.live < 4080 }
        ensures { self.new ≡ group_after_grow self.old }
    {
        self.live += 1;
    }

    /// One live context fewer.
    pub fn shrink(&mut self)
        requires { 1 ≤ self.old.live }
        ensures { self.new ≡ group_after_shrink self.old }
    {
        self.live -= 1;
        self.settle();
    }

    /// The processes of a set owe the acknowledgement of x as well. Where memory is wanting the group stays
    /// as it was.
    pub fn await_acks(&mut self, who: ProcSet, x: ContextId) -> Result<(), OutOfMemory>
        ensures ok { OnOk result (self.new ≡ group_after_await who x self.old) }
        ensures err { OnErr result (self.new ≡ self.old) }
    {
        self.awaited.add(who, x)
    }

    /// Whether p owed the acknowledgement of x, which it then owes no longer.
    pub fn ack(&mut self, p: ProcId, x: ContextId) -> bool
        ensures answer { result ≡ awaits p.0 x self.old }
        ensures group { self.new ≡ group_after_ack p.0 x self.old }
    {
        let is_awaited = self.awaited.is_awaited(p, x);
        if is_awaited {
            self.awaited.ack(p, x);
            self.settle();
        }
        is_awaited
    }

    /// p is not subscribed any longer, and owes nothing.
    pub fn drop_process(&mut self, p: ProcId)
        ensures { self.new ≡ group_after_drop p.0 self.old }
    {
        if self.is_touched_by(p) {
            self.subscribers = without(self.subscribers, p);
            self.awaited.release(p);
            self.settle();
        }
    }

    // Whether p is subscribed or owes an acknowledgement.
    fn is_touched_by(&self, p: ProcId) -> bool
        ensures { result ≡ (has self.now.subscribers p.0 || awaits_any p.0 self.now) }
    {
        is_in(self.subscribers, p) || self.awaited.is_any_awaited(p)
    }

    // A group is kept no longer where it has no live context and awaits nothing.
    fn settle(&mut self)
        ensures { self.new ≡ group_kept_if_needed self.old }
    {
        self.is_kept = self.is_kept && self.is_needed();
    }

    fn is_needed(&self) -> bool
        ensures { result ≡ is_needed self.now }
    {
        self.live > 0 || self.awaited.len() > 0
    }
}

impl Duplicate for Group {
    fn copy(&self) -> Result<Group, OutOfMemory> {
        Ok(Group {
            subscribers: self.subscribers,
            awaited: self.awaited.copy()?,
            live: self.live,
            is_kept: self.is_kept,
        })
    }
}
