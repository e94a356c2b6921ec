ghost use Rattle.std.specs.Prelude.{◌≡◌, [], if◌then◌else◌, filter, length, map, true, IfOk, OnErr};
ghost use Rattle.std.specs.Prelude.{OnOk};
ghost use Rattle.std.specs.List.{list_any, position_or_len};
ghost use Rattle.context_group.specs.Acks.{acks_with, acks_without, entry_without, is_due, is_of};
ghost use Rattle.context_group.specs.Acks.{is_owed, is_owed_by};

use crate::sets::{is_any_in, is_in, union, without};
use fission_ids::{ContextId, Duplicate, OutOfMemory, ProcId, ProcSet};
use std::alloc::Global;
use std::marker::Model;

/// The processes that still owe the acknowledgement of a context.
#[derive(Clone, Copy, Debug, PartialEq, Eq)]
pub struct Awaited {
    /// The context.
    pub context: ContextId,
    /// The processes, one or more.
    pub from: ProcSet,
}

/// The acknowledgements that are awaited in a group, in the order awaited. Seen as the list of them.
#[derive(Debug, Drop)]
pub struct Acks {
    entries: Vec<Awaited>,
}

impl Model for Acks {
    ghost use Rattle.std.specs.Prelude.{List};
    ghost use Rattle.context_group.specs.declared.acks.Awaited.{Awaited};

    ghost Value = { List Awaited };

    ghost view = { λ a. a.entries.items };
}

impl Acks {
    /// None is awaited.
    pub fn new(alloc: Global) -> Acks
        ensures { result ≡ [] }
    {
        Acks {
            entries: Vec::new(alloc),
        }
    }

    /// Of how many contexts an acknowledgement is awaited.
    pub fn len(&self) -> usize
        ensures { result ≡ length self.now }
    {
        self.entries.len()
    }

    /// Whether p owes the acknowledgement of x.
    pub fn is_awaited(&self, p: ProcId, x: ContextId) -> bool
        ensures { result ≡ list_any (is_due p.0 x) self.now }
    {
        self.entries.iter().any(|entry| entry.is_due(p, x))
    }

    /// Whether p owes any acknowledgement.
    pub fn is_any_awaited(&self, p: ProcId) -> bool
        ensures { result ≡ list_any (is_owed_by p.0) self.now }
    {
        self.entries.iter().any(|entry| is_in(entry.from, p))
    }

    /// The processes of a set owe the acknowledgement of x as well. An empty set changes nothing. Where
    /// memory is wanting the list stays as it was.
    pub fn add(&mut self, who: ProcSet, x: ContextId) -> Result<(), OutOfMemory>
        ensures ok { OnOk result (self.new ≡ acks_with who x self.old) }
        ensures err { OnErr result (self.new ≡ self.old) }
    {
        let place = place_of(self.entries.as_slice(), x);
        if place < self.entries.len() {
            let entry = &mut self.entries[place];
            entry.from = union(entry.from, who);
        } else if is_any_in(who) {
            self.entries.push(Awaited {
                context: x,
                from: who,
            })?;
        }
        Ok(())
    }

    /// p owes the acknowledgement of x no longer.
    pub fn ack(&mut self, p: ProcId, x: ContextId)
        ensures { self.new ≡ acks_without p.0 (is_of x) self.old }
    {
        strike_of(self.entries.as_mut_slice(), p, x);
        drop_unowed(&mut self.entries);
    }

    /// p owes no acknowledgement any longer.
    pub fn release(&mut self, p: ProcId)
        ensures { self.new ≡ acks_without p.0 (λ _. true) self.old }
    {
        strike(self.entries.as_mut_slice(), p);
        drop_unowed(&mut self.entries);
    }
}

impl Awaited {
    // Whether p owes the acknowledgement of x by this entry.
    fn is_due(&self, p: ProcId, x: ContextId) -> bool
        ensures { result ≡ is_due p.0 x self.now }
    {
        self.context == x && is_in(self.from, p)
    }

    // p owes the entry no longer, if it is of x.
    fn ack(&mut self, p: ProcId, x: ContextId)
        ensures { self.new ≡ (if is_of x self.old then entry_without p.0 self.old else self.old) }
    {
        if self.context == x {
            self.release(p);
        }
    }

    // p owes the entry no longer.
    fn release(&mut self, p: ProcId)
        ensures { self.new ≡ entry_without p.0 self.old }
    {
        self.from = without(self.from, p);
    }
}

impl Duplicate for Acks {
    fn copy(&self) -> Result<Acks, OutOfMemory> {
        let mut entries = Vec::with_capacity(*self.entries.allocator(), self.entries.len())?;
        for entry in &self.entries {
            entries.push(*entry)?;
        }
        Ok(Acks { entries })
    }
}

// The place of the entry of x, or the length where there is none.
fn place_of(entries: &[Awaited], x: ContextId) -> usize
    ensures { result ≡ position_or_len (is_of x) entries.now }
{
    entries
        .iter()
        .take_while(|entry| entry.context != x)
        .count()
}

// No entry of x has p any longer.
fn strike_of(entries: &mut [Awaited], p: ProcId, x: ContextId)
    ensures { entries.new ≡ map (λ a. if is_of x a then entry_without p.0 a else a) entries.old }
{
    for entry in entries.iter_mut() {
        entry.ack(p, x);
    }
}

// No entry has p any longer.
fn strike(entries: &mut [Awaited], p: ProcId)
    ensures { entries.new ≡ map (entry_without p.0) entries.old }
{
    for entry in entries.iter_mut() {
        entry.release(p);
    }
}

// The entries that some process owes.
fn drop_unowed(entries: &mut Vec<Awaited>)
    ensures { entries.new.items ≡ filter is_owed entries.old.items }
{
    entries.retain(|entry| is_any_in(entry.from));
}
