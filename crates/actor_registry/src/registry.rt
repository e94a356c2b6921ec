ghost use Rattle.std.specs.Prelude.{◌≡◌, ◌++◌, ◌∷◌, ◌<◌, [], length, slice_get, None, IfOk, IsOkUnless};
ghost use Rattle.std.specs.Prelude.{MatchOption, OnErr, OnOk, Some, List, ℕ, bytes_eq, if◌then◌else◌};
ghost use Rattle.std.specs.Option.{option_copied};
ghost use Rattle.actor_registry.specs.Registry.{admission, entry_of, refusal, AreSound};
ghost use Rattle.actor_registry.specs.declared.registry.RegisterFault.TheVariants as faults;

use crate::admission::Facts;
use crate::entry::Entry;
use fission_ids::{Duplicate, OutOfMemory, Why};
use indexmap::IndexMap;
use std::alloc::Global;
use std::marker::Model;
use thiserror::Error;

const MOST_ENTRIES: usize = 64;

/// Why an actor isn't registered. The first of these that fits is told.
#[derive(Clone, Copy, Debug, PartialEq, Eq, Error)]
pub enum RegisterFault {
    /// An actor of the name is registered.
    #[error("an actor of the name is registered")]
    Taken,
    /// 64 actors are registered.
    #[error("64 actors are registered, which is all that there can be")]
    TooMany,
    /// Memory wasn't there.
    #[error("out of memory")]
    OutOfMemory,
}

impl From<OutOfMemory> for RegisterFault {
    ghost from_gives = { λ _ e. e ≡ faults.OutOfMemory };

    fn from(_e: OutOfMemory) -> RegisterFault {
        RegisterFault::OutOfMemory
    }
}

/// The window actors that are registered, at most 64, each name once. Seen as the list of them in order of
/// registration.
#[derive(Debug, Drop)]
pub struct Registry {
    entries: IndexMap<String, Entry>,
}

impl Model for Registry {
    ghost use Rattle.std.specs.Prelude.{List};
    ghost use Rattle.actor_registry.specs.declared.entry.Entry.{Entry};

    ghost Value = { List Entry };

    ghost use Rattle.actor_registry.specs.Registry.{entries_in, KeepsEntries};

    ghost view = { λ r. entries_in r.entries.entries };

    ghost invariant = { λ r. KeepsEntries r.entries.entries };
}

impl Registry {
    /// No actor is registered.
    pub fn new(alloc: Global) -> Registry
        ensures { result ≡ [] }
    {
        Registry {
            entries: IndexMap::new(alloc),
        }
    }

    /// What was registered under a name. None exactly where nothing was.
    pub fn entry(&self, name: &str) -> Option<&Entry>
        ensures { option_copied result ≡ entry_of name.now self.now }
    {
        self.entries.get(name)
    }

    /// Registers an actor behind the others. Taken comes exactly where its name is registered, and TooMany
    /// exactly where it isn't and 64 actors are. On Err the registry stays as it was.
    pub fn register(&mut self, e: Entry) -> Result<(), RegisterFault>
        ensures refused { MatchOption (refusal e.name self.old) (IsOkUnless result RegisterFault.OutOfMemory)
            (λ fault. result ≡ Err fault) }
        ensures ok { OnOk result (self.new ≡ self.old ++ e ∷ []) }
        ensures lookups { OnOk result ((name : List ℕ) → entry_of name self.new ≡
            (if bytes_eq name e.name then Some e else entry_of name self.old)) }
        ensures err { OnErr result (self.new ≡ self.old) }
    {
        if self.entry(e.name.as_str()).is_some() {
            return Err(RegisterFault::Taken);
        }
        if self.len() == MOST_ENTRIES {
            return Err(RegisterFault::TooMany);
        }
        self.add(e)?;
        Ok(())
    }

    // Puts an entry behind the others.
    fn add(&mut self, entry: Entry) -> Result<(), OutOfMemory>
        requires apart { entry_of entry.name self.old ≡ None }
        requires room { length self.old < 64 }
        ensures ok { OnOk result (self.new ≡ self.old ++ entry ∷ []) }
        ensures lookups { OnOk result ((name : List ℕ) → entry_of name self.new ≡
            (if bytes_eq name entry.name then Some entry else entry_of name self.old)) }
        ensures err { OnErr result (self.new ≡ self.old) }
    {
        let name = String::from_str(*self.entries.allocator(), entry.name.as_str())?;
        self.entries.insert(name, entry)?;
        Ok(())
    }

    /// Whether an actor is admitted at a window, and else the first check that fails.
    pub fn admits(&self, name: &str, f: &Facts<'_>) -> Result<(), Why>
        ensures { result ≡ admission name.now f.now self.now }
    {
        match self.entry(name) {
            Some(entry) => entry.admits(f),
            None => Err(Why::Unregistered),
        }
    }

    /// How many actors are registered, at most 64.
    pub fn len(&self) -> usize
        ensures count { result ≡ length self.now }
        ensures sound { AreSound self.now }
    {
        self.entries.len()
    }

    /// What was registered n-th, from 0. None exactly where n isn't below `len`.
    pub fn at(&self, n: usize) -> Option<&Entry>
        ensures { option_copied result ≡ slice_get self.now n }
    {
        let (_, entry) = self.entries.get_index(n)?;
        Some(entry)
    }
}

impl Duplicate for Registry {
    fn copy(&self) -> Result<Registry, OutOfMemory> {
        registered(*self.entries.allocator(), self.entries.values().as_slice())
    }
}

// A registry of copies of these entries, in their order.
fn registered(alloc: Global, entries: &[Entry]) -> Result<Registry, OutOfMemory>
    requires { AreSound entries.now }
    ensures { IfOk result (λ r. r ≡ entries.now) }
{
    let mut registry = Registry::new(alloc);
    for entry in entries {
        registry.add(entry.copy()?)?;
    }
    Ok(registry)
}
