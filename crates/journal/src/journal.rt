ghost use Rattle.std.specs.Prelude.{◌≡◌, [], ◌∷◌, length, reverse, slice_get, OnErr, OnOk};
ghost use Rattle.std.specs.Option.{option_copied};

use crate::entry::Entry;
use fission_ids::{Duplicate, OutOfMemory, Seq};
use std::alloc::Global;
use std::marker::Model;

/// The entries of a run, seen as a list with the newest first: so each question to a journal looks back from
/// its end.
#[derive(Debug, Drop)]
pub struct Journal {
    entries: Seq<Entry>,
}

impl Model for Journal {
    ghost use Rattle.std.specs.Prelude.{List, reverse};
    ghost use Rattle.journal.specs.declared.entry.Entry.{Entry};

    ghost Value = { List Entry };

    ghost view = { λ j. reverse j.entries };
}

impl Journal {
    /// The journal before any step.
    pub fn new(alloc: Global) -> Journal
        ensures { result ≡ [] }
    {
        Journal {
            entries: Seq::new(alloc),
        }
    }

    /// Adds an entry. Where memory is wanting the journal stays as it was.
    pub fn push(&mut self, entry: Entry) -> Result<(), OutOfMemory>
        ensures ok { OnOk result (self.new ≡ entry ∷ self.old) }
        ensures err { OnErr result (self.new ≡ self.old) }
    {
        self.entries.push(entry)
    }

    /// The newest entry, or None before any step.
    pub fn newest(&self) -> Option<&Entry>
        ensures { option_copied result ≡ slice_get self.now 0 }
    {
        self.entries.as_slice().last()
    }

    /// The entries, the oldest first.
    pub fn entries(&self) -> &[Entry]
        ensures order { reverse result.now ≡ self.now }
        ensures len { length result.now ≡ length self.now }
    {
        self.entries.as_slice()
    }
}

impl Duplicate for Journal {
    fn copy(&self) -> Result<Journal, OutOfMemory> {
        Ok(Journal {
            entries: self.entries.copy()?,
        })
    }
}
