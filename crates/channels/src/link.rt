ghost use Rattle.std.specs.Prelude.{◌≡◌, ◌==◌, [], ◌∷◌, ◌++◌, length, take, OnErr, OnOk, MatchOption};

use fission_ids::OutOfMemory;
use std::alloc::Global;
use std::collections::VecDeque;
use std::marker::Model;

/// What was sent on a link and not taken yet, seen as a list with the oldest first.
#[derive(Debug, Drop)]
pub struct Link<T> {
    items: VecDeque<T>,
}

impl<T> Model for Link<T> {
    ghost use Rattle.std.specs.Prelude.{List};
    ghost use Rattle.std.specs.Coded.{coded_list};

    ghost Value = { List T };

    ghost coded = { coded_list T.code };

    ghost view = { λ l. l.items.items };
}

impl<T> Link<T> {
    /// A link on which nothing waits.
    pub fn new(alloc: Global) -> Link<T>
        ensures { result ≡ [] }
    {
        Link {
            items: VecDeque::new(alloc),
        }
    }

    /// How many items wait.
    pub fn len(&self) -> usize
        ensures { result ≡ length self.now }
    {
        self.items.len()
    }

    /// Whether nothing waits.
    pub fn is_empty(&self) -> bool
        ensures { result ≡ (length self.now == 0) }
    {
        self.items.is_empty()
    }

    /// Takes the item that waited longest, or None where nothing waits.
    pub fn take(&mut self) -> Option<T>
        ensures { MatchOption result ((self.old ≡ []) × (self.new ≡ [])) (λ x. self.old ≡ x ∷ self.new) }
    {
        self.items.pop_front()
    }
}

impl<T: Drop> Link<T> {
    /// Sends an item behind those that wait. Where memory is wanting the link stays as it was.
    pub fn send(&mut self, item: T) -> Result<(), OutOfMemory>
        ensures ok { OnOk result (self.new ≡ self.old ++ item ∷ []) }
        ensures err { OnErr result (self.new ≡ self.old) }
    {
        self.items.push_back(item)?;
        Ok(())
    }

    /// Leaves the first `keep` items and drops the others, the last ones sent. Where no more wait, nothing
    /// changes. The time is linear in what is dropped.
    pub fn cut(&mut self, keep: usize)
        ensures { self.new ≡ take keep self.old }
    {
        self.items.truncate(keep);
    }
}
