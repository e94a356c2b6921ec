ghost use Rattle.std.specs.Prelude.{◌≡◌, ◌≢◌, IfOk, MatchOption};
ghost use Rattle.fission_ids.specs.Ids.{IsContextId, context_number, context_of, context_text};
ghost use Rattle.fission_ids.specs.declared.context.ContextId.{ContextId};

use crate::memory::{Duplicate, OutOfMemory};
use crate::numbers::{join_numbers, print_numbers, read_numbers, split_number};
use crate::text::Text;
use std::alloc::Global;

/// A browsing context. The creator is 0 for the parent and p + 1 for process p, so 0 to 16.
/// The serial counts from 1.
#[derive(Clone, Copy, Debug, PartialEq, Eq, PartialOrd, Ord, Hash)]
pub struct ContextId {
    pub creator: u8,
    pub serial: u32,
}

impl Duplicate for ContextId {
    fn copy(&self) -> Result<ContextId, OutOfMemory> {
        Ok(*self)
    }
}

impl ContextId {
    /// The id in range with this text: `c`, the creator, `.` and the serial. None
    /// exactly where no id in range has it.
    pub fn parse(text: &str) -> Option<ContextId>
        ensures cases { MatchOption result ((i : ContextId) → IsContextId i → text.now ≢ context_text i)
            (λ i. IsContextId i × (text.now ≡ context_text i)) }
        ensures inverse { (i : ContextId) → IsContextId i → text.now ≡ context_text i → result ≡ Some i }
        ensures value { result ≡ context_of text.now }
    {
        let (creator, serial) = read_numbers('c', text)?;
        Some(ContextId { creator, serial })
    }

    /// The text of the id, which `parse` reads as the same id where its numbers are in range.
    pub fn print(&self, alloc: Global) -> Result<Text, OutOfMemory>
        ensures { IfOk result (λ t. t ≡ context_text self.now) }
    {
        print_numbers(alloc, 'c', self.creator, self.serial)
    }

    /// The id as one number: the creator times 2 to the 32, plus the serial.
    pub fn number(self) -> u64
        ensures { result ≡ context_number self }
    {
        join_numbers(self.creator, self.serial)
    }

    /// The id in range with this number. None exactly where no id in range has it.
    pub fn of_number(n: u64) -> Option<ContextId>
        ensures cases { MatchOption result ((i : ContextId) → IsContextId i → context_number i ≢ n)
            (λ i. IsContextId i × (context_number i ≡ n)) }
        ensures inverse { (i : ContextId) → IsContextId i → context_number i ≡ n → result ≡ Some i }
    {
        let (creator, serial) = split_number(n)?;
        Some(ContextId { creator, serial })
    }
}
