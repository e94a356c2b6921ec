ghost use Rattle.std.specs.Prelude.{◌≡◌, ◌≢◌, IfOk, MatchOption};
ghost use Rattle.fission_ids.specs.Ids.{IsQueryId, query_of, query_text};
ghost use Rattle.fission_ids.specs.declared.query.QueryId.{QueryId};

use crate::memory::{Duplicate, OutOfMemory};
use crate::numbers::{print_numbers, read_numbers};
use crate::text::Text;
use std::alloc::Global;

/// A query. The creator is 0 for the parent and p + 1 for process p, so 0 to 16.
/// The serial counts from 1.
#[derive(Clone, Copy, Debug, PartialEq, Eq, PartialOrd, Ord)]
pub struct QueryId {
    pub creator: u8,
    pub serial: u32,
}

impl Duplicate for QueryId {
    fn copy(&self) -> Result<QueryId, OutOfMemory> {
        Ok(*self)
    }
}

impl QueryId {
    /// The id in range with this text: `q`, the creator, `.` and the serial. None
    /// exactly where no id in range has it.
    pub fn parse(text: &str) -> Option<QueryId>
        ensures cases { MatchOption result ((i : QueryId) → IsQueryId i → text.now ≢ query_text i)
            (λ i. IsQueryId i × (text.now ≡ query_text i)) }
        ensures inverse { (i : QueryId) → IsQueryId i → text.now ≡ query_text i → result ≡ Some i }
        ensures value { result ≡ query_of text.now }
    {
        let (creator, serial) = read_numbers('q', text)?;
        Some(QueryId { creator, serial })
    }

    /// The text of the id, which `parse` reads as the same id where its numbers are in range.
    pub fn print(&self, alloc: Global) -> Result<Text, OutOfMemory>
        ensures { IfOk result (λ t. t ≡ query_text self.now) }
    {
        print_numbers(alloc, 'q', self.creator, self.serial)
    }
}
