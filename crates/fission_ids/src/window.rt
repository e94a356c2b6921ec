ghost use Rattle.std.specs.Prelude.{◌≡◌, ◌≢◌, IfOk, MatchOption};
ghost use Rattle.fission_ids.specs.Ids.{IsWindowId, window_number, window_of, window_text};
ghost use Rattle.fission_ids.specs.declared.window.WindowId.{WindowId};

use crate::memory::{Duplicate, OutOfMemory};
use crate::numbers::{join_numbers, print_numbers, read_numbers, split_number};
use crate::text::Text;
use std::alloc::Global;

/// A window global. The creator is 0 for the parent and p + 1 for process p, so 0 to 16.
/// The serial counts from 1.
#[derive(Clone, Copy, Debug, PartialEq, Eq, PartialOrd, Ord)]
pub struct WindowId {
    pub creator: u8,
    pub serial: u32,
}

impl Duplicate for WindowId {
    fn copy(&self) -> Result<WindowId, OutOfMemory> {
        Ok(*self)
    }
}

impl WindowId {
    /// The id in range with this text: `w`, the creator, `.` and the serial. None
    /// exactly where no id in range has it.
    pub fn parse(text: &str) -> Option<WindowId>
        ensures cases { MatchOption result ((i : WindowId) → IsWindowId i → text.now ≢ window_text i)
            (λ i. IsWindowId i × (text.now ≡ window_text i)) }
        ensures inverse { (i : WindowId) → IsWindowId i → text.now ≡ window_text i → result ≡ Some i }
        ensures value { result ≡ window_of text.now }
    {
        let (creator, serial) = read_numbers('w', text)?;
        Some(WindowId { creator, serial })
    }

    /// The text of the id, which `parse` reads as the same id where its numbers are in range.
    pub fn print(&self, alloc: Global) -> Result<Text, OutOfMemory>
        ensures { IfOk result (λ t. t ≡ window_text self.now) }
    {
        print_numbers(alloc, 'w', self.creator, self.serial)
    }

    /// The id as one number: the creator times 2 to the 32, plus the serial.
    pub fn number(self) -> u64
        ensures { result ≡ window_number self }
    {
        join_numbers(self.creator, self.serial)
    }

    /// The id in range with this number. None exactly where no id in range has it.
    pub fn of_number(n: u64) -> Option<WindowId>
        ensures cases { MatchOption result ((i : WindowId) → IsWindowId i → window_number i ≢ n)
            (λ i. IsWindowId i × (window_number i ≡ n)) }
        ensures inverse { (i : WindowId) → IsWindowId i → window_number i ≡ n → result ≡ Some i }
    {
        let (creator, serial) = split_number(n)?;
        Some(WindowId { creator, serial })
    }
}
