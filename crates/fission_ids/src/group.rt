ghost use Rattle.std.specs.Prelude.{◌≡◌, ◌≢◌, IfOk, MatchOption};
ghost use Rattle.fission_ids.specs.Ids.{IsGroupId, group_of, group_text};
ghost use Rattle.fission_ids.specs.declared.group.GroupId.{GroupId};

use crate::memory::{Duplicate, OutOfMemory};
use crate::numbers::{after_letter, read_serial};
use crate::text::Text;
use std::alloc::Global;

/// The number of a browsing context group, from 1 on.
#[derive(Clone, Copy, Debug, PartialEq, Eq, PartialOrd, Ord)]
pub struct GroupId(pub u32);

impl Duplicate for GroupId {
    fn copy(&self) -> Result<GroupId, OutOfMemory> {
        Ok(*self)
    }
}

impl GroupId {
    /// The group in range with this text: `g` and its number. None exactly where no number in range gives it.
    pub fn parse(text: &str) -> Option<GroupId>
        ensures cases { MatchOption result ((i : GroupId) → IsGroupId i → text.now ≢ group_text i)
            (λ i. IsGroupId i × (text.now ≡ group_text i)) }
        ensures inverse { (i : GroupId) → IsGroupId i → text.now ≡ group_text i → result ≡ Some i }
        ensures value { result ≡ group_of text.now }
    {
        Some(GroupId(read_serial(after_letter('g', text)?)?))
    }

    /// The text of the group, which `parse` reads as the same group where its number is in range.
    pub fn print(&self, alloc: Global) -> Result<Text, OutOfMemory>
        ensures { IfOk result (λ t. t ≡ group_text self.now) }
    {
        Text::from_string(format!(in alloc; "g{}", self.0)?)
    }
}
