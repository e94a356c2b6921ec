use fission_ids::{Duplicate, OutOfMemory, Seq, Text};
use match_pattern::Pattern;

/// What a side of an actor does with a query.
#[derive(Clone, Copy, Debug, PartialEq, Eq)]
pub enum Mode {
    /// It resolves it at once, with the same text.
    Echo,
    /// It rejects it at once, with the same text.
    Reject,
    /// It holds it until it is answered.
    Hold,
}

/// A window actor, as it is registered. A list restricts nothing where it is empty.
#[derive(Debug, Drop)]
pub struct Entry {
    /// Its name.
    pub name: Text,
    /// Whether it is for frames too, and not for top-level contexts alone.
    pub all_frames: bool,
    /// The remote types that it is for: those whose part before the first `=` begins with one of these.
    pub remote_types: Seq<Text>,
    /// The message manager groups that it is for.
    pub groups: Seq<Text>,
    /// The patterns of which one has to match a window's address.
    pub matches: Seq<Pattern>,
    /// What its side in the parent does with a query.
    pub on_parent: Mode,
    /// What its side in a process does with a query.
    pub on_child: Mode,
}

impl Duplicate for Entry {
    fn copy(&self) -> Result<Entry, OutOfMemory> {
        Ok(Entry {
            name: self.name.copy()?,
            all_frames: self.all_frames,
            remote_types: self.remote_types.copy()?,
            groups: self.groups.copy()?,
            matches: self.matches.copy()?,
            on_parent: self.on_parent,
            on_child: self.on_child,
        })
    }
}
