use crate::memory::{Duplicate, OutOfMemory};

/// Why no actor of a name is admitted at a window. Where several hold, the first in this order is told.
#[derive(Clone, Copy, Debug, PartialEq, Eq)]
pub enum Why {
    /// No actor of the name is registered.
    Unregistered,
    /// The context isn't top-level, and the actor isn't for all frames.
    Subframe,
    /// The actor names remote types, and none of them fits the owner's.
    RemoteType,
    /// The actor names message manager groups, and not the context's.
    Group,
    /// The actor has patterns, and none of them matches the window's address.
    Address,
}

impl Duplicate for Why {
    fn copy(&self) -> Result<Why, OutOfMemory> {
        Ok(*self)
    }
}
