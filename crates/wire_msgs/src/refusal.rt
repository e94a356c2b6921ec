use field_table::FieldSet;
use fission_ids::{Duplicate, OutOfMemory, Why};

/// Of what there are as many as may be made.
#[derive(Clone, Copy, Debug, PartialEq, Eq)]
pub enum Counted {
    /// The groups of a run.
    Groups,
    /// The contexts of one creator.
    Contexts,
    /// The loads that the parent sends.
    Loads,
}

impl Duplicate for Counted {
    fn copy(&self) -> Result<Counted, OutOfMemory> {
        Ok(*self)
    }
}

/// Why a step is refused. A refused step changes nothing.
#[derive(Clone, Copy, Debug, PartialEq, Eq)]
pub enum Refusal {
    /// The process has ended, or no live process has the required type.
    NoProcess,
    /// The acting process has stopped.
    Stopped,
    /// The process doesn't hold the context, or it isn't live in the parent.
    NoContext,
    /// The process doesn't own the context, or the parent of the frame, or the frame to drop is top-level.
    NotMine,
    /// A fixed fact denies these fields.
    Denied(FieldSet),
    /// The window isn't open on the acting side.
    NoWindow,
    /// No actor of the name is admitted at the window.
    NoActor(Why),
    /// The query isn't held here.
    NoQuery,
    /// The link is empty.
    Empty,
    /// The group isn't kept.
    NoGroup,
    /// As many were made as may be, which is the number.
    TooMany(Counted, u32),
    /// The context isn't top-level.
    NotTop,
}

impl Duplicate for Refusal {
    fn copy(&self) -> Result<Refusal, OutOfMemory> {
        Ok(*self)
    }
}
