ghost use Rattle.std.specs.Prelude.{◌≡◌, Some, if◌then◌else◌, OnOk};
ghost use Rattle.fission_ids.specs.declared.context.ContextId.{ContextId};
ghost use Rattle.fission_ids.specs.Ids.{same_context};
ghost use Rattle.parent_core.specs.Parent.{origin_of};

use fission_ids::{ContextId, GroupId, OutOfMemory, ProcId};
use std::collections::HashMap;

/// What is fixed when a context is made.
#[derive(Clone, Copy, Debug, PartialEq, Eq)]
pub(crate) struct Origin {
    /// The group that it is in.
    pub(crate) group: GroupId,
    /// The context that it is a frame of.
    pub(crate) parent: Option<ContextId>,
    /// The process that owns it, until that is ended.
    pub(crate) owner: ProcId,
}

/// Notes what is fixed of a context that was made.
pub(crate) fn note_origin(
    known: &mut HashMap<ContextId, Origin>,
    x: ContextId,
    origin: Origin,
) -> Result<(), OutOfMemory>
    ensures { OnOk result ((y : ContextId) → origin_of y known.new.entries ≡
        (if same_context x y then Some origin else origin_of y known.old.entries)) }
{
    known.insert(x, origin)?;
    Ok(())
}
