use fission_ids::GroupId;

/// How a process holds a context.
#[derive(Clone, Copy, Debug, PartialEq, Eq)]
pub(crate) struct Hold {
    /// The group that the context is in.
    pub(crate) group: GroupId,
    /// Whether the process owns it.
    pub(crate) owned: bool,
}
