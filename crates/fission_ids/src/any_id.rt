use crate::context::ContextId;
use crate::memory::{Duplicate, OutOfMemory};
use crate::query::QueryId;
use crate::window::WindowId;

/// An id of any kind.
#[derive(Clone, Copy, Debug, PartialEq, Eq)]
pub enum AnyId {
    Context(ContextId),
    Window(WindowId),
    Query(QueryId),
}

impl Duplicate for AnyId {
    fn copy(&self) -> Result<AnyId, OutOfMemory> {
        Ok(*self)
    }
}
