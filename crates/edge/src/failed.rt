use thiserror::Error;

/// The answer of a source or a sink to which a fault came.
#[derive(Clone, Copy, Debug, PartialEq, Eq, Error)]
#[error("a read or a write failed")]
pub struct Failed;
