use crate::memory::{Duplicate, OutOfMemory};
use crate::text::Text;

/// What a query was settled as.
#[derive(Debug, Drop)]
pub enum Outcome {
    /// The receiver resolved it with this text.
    Resolved(Text),
    /// The receiver rejected it with this text.
    Rejected(Text),
    /// The asking side's window closed first, so no answer counts.
    Aborted,
}

impl Duplicate for Outcome {
    fn copy(&self) -> Result<Outcome, OutOfMemory> {
        match self {
            Outcome::Resolved(text) => Ok(Outcome::Resolved(text.copy()?)),
            Outcome::Rejected(text) => Ok(Outcome::Rejected(text.copy()?)),
            Outcome::Aborted => Ok(Outcome::Aborted),
        }
    }
}
