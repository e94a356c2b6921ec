use fission_ids::{Duplicate, OutOfMemory, Text};

/// What became of a query that was received.
#[derive(Debug, Drop)]
pub enum Reaction {
    /// It is resolved with this text.
    Reply(Text),
    /// It is rejected with this text.
    Reject(Text),
    /// It is held until it is answered.
    Hold,
    /// Nothing: its window isn't open here, or it is held already.
    Ignore,
}

impl Duplicate for Reaction {
    fn copy(&self) -> Result<Reaction, OutOfMemory> {
        Ok(match self {
            Reaction::Reply(text) => Reaction::Reply(text.copy()?),
            Reaction::Reject(text) => Reaction::Reject(text.copy()?),
            Reaction::Hold => Reaction::Hold,
            Reaction::Ignore => Reaction::Ignore,
        })
    }
}
