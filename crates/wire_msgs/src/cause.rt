use field_table::FieldSet;
use fission_ids::{AnyId, ContextId, Duplicate, Epoch, OutOfMemory};

/// Why the parent ended a process.
#[derive(Clone, Copy, Debug, PartialEq, Eq)]
pub enum EndCause {
    /// It wrote fields that it may not write.
    Denied {
        /// The context whose fields they are.
        context: ContextId,
        /// All the fields that it may not write.
        fields: FieldSet,
    },
    /// A bundle had another epoch than was due.
    BadEpoch {
        /// The epoch that the bundle had.
        said: Epoch,
        /// The epoch that was due.
        due: Epoch,
    },
    /// A bundle said that more bundles had been taken than were sent.
    BadStamp {
        /// How many bundles the process said that it had taken.
        said: u64,
        /// How many had been sent to it, which is less.
        sent: u64,
    },
    /// A part named what it may not name.
    BadId {
        /// The id that the part named.
        id: AnyId,
    },
    /// A part stood where it may not stand, or named no registered actor.
    BadPart {
        /// The part's number in its bundle, from 1 on.
        number: u64,
    },
    /// It failed.
    Failed,
    /// The parent killed it.
    Killed,
}

impl Duplicate for EndCause {
    fn copy(&self) -> Result<EndCause, OutOfMemory> {
        Ok(*self)
    }
}
