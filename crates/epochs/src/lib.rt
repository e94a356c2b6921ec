//! Counts of commits: a process's clock, what it last wrote to each field of a context, and what the parent
//! has heard. By them a process tells which of the values that it gets are older than its own writes. Nothing
//! here knows a value.
#![tactic(auto)]

mod clock;
mod field_epochs;
mod heard;

pub use clock::{Clock, Worn};
pub use field_epochs::FieldEpochs;
pub use heard::{BadEpoch, Heard};

fn crosses<T: Send + Sync>() {}

// The types of this crate may go to another thread, and be shared.
fn types_cross() {
    crosses::<Clock>();
    crosses::<Worn>();
    crosses::<FieldEpochs>();
    crosses::<Heard>();
    crosses::<BadEpoch>();
}
