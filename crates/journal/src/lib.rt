//! The journal of a run: each step of an actor, and what it came to. The model of everything above is told by
//! looking back through it. Nothing here judges a step.
#![tactic(auto)]

mod entry;
mod journal;

pub use entry::{Entry, Step};
pub use journal::Journal;

fn crosses<T: Send + Sync>() {}

// The types of this crate may go to another thread, and be shared.
fn types_cross() {
    crosses::<Step>();
    crosses::<Entry>();
    crosses::<Journal>();
}
