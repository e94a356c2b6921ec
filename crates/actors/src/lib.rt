//! One side of the window actors: what it asked and how that stands, what it does with a query that it
//! receives, which queries it holds until they are answered, and what it was told. A window that closes
//! aborts what was asked on it and takes away what is held on it. Nothing here knows which windows are open,
//! or how a message travels.
#![tactic(auto)]

mod laws;
mod reaction;
mod side;

pub use laws::{
    answered_queries_are_held_no_longer, closed_windows_hold_nothing, queries_are_held_once,
};
pub use reaction::Reaction;
pub use side::Actors;

fn crosses<T: Send + Sync>() {}

// The types of this crate may go to another thread, and be shared.
fn types_cross() {
    crosses::<Reaction>();
    crosses::<Actors>();
}
