//! A scenario: how a run begins, and what is done and shown in it, read from JSON.
//! What a byte string reads as is a function of the bytes, and a fault tells the first place where it's
//! wrong.
//! Nothing here plays a scenario.
#![tactic(auto)]

mod fault;
mod fields;
mod groups;
mod line;
mod members;
mod processes;
mod raw;
mod reading;
mod steps;
mod trees;

pub use fault::ReadFault;
pub use line::{Actor, Line, Scenario, Show};
pub use reading::read;

fn crosses<T: Send + Sync>() {}

// The types of this crate may go to another thread, and be shared.
fn types_cross() {
    crosses::<Actor>();
    crosses::<Show>();
    crosses::<Line>();
    crosses::<Scenario>();
    crosses::<ReadFault>();
}
