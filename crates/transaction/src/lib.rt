//! Changes of fields that are committed as one: new values, and by them the set of fields that they modify.
//! Applying one sets the modified fields and leaves the others. Nothing here knows who commits, or when.
#![tactic(auto)]

mod transaction;

pub use transaction::{Split, Transaction};

fn crosses<T: Send + Sync>() {}

// The types of this crate may go to another thread, and be shared.
fn types_cross() {
    crosses::<Split>();
    crosses::<Transaction>();
}
