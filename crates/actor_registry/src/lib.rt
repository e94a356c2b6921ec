//! Window actors by name: what was registered of each, and at which windows one is admitted.
//! A registry is seen as the list of its entries in order of registration. Which check fails first is in
//! `specs`, as a list of checks with what is told where one fails. Nothing here opens a window or sends.
#![tactic(auto)]

mod admission;
mod entry;
mod registry;

pub use admission::Facts;
pub use entry::{Entry, Mode};
pub use registry::{RegisterFault, Registry};

fn crosses<T: Send + Sync>() {}

// The types of this crate may go to another thread, and be shared.
fn types_cross() {
    crosses::<Mode>();
    crosses::<Entry>();
    crosses::<Facts<'_>>();
    crosses::<RegisterFault>();
    crosses::<Registry>();
}
