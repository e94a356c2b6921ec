//! Which process a context belongs in: the remote type that an address asks for, the least live process of a
//! type, and whether a navigation stays or switches. Nothing here knows a context or a link.
#![tactic(auto)]

mod choice;
mod laws;
mod plan;
mod remote;

pub use choice::choose;
pub use laws::{choice_is_the_least, switch_leaves_the_owner};
pub use plan::{Plan, plan_for};
pub use remote::remote_type;

fn crosses<T: Send + Sync>() {}

// The types of this crate may go to another thread, and be shared.
fn types_cross() {
    crosses::<Plan>();
}
