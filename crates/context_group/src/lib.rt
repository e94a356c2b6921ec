//! Browsing context groups in the parent: which processes are subscribed to each, which acknowledgements of
//! discarded contexts are awaited, and how many live contexts keep it. A group stays until it has neither a
//! live context nor an awaited acknowledgement, and is never kept again. Nothing here knows a tree or a link.
#![tactic(auto)]

mod acks;
mod group;
mod groups;
mod laws;
mod sets;

pub use groups::{GroupFault, Groups};
pub use laws::{ended_groups_stay_ended, groups_are_kept_until_ended, groups_await_where_owed};

fn crosses<T: Send + Sync>() {}

// The types of this crate may go to another thread, and be shared.
fn types_cross() {
    crosses::<GroupFault>();
    crosses::<Groups>();
}
