//! The parent: its values of each context, what it does of its own accord, and what it makes of the bundles
//! that it hears. Each call gives what the rules of `protocol` give of the answers before it. Nothing here
//! knows a journal or a link.
#![tactic(auto)]

mod acting;
mod contents;
mod drafts;
mod ending;
mod envelopes;
mod hanging;
mod hearing;
mod judging;
mod membership;
mod opening;
mod origin;
mod parent;
mod parts;
mod posts;
mod process;
mod ruled;
mod sending;
mod starting;
mod writes;

pub use parent::Parent;
pub use ruled::Ruled;

fn crosses<T: Send + Sync>() {}

// The types of this crate may go to another thread, and be shared.
fn types_cross() {
    crosses::<Parent>();
    crosses::<Ruled>();
}
