//! The tree of browsing contexts, in pre-order: who is above whom, and what hangs below. Attaching a context
//! leaves all others where they are, and detaching one takes away what hangs below it and no more. Nothing
//! here knows who may do so.
#![tactic(auto)]

mod fault;
mod laws;
mod tree;

pub use fault::TreeFault;
pub use laws::{
    ancestors_are_above, attach_leaves_a_tree, attach_leaves_the_others,
    attached_is_the_last_child, detach_leaves_a_tree, detach_leaves_the_others,
    nothing_is_below_the_unknown, parents_come_first, subtrees_hang_together,
};
pub use tree::Tree;

fn crosses<T: Send + Sync>() {}

// The types of this crate may go to another thread, and be shared.
fn types_cross() {
    crosses::<Tree>();
    crosses::<TreeFault>();
}
