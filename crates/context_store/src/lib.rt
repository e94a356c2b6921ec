//! Stores of the fields of contexts, with the epochs of the last own writes to them: one trait, a plain list,
//! and a slab under keys. A store is seen as a finite map, each call is one equation on it, and a run of
//! operations answers the same at both. Nothing here knows who writes, or gives an epoch.
#![tactic(auto)]

mod list_store;
mod marked;
mod ops;
mod slab_store;
mod store;

pub use list_store::ListStore;
pub use ops::{StoreOp, StoreReply, run_ops};
pub use slab_store::SlabStore;
pub use store::{Store, others_stay};

fn crosses<T: Send + Sync>() {}

// The types of this crate may go to another thread, and be shared.
fn types_cross() {
    crosses::<ListStore>();
    crosses::<SlabStore>();
    crosses::<StoreOp>();
    crosses::<StoreReply>();
}
