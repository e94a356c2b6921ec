//! The queries that one side asked: on which window each was asked of which actor, and whether it is pending
//! or settled, and as what. A settled query never changes, and no id is given twice. Nothing here knows
//! whether a window is open, or how an ask or a reply travels.
#![tactic(auto)]

mod row;
mod table;

pub use row::{QState, QueryRow};
pub use table::QueryTable;

fn crosses<T: Send + Sync>() {}

// The types of this crate may go to another thread, and be shared.
fn types_cross() {
    crosses::<QState>();
    crosses::<QueryRow>();
    crosses::<QueryTable>();
}
