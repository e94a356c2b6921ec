//! The small plain types that all other crates speak of: want of memory, equal copies, lists, texts, values
//! that are shared or kept behind a pointer, processes, ids, epochs, and how a query ends.
//! A list is seen as a list, a text as its bytes and a kept value as the value, so that a contract above can
//! say that two values are equal. An id has a text and, but for queries, a number, each of which gives the id
//! back. Nothing here knows a field, a message or a link.
#![tactic(auto)]

mod any_id;
mod context;
mod epoch;
mod group;
mod kept;
mod memory;
mod numbers;
mod outcome;
mod process;
mod query;
mod seq;
mod shared;
mod text;
mod why;
mod window;

pub use any_id::AnyId;
pub use context::ContextId;
pub use epoch::Epoch;
pub use group::GroupId;
pub use kept::Kept;
pub use memory::{Duplicate, OutOfMemory};
pub use outcome::Outcome;
pub use process::{ProcId, ProcSet};
pub use query::QueryId;
pub use seq::Seq;
pub use shared::Shared;
pub use text::Text;
pub use why::Why;
pub use window::WindowId;

fn crosses<T: Send + Sync>() {}

// The types of this crate may go to another thread, and be shared.
fn types_cross() {
    crosses::<OutOfMemory>();
    crosses::<Text>();
    crosses::<ProcId>();
    crosses::<ProcSet>();
    crosses::<GroupId>();
    crosses::<Epoch>();
    crosses::<ContextId>();
    crosses::<WindowId>();
    crosses::<QueryId>();
    crosses::<AnyId>();
    crosses::<Outcome>();
    crosses::<Why>();
}

// Lists and kept values may cross where what is in them may.
fn holders_cross<T: Send + Sync>() {
    crosses::<Seq<T>>();
    crosses::<Shared<T>>();
    crosses::<Kept<T>>();
}
