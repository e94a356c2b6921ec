//! The synced fields of a browsing context: their names, what they hold, and a table of one value for each.
//! Everything about a field is read off its row here. Nothing here knows who writes a field, or who may.
#![tactic(auto)]

mod field;
mod field_set;
mod fields;
mod kind;
mod value;
mod verdict;

pub use field::Field;
pub use field_set::FieldSet;
pub use fields::Fields;
pub use kind::Kind;
pub use value::{Value, ValueFault};
pub use verdict::Verdict;

fn crosses<T: Send + Sync>() {}

// The types of this crate may go to another thread, and be shared.
fn types_cross() {
    crosses::<Field>();
    crosses::<FieldSet>();
    crosses::<Fields>();
    crosses::<Kind>();
    crosses::<Value>();
    crosses::<ValueFault>();
    crosses::<Verdict>();
}
