//! Match patterns: which addresses they match, and where a text stops being one.
//! A pattern is seen as the text that was read. What a text means is in `specs`: the grammar in `Grammar`, a
//! fault and its place in `Reading`, the addresses that a pattern matches in `Matching`, and in `Globs` that
//! a star stands for any run of bytes. Nothing here knows an actor or a window.
#![tactic(auto)]

mod fault;
mod glob;
mod laws;
mod matching;
mod pattern;
mod reading;
mod spelling;

pub use fault::PatternFault;
pub use laws::{faults_stand, patterns_are_spelled, stars_stand_for_any_run};
pub use pattern::Pattern;

fn crosses<T: Send + Sync>() {}

// The types of this crate may go to another thread, and be shared.
fn types_cross() {
    crosses::<Pattern>();
    crosses::<PatternFault>();
}
