//! The words of a report's line: who did what, what it came to, and what a field shows.
//! Each function here gives exactly the text that its definition in `specs` tells, or answers that memory is
//! wanting. The items of a text stand with one blank between them, and no text ends a line.
//! Nothing here knows a run or a journal, numbers a line, or writes anywhere.
#![tactic(auto)]

mod answers;
mod causes;
mod items;
mod notes;
mod refusals;
mod steps;
mod values;
mod views;

pub use answers::answer_words;
pub use items::process_words;
pub use steps::step_words;
pub use values::value_words;
pub use views::{
    field_words, held_words, is_initial, owner_words, process_line_words, run_words, share_words,
};
