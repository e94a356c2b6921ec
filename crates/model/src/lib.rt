//! What a run is, told by looking back through its journal: no table, queue or counter stands beside it.
//! Promised upward are the definitions in specs/ (moments, questions, links, views, settling, and which
//! journals there are), and laws that hold of every run. Nothing here keeps a state or changes a journal.
#![tactic(auto)]

mod laws;

pub use laws::{
    a_step_adds_little, end_changes_nothing_else, honest_are_only_killed, point_never_falls,
    process_shows_the_view, quiet_has_the_same_frames, quiet_has_the_same_order,
    quiet_holds_the_parents, quiet_says_the_same, quiet_shows_the_parent, refused_changes_nothing,
    revert_taken_shows_the_parent, reverts_wait, settling_ends, what_comes_is_the_parents,
    what_is_told_comes,
};
