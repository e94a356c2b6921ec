//! The optimistic view of one process, proved once over what it sees of a journal, as a trace of each
//! context and field. Promised are laws over every trace that keeps the rules of specs/, each a clause of a
//! function of `laws`. Nothing here knows a tree, a bundle's parts or a step, or says that anything is
//! delivered.
#![tactic(auto)]

mod laws;

pub use laws::{
    changes_behind_the_point_wait, comings_bring_the_value, point_never_falls,
    projection_keeps_the_rules, quiet_shows_the_parent, replay_shows_the_view,
    revert_taken_shows_the_parent, reverts_wait, stage_is_served, worked_runs,
};
