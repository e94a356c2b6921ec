//! The tree of a group in one process against the parent's, proved once over what the process sees of a
//! journal. Promised are laws over all events that keep the rules of specs/, each a clause of a function of
//! `laws`. Nothing here knows a bundle's parts or a step, or says that anything is delivered.
#![tactic(auto)]

mod laws;

pub use laws::{
    children_have_one_owner, comings_are_below_the_held, comings_bring_the_owner,
    drops_are_allowed, heard_is_told, known_has_come, missing_is_on_its_way, own_ids_are_good,
    quiet_children_are_the_parents, quiet_holds_what_is_live, quiet_owners_are_the_parents,
    tops_come_once, untold_holds_nothing, untold_made_nothing, worked_run,
};
