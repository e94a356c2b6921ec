//! Who may write a field of a browsing context: a table of the rule of each field, and of what each rule
//! denies and allows. What is denied rests on facts that don't change, so a process can tell before it sends.
//! Nothing here keeps a value, or knows an epoch or a message.
#![tactic(auto)]

mod ask;
mod custom;
mod laws;
mod rule;
mod rules;

pub use ask::{Ask, WindowFact, denied};
pub use laws::{
    any_is_allowed, bounds_judge_the_zooms_of_others, bounds_judge_zooms_alone,
    denials_rest_on_fixed_facts, no_window_is_allowed, parent_is_never_reverted, worked_rows,
};
pub use rule::{Rule, Zoom};
pub use rules::Rules;

fn crosses<T: Send + Sync>() {}

fn shares_value<T: Sync>(_value: &T) {}

fn sends_value<T: Send>(value: T) -> T {
    value
}

// The types of this crate may go to another thread, and be shared.
fn types_cross() {
    crosses::<Ask>();
    crosses::<Rule>();
    crosses::<WindowFact>();
    crosses::<Zoom>();
}

// The rules may be shared by threads.
fn rules_are_shared(rules: &Rules) {
    shares_value(rules);
}

// The rules may go to another thread.
fn rules_go(rules: Rules) -> Rules {
    sends_value(rules)
}
