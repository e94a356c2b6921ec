//! The rules of the state that the parent and the processes share: what is asked, what a part of a bundle or
//! an action of one's own comes to, and what is sent. Each rule stands once, over the answers to questions,
//! whoever gives them. Nothing here keeps anything.
#![tactic(auto)]

mod rows;

pub use rows::worked_rows;
