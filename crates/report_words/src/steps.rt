//! Who acted, and what was done.

ghost use Rattle.std.specs.Prelude.{◌≡◌, ◌++◌, [], ◌∷◌, IfOk, codes, string_bytes};
ghost use Rattle.report_words.specs.Pieces.{text_of_pieces, process_text};
ghost use Rattle.report_words.specs.Words.{action_text, parent_action_text, step_text};

use crate::items::{pair, process_words, with_process};
use fission_ids::{OutOfMemory, ProcId};
use journal::Step;
use std::alloc::Global;
use wire_msgs::{Action, ParentAction};

// The verb of what a process does of its own accord.
#[tactic(auto, unfolding(crate::specs::Words::action_text))]
fn action_verb(action: &Action) -> &'static str
    ensures { result.now ≡ action_text action.now }
{
    match action {
        Action::Set { .. } => "set",
        Action::Frame { .. } => "frame",
        Action::Drop { .. } => "drop",
        Action::Close { .. } => "close",
        Action::Navigate { .. } => "navigate",
        Action::Tell { .. } => "tell",
        Action::Ask { .. } => "ask",
        Action::Answer { .. } => "answer",
    }
}

// The verb of what the parent does of its own accord.
#[tactic(auto, unfolding(crate::specs::Words::parent_action_text))]
fn parent_action_verb(action: &ParentAction) -> &'static str
    ensures { result.now ≡ parent_action_text action.now }
{
    match action {
        ParentAction::Set { .. } => "set",
        ParentAction::Tab { .. } => "tab",
        ParentAction::Subscribe { .. } => "subscribe",
        ParentAction::Discard { .. } => "discard",
        ParentAction::Navigate { .. } => "navigate",
        ParentAction::Tell { .. } => "tell",
        ParentAction::Ask { .. } => "ask",
        ParentAction::Answer { .. } => "answer",
        ParentAction::Kill { .. } => "kill",
    }
}

fn act_words(alloc: Global, p: ProcId, action: &Action) -> Result<String, OutOfMemory>
    ensures { IfOk result (λ s. string_bytes s ≡
        text_of_pieces (process_text p ∷ codes " " ∷ action_text action.now ∷ [])) }
{
    let p = process_words(alloc, p)?;
    pair(alloc, p.as_str(), action_verb(action))
}

fn take_words(alloc: Global, p: ProcId) -> Result<String, OutOfMemory>
    ensures { IfOk result (λ s. string_bytes s ≡ process_text p ++ codes " take") }
{
    let p = process_words(alloc, p)?;
    pair(alloc, p.as_str(), "take")
}

fn raw_words(alloc: Global, p: ProcId) -> Result<String, OutOfMemory>
    ensures { IfOk result (λ s. string_bytes s ≡ process_text p ++ codes " raw") }
{
    let p = process_words(alloc, p)?;
    pair(alloc, p.as_str(), "raw")
}

/// The text of a step: who acted, and the verb of what was done.
#[tactic(auto, unfolding(crate::specs::Words::step_text))]
pub fn step_words(alloc: Global, step: &Step) -> Result<String, OutOfMemory>
    ensures { IfOk result (λ s. string_bytes s ≡ step_text step.now) }
{
    match step {
        Step::Act { p, action } => act_words(alloc, *p, action),
        Step::Take { p } => take_words(alloc, *p),
        Step::Raw { p, .. } => raw_words(alloc, *p),
        Step::ParentAct { action } => pair(alloc, "parent", parent_action_verb(action)),
        Step::Hear { p } => with_process(alloc, "parent hear", *p),
    }
}
