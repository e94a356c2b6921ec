//! What one side has.

ghost use Rattle.std.specs.Prelude.{◌≡◌, ◌++◌, [], ◌∷◌, IfOk, codes, string_bytes};
ghost use Rattle.std.specs.Option.{option_copied, option_map};
ghost use Rattle.fission_ids.specs.Ids.{context_text, group_text};
ghost use Rattle.report_words.specs.Pieces.{text_of_pieces, process_text};
ghost use Rattle.report_words.specs.Refusals.{cause_text};
ghost use Rattle.report_words.specs.Views.{or_dash, owner_text, share_text, held_text};
ghost use Rattle.report_words.specs.Views.{same_value, is_initial, field_text};
ghost use Rattle.report_words.specs.Views.{process_line_text, run_text};

use crate::causes::cause_words;
use crate::items::{alone, pair, process_words, triple};
use crate::values::value_words;
use field_table::{Field, Value};
use fission_ids::{ContextId, GroupId, OutOfMemory, ProcId};
use std::alloc::Global;
use wire_msgs::EndCause;

fn group_words(alloc: Global, group: Option<GroupId>) -> Result<String, OutOfMemory>
    ensures { IfOk result (λ s. string_bytes s ≡ or_dash group_text group) }
{
    let Some(group) = group else {
        return alone(alloc, "-");
    };
    alone(alloc, group.print(alloc)?.as_str())
}

fn above_words(alloc: Global, above: Option<ContextId>) -> Result<String, OutOfMemory>
    ensures { IfOk result (λ s. string_bytes s ≡ or_dash context_text above) }
{
    let Some(above) = above else {
        return alone(alloc, "-");
    };
    alone(alloc, above.print(alloc)?.as_str())
}

/// The text of a context's owner: the process, or `-` where there is none.
#[tactic(auto, unfolding(crate::specs::Views::owner_text))]
pub fn owner_words(alloc: Global, owner: Option<ProcId>) -> Result<String, OutOfMemory>
    ensures { IfOk result (λ s. string_bytes s ≡ owner_text (option_map (λ p. p.0) owner)) }
{
    match owner {
        None => alone(alloc, "-"),
        Some(p) => process_words(alloc, p),
    }
}

/// The text of whether a process owns a context: `own`, or `remote`.
#[tactic(auto, unfolding(crate::specs::Views::share_text))]
pub fn share_words(alloc: Global, owned: bool) -> Result<String, OutOfMemory>
    ensures { IfOk result (λ s. string_bytes s ≡ share_text owned) }
{
    if owned {
        alone(alloc, "own")
    } else {
        alone(alloc, "remote")
    }
}

/// The text of a context that a side has: its id, its group, the context that it's a frame of, or `-`, and
/// whose it is.
#[tactic(auto, unfolding(crate::specs::Views::held_text))]
pub fn held_words(
    alloc: Global,
    context: ContextId,
    group: Option<GroupId>,
    above: Option<ContextId>,
    whose: &str,
) -> Result<String, OutOfMemory>
    ensures { IfOk result (λ s. string_bytes s ≡ held_text context group above whose.now) }
{
    let context = context.print(alloc)?;
    let context = context.as_str();
    let group = group_words(alloc, group)?;
    let above = above_words(alloc, above)?;
    Ok(format!(in alloc; "{context} {group} {above} {whose}")?)
}

fn same_value(one: &Value, other: &Value) -> bool
    ensures { result ≡ same_value one.now other.now }
{
    match (one, other) {
        (Value::Flag(a), Value::Flag(b)) => a == b,
        (Value::Number(n), Value::Number(m)) => n == m,
        (Value::Words(s), Value::Words(t)) => s.as_str() == t.as_str(),
        _ => false,
    }
}

/// Whether the field has the value that it has in a new context.
pub fn is_initial(field: Field, value: &Value) -> bool
    ensures { result ≡ is_initial field value.now }
{
    same_value(value, &field.initial())
}

/// The text of a field and its value.
#[tactic(auto, unfolding(crate::specs::Views::field_text))]
pub fn field_words(
    alloc: Global,
    field: Field,
    value: Option<&Value>,
) -> Result<String, OutOfMemory>
    ensures { IfOk result (λ s. string_bytes s ≡ field_text field (option_copied value.entry)) }
{
    let value = value_words(alloc, field, value)?;
    pair(alloc, field.name(), value.as_str())
}

fn ended_words(
    alloc: Global,
    p: ProcId,
    remote_type: &str,
    cause: EndCause,
) -> Result<String, OutOfMemory>
    ensures { IfOk result (λ s. string_bytes s ≡ text_of_pieces
        (process_text p ∷ codes " " ∷ remote_type.now ∷ codes " ended " ∷ cause_text cause ∷ [])) }
{
    let p = process_words(alloc, p)?;
    let cause = cause_words(alloc, cause)?;
    Ok(format!(in alloc; "{p} {remote_type} ended {cause}")?)
}

/// The text of a process as the parent has it: the process, its type, and `running`, or `ended` and why.
#[tactic(auto, unfolding(crate::specs::Views::process_line_text))]
pub fn process_line_words(
    alloc: Global,
    p: ProcId,
    remote_type: &str,
    cause: Option<EndCause>,
) -> Result<String, OutOfMemory>
    ensures { IfOk result (λ s. string_bytes s ≡ process_line_text p remote_type.now cause) }
{
    let Some(cause) = cause else {
        let p = process_words(alloc, p)?;
        return triple(alloc, p.as_str(), remote_type, "running");
    };
    ended_words(alloc, p, remote_type, cause)
}

/// The text of a process as it has itself: its type, and `running` or `stopped`.
#[tactic(auto, unfolding(crate::specs::Views::run_text))]
pub fn run_words(alloc: Global, remote_type: &str, running: bool) -> Result<String, OutOfMemory>
    ensures { IfOk result (λ s. string_bytes s ≡ run_text remote_type.now running) }
{
    if running {
        pair(alloc, remote_type, "running")
    } else {
        pair(alloc, remote_type, "stopped")
    }
}
