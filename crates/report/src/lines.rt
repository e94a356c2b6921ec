//! The lines of a report.

ghost use Rattle.std.specs.Prelude.{◌≡◌, IfOk, string_bytes};
ghost use Rattle.std.specs.Option.{option_copied};
ghost use Rattle.report.specs.Report.{place_text, head_text, mark_text, entry_text, actor_text, show_text};
ghost use Rattle.report.specs.Report.{settle_text, end_text};

use field_table::{Field, Value};
use fission_ids::{ContextId, OutOfMemory};
use journal::Entry;
use report_words::{answer_words, process_words, step_words, value_words};
use scenario::Actor;
use std::alloc::Global;
use wire_msgs::Config;

// The first line: how many processes and tabs there are.
#[tactic(auto, unfolding(crate::specs::Report::head_text))]
pub(crate) fn head_line(alloc: Global, config: &Config) -> Result<String, OutOfMemory>
    ensures { IfOk result (λ s. string_bytes s ≡ head_text config.now) }
{
    let processes = config.types.len();
    let tabs = config.tabs.len();
    Ok(format!(in alloc; "fission processes {processes} tabs {tabs} actors 0\n")?)
}

// A number, or `+` where there is none.
fn mark_words(alloc: Global, mark: Option<u64>) -> Result<String, OutOfMemory>
    ensures { IfOk result (λ s. string_bytes s ≡ mark_text mark) }
{
    match mark {
        Some(number) => Ok(format!(in alloc; "{number}")?),
        None => Ok(String::from_str(alloc, "+")?),
    }
}

// The line of a step, and what it came to.
#[tactic(auto, unfolding(crate::specs::Report::entry_text))]
pub(crate) fn entry_line(
    alloc: Global,
    mark: Option<u64>,
    entry: &Entry,
) -> Result<String, OutOfMemory>
    ensures { IfOk result (λ s. string_bytes s ≡ entry_text mark entry.now.step entry.now.answer) }
{
    let mark = mark_words(alloc, mark)?;
    let step = step_words(alloc, &entry.step)?;
    let answer = answer_words(alloc, &entry.answer)?;
    Ok(format!(in alloc; "{mark} {step} {answer}\n")?)
}

// `parent`, or the process.
#[tactic(auto, unfolding(crate::specs::Report::actor_text))]
pub(crate) fn actor_words(alloc: Global, who: Actor) -> Result<String, OutOfMemory>
    ensures { IfOk result (λ s. string_bytes s ≡ actor_text who) }
{
    match who {
        Actor::Parent => Ok(String::from_str(alloc, "parent")?),
        Actor::Process(p) => process_words(alloc, p),
    }
}

// The line that shows a field of a context, as one side has it.
#[tactic(auto, unfolding(crate::specs::Report::show_text))]
pub(crate) fn show_line(
    alloc: Global,
    number: u64,
    who: Actor,
    context: ContextId,
    field: Field,
    value: Option<&Value>,
) -> Result<String, OutOfMemory>
    ensures { IfOk result (λ s. string_bytes s ≡
        show_text number who context field (option_copied value.entry)) }
{
    let who = actor_words(alloc, who)?;
    let context = context.print(alloc)?;
    let context = context.as_str();
    let name = field.name();
    let value = value_words(alloc, field, value)?;
    Ok(format!(in alloc; "{number} {who} show {context} {name} {value}\n")?)
}

// The line of a settle: how many deliveries it took.
#[tactic(auto, unfolding(crate::specs::Report::settle_text))]
pub(crate) fn settle_line(alloc: Global, number: u64, count: usize) -> Result<String, OutOfMemory>
    ensures { IfOk result (λ s. string_bytes s ≡ settle_text number count) }
{
    Ok(format!(in alloc; "{number} settle {count}\n")?)
}

// The last line: how many entries the journal has.
#[tactic(auto, unfolding(crate::specs::Report::end_text))]
pub(crate) fn end_line(alloc: Global, entries: usize) -> Result<String, OutOfMemory>
    ensures { IfOk result (λ s. string_bytes s ≡ end_text entries) }
{
    Ok(format!(in alloc; "end {entries}\n")?)
}

/// The line that tells where JSON is no scenario.
#[tactic(auto, unfolding(crate::specs::Report::place_text))]
pub fn place_line(alloc: Global, place: u32) -> Result<String, OutOfMemory>
    ensures { IfOk result (λ s. string_bytes s ≡ place_text place) }
{
    Ok(format!(in alloc; "shape {place}\n")?)
}
