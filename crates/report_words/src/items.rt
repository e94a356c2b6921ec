//! The items that texts are made of.

ghost use Rattle.std.specs.Prelude.{◌≡◌, ◌++◌, [], ◌∷◌, IfOk, OnOk, codes, string_bytes};
ghost use Rattle.std.specs.List.{flat_map};
ghost use Rattle.fission_ids.specs.Ids.{context_text, window_text, query_text, group_text};
ghost use Rattle.report_words.specs.Pieces.{text_of_pieces, process_text, name_in, names_text};

use field_table::{Field, FieldSet};
use fission_ids::{ContextId, GroupId, OutOfMemory, ProcId, QueryId, WindowId};
use std::alloc::Global;

// An item alone.
pub(crate) fn alone(alloc: Global, item: &str) -> Result<String, OutOfMemory>
    ensures { IfOk result (λ s. string_bytes s ≡ item.now) }
{
    Ok(String::from_str(alloc, item)?)
}

// Two items.
pub(crate) fn pair(alloc: Global, first: &str, second: &str) -> Result<String, OutOfMemory>
    ensures { IfOk result (λ s. string_bytes s ≡ text_of_pieces (first.now ∷ codes " " ∷ second.now ∷ [])) }
{
    Ok(format!(in alloc; "{first} {second}")?)
}

// Three items.
pub(crate) fn triple(
    alloc: Global,
    first: &str,
    second: &str,
    third: &str,
) -> Result<String, OutOfMemory>
    ensures { IfOk result (λ s. string_bytes s ≡
        text_of_pieces (first.now ∷ codes " " ∷ second.now ∷ codes " " ∷ third.now ∷ [])) }
{
    Ok(format!(in alloc; "{first} {second} {third}")?)
}

/// The text of a process: `p` and its number.
#[tactic(auto, unfolding(crate::specs::Pieces::process_text))]
pub fn process_words(alloc: Global, p: ProcId) -> Result<String, OutOfMemory>
    ensures { IfOk result (λ s. string_bytes s ≡ process_text p) }
{
    Ok(format!(in alloc; "p{}", p.0)?)
}

// A word, and the process that it speaks of.
pub(crate) fn with_process(alloc: Global, word: &str, p: ProcId) -> Result<String, OutOfMemory>
    ensures { IfOk result (λ s. string_bytes s ≡
        text_of_pieces (word.now ∷ codes " " ∷ process_text p ∷ [])) }
{
    let p = process_words(alloc, p)?;
    pair(alloc, word, p.as_str())
}

// A word, and the context that it speaks of.
pub(crate) fn with_context(
    alloc: Global,
    word: &str,
    context: ContextId,
) -> Result<String, OutOfMemory>
    ensures { IfOk result (λ s. string_bytes s ≡
        text_of_pieces (word.now ∷ codes " " ∷ context_text context ∷ [])) }
{
    let context = context.print(alloc)?;
    pair(alloc, word, context.as_str())
}

// A word, and the window that it speaks of.
pub(crate) fn with_window(
    alloc: Global,
    word: &str,
    window: WindowId,
) -> Result<String, OutOfMemory>
    ensures { IfOk result (λ s. string_bytes s ≡
        text_of_pieces (word.now ∷ codes " " ∷ window_text window ∷ [])) }
{
    let window = window.print(alloc)?;
    pair(alloc, word, window.as_str())
}

// A word, and the query that it speaks of.
pub(crate) fn with_query(alloc: Global, word: &str, query: QueryId) -> Result<String, OutOfMemory>
    ensures { IfOk result (λ s. string_bytes s ≡
        text_of_pieces (word.now ∷ codes " " ∷ query_text query ∷ [])) }
{
    let query = query.print(alloc)?;
    pair(alloc, word, query.as_str())
}

// A word, and the group that it speaks of.
pub(crate) fn with_group(alloc: Global, word: &str, group: GroupId) -> Result<String, OutOfMemory>
    ensures { IfOk result (λ s. string_bytes s ≡
        text_of_pieces (word.now ∷ codes " " ∷ group_text group ∷ [])) }
{
    let group = group.print(alloc)?;
    pair(alloc, word, group.as_str())
}

// The name of a field behind a blank, if it is in the set.
fn push_name(out: &mut String, set: FieldSet, field: Field) -> Result<(), OutOfMemory>
    ensures { OnOk result (string_bytes out.new ≡ string_bytes out.old ++ name_in set field) }
{
    if !set.has(field) {
        return Ok(());
    }
    out.push_str(" ")?;
    out.push_str(field.name())?;
    Ok(())
}

// The names of those fields that are in the set.
fn push_names_among(out: &mut String, set: FieldSet, fields: &[Field]) -> Result<(), OutOfMemory>
    ensures { OnOk result (string_bytes out.new ≡ string_bytes out.old ++ flat_map (name_in set) fields.now) }
{
    for field in fields {
        push_name(out, set, *field)?;
    }
    Ok(())
}

// The names of the fields in a set, each behind a blank.
#[tactic(auto, unfolding(crate::specs::Pieces::names_text))]
pub(crate) fn push_names(out: &mut String, set: FieldSet) -> Result<(), OutOfMemory>
    ensures { OnOk result (string_bytes out.new ≡ string_bytes out.old ++ names_text set) }
{
    push_names_among(out, set, &Field::ALL)
}
