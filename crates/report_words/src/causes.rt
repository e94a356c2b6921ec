//! Why the parent ended a process.

ghost use Rattle.std.specs.Prelude.{◌≡◌, ◌++◌, [], ◌∷◌, IfOk, codes, decimal, string_bytes};
ghost use Rattle.fission_ids.specs.Ids.{context_text};
ghost use Rattle.report_words.specs.Pieces.{text_of_pieces, names_text};
ghost use Rattle.report_words.specs.Refusals.{id_text, cause_text};

use crate::items::{alone, push_names, with_context, with_query, with_window};
use field_table::FieldSet;
use fission_ids::{AnyId, ContextId, OutOfMemory};
use std::alloc::Global;
use wire_msgs::EndCause;

fn denied_words(alloc: Global, context: ContextId, fields: FieldSet) -> Result<String, OutOfMemory>
    ensures { IfOk result (λ s. string_bytes s ≡
        text_of_pieces (codes "denied " ∷ context_text context ∷ names_text fields ∷ [])) }
{
    let mut out = with_context(alloc, "denied", context)?;
    push_names(&mut out, fields)?;
    Ok(out)
}

// A word, and the two numbers that don't fit each other.
fn numbers_words(alloc: Global, word: &str, said: u64, due: u64) -> Result<String, OutOfMemory>
    ensures { IfOk result (λ s. string_bytes s ≡
        text_of_pieces (word.now ∷ codes " " ∷ decimal said ∷ codes " " ∷ decimal due ∷ [])) }
{
    Ok(format!(in alloc; "{word} {said} {due}")?)
}

#[tactic(auto, unfolding(crate::specs::Refusals::id_text))]
fn bad_id_words(alloc: Global, id: AnyId) -> Result<String, OutOfMemory>
    ensures { IfOk result (λ s. string_bytes s ≡ codes "badid " ++ id_text id) }
{
    match id {
        AnyId::Context(context) => with_context(alloc, "badid", context),
        AnyId::Window(window) => with_window(alloc, "badid", window),
        AnyId::Query(query) => with_query(alloc, "badid", query),
    }
}

fn bad_part_words(alloc: Global, number: u64) -> Result<String, OutOfMemory>
    ensures { IfOk result (λ s. string_bytes s ≡ codes "badpart " ++ decimal number) }
{
    Ok(format!(in alloc; "badpart {number}")?)
}

// The text of a cause: its word, and what it names.
#[tactic(auto, unfolding(crate::specs::Refusals::cause_text))]
pub(crate) fn cause_words(alloc: Global, cause: EndCause) -> Result<String, OutOfMemory>
    ensures { IfOk result (λ s. string_bytes s ≡ cause_text cause) }
{
    match cause {
        EndCause::Denied { context, fields } => denied_words(alloc, context, fields),
        EndCause::BadEpoch { said, due } => numbers_words(alloc, "badepoch", said.0, due.0),
        EndCause::BadStamp { said, sent } => numbers_words(alloc, "badstamp", said, sent),
        EndCause::BadId { id } => bad_id_words(alloc, id),
        EndCause::BadPart { number } => bad_part_words(alloc, number),
        EndCause::Failed => alone(alloc, "failed"),
        EndCause::Killed => alone(alloc, "killed"),
    }
}
