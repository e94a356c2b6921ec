//! What a step came to.

ghost use Rattle.std.specs.Prelude.{◌≡◌, ◌++◌, [], ◌∷◌, IfOk, OnOk, codes, string_bytes};
ghost use Rattle.std.specs.List.{flat_map};
ghost use Rattle.fission_ids.specs.Ids.{context_text, group_text};
ghost use Rattle.report_words.specs.Pieces.{text_of_pieces, after_blank};
ghost use Rattle.report_words.specs.Refusals.{cause_text};
ghost use Rattle.report_words.specs.Notes.{note_text};
ghost use Rattle.report_words.specs.Words.{answer_text};

use crate::causes::cause_words;
use crate::items::{alone, pair, triple, with_context, with_process, with_query};
use crate::notes::note_words;
use crate::refusals::refusal_words;
use fission_ids::{ContextId, GroupId, OutOfMemory};
use std::alloc::Global;
use wire_msgs::{Answer, EndCause, PartNote};

fn tab_words(alloc: Global, group: GroupId, context: ContextId) -> Result<String, OutOfMemory>
    ensures { IfOk result (λ s. string_bytes s ≡
        text_of_pieces (codes "ok " ∷ group_text group ∷ codes " " ∷ context_text context ∷ [])) }
{
    let group = group.print(alloc)?;
    let context = context.print(alloc)?;
    triple(alloc, "ok", group.as_str(), context.as_str())
}

fn push_note(alloc: Global, out: &mut String, note: &PartNote) -> Result<(), OutOfMemory>
    ensures { OnOk result (string_bytes out.new ≡ string_bytes out.old ++ after_blank (note_text note.now)) }
{
    let note = note_words(alloc, note)?;
    out.push_str(" ")?;
    out.push_str(note.as_str())?;
    Ok(())
}

fn parts_words(alloc: Global, notes: &[PartNote]) -> Result<String, OutOfMemory>
    ensures { IfOk result (λ s. string_bytes s ≡
        codes "ok" ++ flat_map (λ note. after_blank (note_text note)) notes.now) }
{
    let mut out = alone(alloc, "ok")?;
    for note in notes {
        push_note(alloc, &mut out, note)?;
    }
    Ok(out)
}

fn ended_words(alloc: Global, cause: EndCause) -> Result<String, OutOfMemory>
    ensures { IfOk result (λ s. string_bytes s ≡ codes "ended " ++ cause_text cause) }
{
    let cause = cause_words(alloc, cause)?;
    pair(alloc, "ended", cause.as_str())
}

/// The text of an answer. The notes of a bundle's parts stand in the parts' order.
#[tactic(auto, unfolding(crate::specs::Words::answer_text))]
pub fn answer_words(alloc: Global, answer: &Answer) -> Result<String, OutOfMemory>
    ensures { IfOk result (λ s. string_bytes s ≡ answer_text answer.now) }
{
    match answer {
        Answer::Done => alone(alloc, "ok"),
        Answer::Context(context) => with_context(alloc, "ok", *context),
        Answer::Tab(group, context) => tab_words(alloc, *group, *context),
        Answer::Query(query) => with_query(alloc, "ok", *query),
        Answer::Target(p) => with_process(alloc, "ok", *p),
        Answer::Parts(notes) => parts_words(alloc, notes.as_slice()),
        Answer::Ended(cause) => ended_words(alloc, *cause),
        Answer::Ignored => alone(alloc, "ignored"),
        Answer::Refused(why) => refusal_words(alloc, *why),
    }
}
