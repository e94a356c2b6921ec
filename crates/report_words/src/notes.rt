//! What became of the parts of a bundle.

ghost use Rattle.std.specs.Prelude.{◌≡◌, ◌++◌, [], ◌∷◌, IfOk, OnOk, codes, decimal, string_bytes};
ghost use Rattle.std.specs.List.{flat_map};
ghost use Rattle.fission_ids.specs.Ids.{context_text, window_text, query_text};
ghost use Rattle.report_words.specs.Pieces.{text_of_pieces};
ghost use Rattle.report_words.specs.Notes.{mark_text, field_mark_text, field_note_text, load_mark_text};
ghost use Rattle.report_words.specs.Notes.{ask_mark_text, note_text};

use crate::items::{alone, process_words, triple, with_context, with_group};
use fission_ids::{ContextId, OutOfMemory, QueryId, WindowId};
use std::alloc::Global;
use wire_msgs::{AskMark, FieldMark, FieldNote, LoadMark, Mark, PartNote};

#[tactic(auto, unfolding(crate::specs::Notes::mark_text))]
fn mark_words(mark: Mark) -> &'static str
    ensures { result.now ≡ mark_text mark }
{
    match mark {
        Mark::Done => "",
        Mark::Late => " late",
        Mark::Ignored => " ignored",
    }
}

// A word, what it speaks of, and what became of that.
fn marked(alloc: Global, word: &str, item: &str, mark: Mark) -> Result<String, OutOfMemory>
    ensures { IfOk result (λ s. string_bytes s ≡
        text_of_pieces (word.now ∷ codes " " ∷ item.now ∷ mark_text mark ∷ [])) }
{
    let mark = mark_words(mark);
    Ok(format!(in alloc; "{word} {item}{mark}")?)
}

fn context_note(
    alloc: Global,
    word: &str,
    context: ContextId,
    mark: Mark,
) -> Result<String, OutOfMemory>
    ensures { IfOk result (λ s. string_bytes s ≡
        text_of_pieces (word.now ∷ codes " " ∷ context_text context ∷ mark_text mark ∷ [])) }
{
    let context = context.print(alloc)?;
    marked(alloc, word, context.as_str(), mark)
}

fn window_note(
    alloc: Global,
    word: &str,
    window: WindowId,
    mark: Mark,
) -> Result<String, OutOfMemory>
    ensures { IfOk result (λ s. string_bytes s ≡
        text_of_pieces (word.now ∷ codes " " ∷ window_text window ∷ mark_text mark ∷ [])) }
{
    let window = window.print(alloc)?;
    marked(alloc, word, window.as_str(), mark)
}

fn reply_note(alloc: Global, query: QueryId, mark: Mark) -> Result<String, OutOfMemory>
    ensures { IfOk result (λ s. string_bytes s ≡
        text_of_pieces (codes "reply " ∷ query_text query ∷ mark_text mark ∷ [])) }
{
    let query = query.print(alloc)?;
    marked(alloc, "reply", query.as_str(), mark)
}

fn tell_note(
    alloc: Global,
    window: WindowId,
    actor: &str,
    mark: Mark,
) -> Result<String, OutOfMemory>
    ensures { IfOk result (λ s. string_bytes s ≡
        text_of_pieces (codes "tell " ∷ window_text window ∷ codes " " ∷ actor.now ∷ mark_text mark ∷ [])) }
{
    let window = window.print(alloc)?;
    let window = window.as_str();
    let mark = mark_words(mark);
    Ok(format!(in alloc; "tell {window} {actor}{mark}")?)
}

#[tactic(auto, unfolding(crate::specs::Notes::ask_mark_text))]
fn ask_mark_word(mark: AskMark) -> &'static str
    ensures { result.now ≡ ask_mark_text mark }
{
    match mark {
        AskMark::Reply => "reply",
        AskMark::Reject => "reject",
        AskMark::Hold => "hold",
        AskMark::Ignore => "ignore",
    }
}

fn ask_note(alloc: Global, query: QueryId, mark: AskMark) -> Result<String, OutOfMemory>
    ensures { IfOk result (λ s. string_bytes s ≡
        text_of_pieces (codes "ask " ∷ query_text query ∷ codes " " ∷ ask_mark_text mark ∷ [])) }
{
    let query = query.print(alloc)?;
    triple(alloc, "ask", query.as_str(), ask_mark_word(mark))
}

fn window_words(alloc: Global, window: WindowId) -> Result<String, OutOfMemory>
    ensures { IfOk result (λ s. string_bytes s ≡ window_text window) }
{
    let window = window.print(alloc)?;
    alone(alloc, window.as_str())
}

fn refused_load_words(alloc: Global, number: u8) -> Result<String, OutOfMemory>
    ensures { IfOk result (λ s. string_bytes s ≡ codes "refused " ++ decimal number) }
{
    Ok(format!(in alloc; "refused {number}")?)
}

#[tactic(auto, unfolding(crate::specs::Notes::load_mark_text))]
fn load_mark_words(alloc: Global, mark: LoadMark) -> Result<String, OutOfMemory>
    ensures { IfOk result (λ s. string_bytes s ≡ load_mark_text mark) }
{
    match mark {
        LoadMark::Target(p) => process_words(alloc, p),
        LoadMark::Opened(window) => window_words(alloc, window),
        LoadMark::Refused(number) => refused_load_words(alloc, number),
        LoadMark::Ignored => alone(alloc, "ignored"),
    }
}

fn load_note(alloc: Global, context: ContextId, mark: LoadMark) -> Result<String, OutOfMemory>
    ensures { IfOk result (λ s. string_bytes s ≡
        text_of_pieces (codes "load " ∷ context_text context ∷ codes " " ∷ load_mark_text mark ∷ [])) }
{
    let context = context.print(alloc)?;
    let mark = load_mark_words(alloc, mark)?;
    triple(alloc, "load", context.as_str(), mark.as_str())
}

#[tactic(auto, unfolding(crate::specs::Notes::field_mark_text))]
fn field_mark_word(mark: FieldMark) -> &'static str
    ensures { result.now ≡ field_mark_text mark }
{
    match mark {
        FieldMark::Applied => "a",
        FieldMark::Obsolete => "o",
        FieldMark::Reverted => "r",
    }
}

#[tactic(auto, unfolding(crate::specs::Notes::field_note_text))]
fn push_field(out: &mut String, note: FieldNote) -> Result<(), OutOfMemory>
    ensures { OnOk result (string_bytes out.new ≡ string_bytes out.old ++ field_note_text note) }
{
    out.push_str(" ")?;
    out.push_str(note.field.name())?;
    out.push_str("=")?;
    out.push_str(field_mark_word(note.mark))?;
    Ok(())
}

fn push_fields(out: &mut String, notes: &[FieldNote]) -> Result<(), OutOfMemory>
    ensures { OnOk result (string_bytes out.new ≡
        string_bytes out.old ++ flat_map field_note_text notes.now) }
{
    for note in notes {
        push_field(out, *note)?;
    }
    Ok(())
}

fn commit_note(
    alloc: Global,
    context: ContextId,
    notes: &[FieldNote],
) -> Result<String, OutOfMemory>
    ensures { IfOk result (λ s. string_bytes s ≡
        text_of_pieces (codes "commit " ∷ context_text context ∷ flat_map field_note_text notes.now ∷ [])) }
{
    let mut out = with_context(alloc, "commit", context)?;
    push_fields(&mut out, notes)?;
    Ok(out)
}

// The text of a part's note: what the part was, what it spoke of, and what became of it where it wasn't done.
#[tactic(auto, unfolding(crate::specs::Notes::note_text, crate::specs::Notes::mark_text))]
pub(crate) fn note_words(alloc: Global, note: &PartNote) -> Result<String, OutOfMemory>
    ensures { IfOk result (λ s. string_bytes s ≡ note_text note.now) }
{
    match note {
        PartNote::Create(context, mark) => context_note(alloc, "create", *context, *mark),
        PartNote::Drop(context, mark) => context_note(alloc, "drop", *context, *mark),
        PartNote::Ack(context) => with_context(alloc, "ack", *context),
        PartNote::Window(window, mark) => window_note(alloc, "window", *window, *mark),
        PartNote::Gone(window, mark) => window_note(alloc, "gone", *window, *mark),
        PartNote::Commit(context, notes) => commit_note(alloc, *context, notes.as_slice()),
        PartNote::CommitIgnored(context) => context_note(alloc, "commit", *context, Mark::Ignored),
        PartNote::Load(context, mark) => load_note(alloc, *context, *mark),
        PartNote::Ask(query, mark) => ask_note(alloc, *query, *mark),
        PartNote::Tell(window, actor, mark) => tell_note(alloc, *window, actor.as_str(), *mark),
        PartNote::Reply(query, mark) => reply_note(alloc, *query, *mark),
        PartNote::Register(group) => with_group(alloc, "register", *group),
        PartNote::Discard(context) => with_context(alloc, "discard", *context),
        PartNote::Close(context, mark) => context_note(alloc, "close", *context, *mark),
        PartNote::Kill => alone(alloc, "kill"),
    }
}
