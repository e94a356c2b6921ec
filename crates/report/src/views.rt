//! All that one side has, written behind what stands there.

ghost use Rattle.std.specs.Prelude.{◌≡◌, ◌++◌, ◌<◌, ◌≤◌, OnOk, IfOk, length, string_bytes};
ghost use Rattle.std.specs.List.{flat_map};
ghost use Rattle.std.specs.Option.{option_copied};
ghost use Rattle.content_core.specs.Content.{seen_of};
ghost use Rattle.parent_core.specs.Parent.{facts_of};
ghost use Rattle.report.specs.Views.{Told, told_by_parent, told_by_process, line_behind, field_line};
ghost use Rattle.report.specs.Views.{field_lines, context_lines, contexts_text, process_line};
ghost use Rattle.report.specs.Views.{process_lines, parent_view_text, process_view_text};

use content_core::Content;
use field_table::{Field, Value};
use fission_ids::{ContextId, GroupId, OutOfMemory, ProcId};
use parent_core::Parent;
use report_words::{
    field_words, held_words, is_initial, owner_words, process_line_words, run_words, share_words,
};
use std::alloc::Global;

// A side, by what it tells of its contexts.
trait Side {
    ghost told: { Self → Told };

    // In pre-order.
    fn contexts(&self) -> &[ContextId]
        ensures { result.now ≡ (told self.now).order };

    fn group(&self, x: ContextId) -> Option<GroupId>
        ensures { result ≡ (told self.now).group x };

    // What the context is a frame of.
    fn above(&self, x: ContextId) -> Option<ContextId>
        ensures { result ≡ (told self.now).above x };

    // As it is written.
    fn whose(&self, alloc: Global, x: ContextId) -> Result<String, OutOfMemory>
        ensures { IfOk result (λ s. string_bytes s ≡ (told self.now).whose x) };

    fn value(&self, x: ContextId, f: Field) -> Option<&Value>
        ensures { option_copied result ≡ (told self.now).value x f };
}

impl Side for Parent {
    ghost told = { λ p. told_by_parent (facts_of p) };

    fn contexts(&self) -> &[ContextId] {
        self.tree().contexts()
    }

    fn group(&self, x: ContextId) -> Option<GroupId> {
        Parent::group(self, x)
    }

    fn above(&self, x: ContextId) -> Option<ContextId> {
        self.tree().parent(x)
    }

    fn whose(&self, alloc: Global, x: ContextId) -> Result<String, OutOfMemory> {
        owner_words(alloc, self.owner(x))
    }

    fn value(&self, x: ContextId, f: Field) -> Option<&Value> {
        self.field(x, f)
    }
}

impl Side for Content {
    ghost told = { λ c. told_by_process (seen_of c) };

    fn contexts(&self) -> &[ContextId] {
        self.tree().contexts()
    }

    fn group(&self, x: ContextId) -> Option<GroupId> {
        Content::group(self, x)
    }

    fn above(&self, x: ContextId) -> Option<ContextId> {
        self.tree().parent(x)
    }

    fn whose(&self, alloc: Global, x: ContextId) -> Result<String, OutOfMemory> {
        share_words(alloc, self.owns(x))
    }

    fn value(&self, x: ContextId, f: Field) -> Option<&Value> {
        self.field(x, f)
    }
}

// A text as a line, behind some blanks.
fn push_line(out: &mut String, blanks: &str, words: &str) -> Result<(), OutOfMemory>
    ensures { OnOk result (string_bytes out.new ≡ string_bytes out.old ++ line_behind blanks.now words.now) }
{
    out.push_str(blanks)?;
    out.push_str(words)?;
    out.push_str("\n")?;
    Ok(())
}

// A field, unless it has the value that it has in a new context.
#[tactic(auto, unfolding(crate::specs::Views::field_line))]
fn push_field(
    alloc: Global,
    out: &mut String,
    f: Field,
    value: Option<&Value>,
) -> Result<(), OutOfMemory>
    ensures { OnOk result (string_bytes out.new ≡ string_bytes out.old ++
        field_line f (option_copied value.entry)) }
{
    let Some(v) = value else {
        return Ok(());
    };
    if is_initial(f, v) {
        return Ok(());
    }
    let words = field_words(alloc, f, value)?;
    push_line(out, "  ", words.as_str())
}

// The fields of a context.
fn push_fields<S: Side>(
    alloc: Global,
    out: &mut String,
    side: &S,
    x: ContextId,
    fields: &[Field],
) -> Result<(), OutOfMemory>
    ensures { OnOk result (string_bytes out.new ≡ string_bytes out.old ++
        flat_map (λ f. field_line f ((S.told side.now).value x f)) fields.now) }
{
    for f in fields {
        push_field(alloc, out, *f, side.value(x, *f))?;
    }
    Ok(())
}

// A context, and its fields below it.
#[tactic(auto, unfolding(crate::specs::Views::context_lines))]
fn push_context<S: Side>(
    alloc: Global,
    out: &mut String,
    side: &S,
    x: ContextId,
) -> Result<(), OutOfMemory>
    ensures { OnOk result (string_bytes out.new ≡ string_bytes out.old ++
        context_lines (S.told side.now) x) }
{
    let whose = side.whose(alloc, x)?;
    let words = held_words(alloc, x, side.group(x), side.above(x), whose.as_str())?;
    push_line(out, " ", words.as_str())?;
    push_fields(alloc, out, side, x, &Field::ALL)
}

// The contexts in the order of their tree.
fn push_contexts<S: Side>(alloc: Global, out: &mut String, side: &S) -> Result<(), OutOfMemory>
    ensures { OnOk result (string_bytes out.new ≡ string_bytes out.old ++
        contexts_text (S.told side.now)) }
{
    for x in side.contexts() {
        push_context(alloc, out, side, *x)?;
    }
    Ok(())
}

// A process, as the parent has it.
fn push_process_line(
    alloc: Global,
    out: &mut String,
    parent: &Parent,
    p: ProcId,
) -> Result<(), OutOfMemory>
    requires { p.0 < length parent.now.config.types }
    ensures { OnOk result (string_bytes out.new ≡ string_bytes out.old ++
        process_line parent.now.config (facts_of parent.now) p.0) }
{
    let types = parent.config().types.as_slice();
    let remote_type = types[p.0 as usize].as_str();
    let words = process_line_words(alloc, p, remote_type, parent.end_cause(p))?;
    push_line(out, " ", words.as_str())
}

// The processes by rising number.
fn push_process_lines(alloc: Global, out: &mut String, parent: &Parent) -> Result<(), OutOfMemory>
    requires { length parent.now.config.types ≤ 16 }
    ensures { OnOk result (string_bytes out.new ≡ string_bytes out.old ++
        process_lines parent.now.config (facts_of parent.now)) }
{
    let count = parent.config().types.len() as u8;
    for p in 0..count {
        push_process_line(alloc, out, parent, ProcId(p))?;
    }
    Ok(())
}

/// Writes what the parent has: the processes, and the live contexts.
#[tactic(auto, unfolding(crate::specs::Views::parent_view_text))]
pub(crate) fn push_parent(
    alloc: Global,
    out: &mut String,
    parent: &Parent,
) -> Result<(), OutOfMemory>
    requires { length parent.now.config.types ≤ 16 }
    ensures { OnOk result (string_bytes out.new ≡ string_bytes out.old ++
        parent_view_text parent.now.config (facts_of parent.now)) }
{
    push_process_lines(alloc, out, parent)?;
    push_contexts(alloc, out, parent)
}

/// Writes what a process of this type has: whether it runs, and the contexts that it holds.
#[tactic(auto, unfolding(crate::specs::Views::process_view_text))]
pub(crate) fn push_process(
    alloc: Global,
    out: &mut String,
    remote_type: &str,
    content: &Content,
) -> Result<(), OutOfMemory>
    ensures { OnOk result (string_bytes out.new ≡ string_bytes out.old ++
        process_view_text remote_type.now (seen_of content.now)) }
{
    let words = run_words(alloc, remote_type, content.is_running())?;
    push_line(out, " ", words.as_str())?;
    push_contexts(alloc, out, content)
}
