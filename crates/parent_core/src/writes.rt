ghost use Rattle.std.specs.Prelude.{◌≡◌, ◌&&◌, not, map, filter, is_some, IfOk};
ghost use Rattle.std.specs.Prelude.{if◌then◌else◌, None, Some};
ghost use Rattle.std.specs.List.{list_any};
ghost use Rattle.field_table.specs.declared.field.Field.{Field};
ghost use Rattle.field_table.specs.Field.{fields as all_fields};
ghost use Rattle.field_table.specs.FieldSet.{has, set_of};
ghost use Rattle.field_table.specs.Table.{value_in};
ghost use Rattle.transaction.specs.Transaction.{new_value};
ghost use Rattle.field_rules.specs.RuleBounds.{bounds_of};
ghost use Rattle.wire_msgs.specs.declared.note.FieldMark.TheVariants.{Applied, Reverted};
ghost use Rattle.wire_msgs.specs.declared.note.PartNote.TheVariants.{Commit as CommitNote};
ghost use Rattle.protocol.specs.Hear.{denial as denial_of, is_reverted, mark_of};
ghost use Rattle.protocol.specs.ParentActs.{denial_refused};
ghost use Rattle.parent_core.specs.Writes.{denied_from, denied_in_write, is_denied_from};
ghost use Rattle.parent_core.specs.Writes.{is_reverted_in, notes_with};

use field_rules::{Ask, Rules, denied};
use field_table::{Field, FieldSet, Fields, Verdict};
use fission_ids::{ContextId, Duplicate, OutOfMemory, ProcId, Seq};
use std::alloc::Global;
use transaction::Transaction;
use wire_msgs::{EndCause, FieldMark, FieldNote, PartNote, Refusal};

/// Which modified fields of a write of process p are reverted, where the context is top-level or not, and the
/// process owns it or not.
pub(crate) fn reverted_fields(
    rules: &Rules,
    p: ProcId,
    x: ContextId,
    top: bool,
    owns: bool,
    t: &Transaction,
) -> FieldSet
    ensures { result ≡ set_of (is_reverted_in (bounds_of rules.now) p.0 x top owns t.now) }
{
    let mut reverted = FieldSet::EMPTY;
    for f in Field::ALL {
        if is_reverted_in(rules, p, x, top, owns, t, f) {
            reverted = reverted.with(f);
        }
    }
    reverted
}

// Whether a field is modified and reverted.
fn is_reverted_in(
    rules: &Rules,
    p: ProcId,
    x: ContextId,
    top: bool,
    owns: bool,
    t: &Transaction,
    f: Field,
) -> bool
    ensures { result ≡ is_reverted_in (bounds_of rules.now) p.0 x top owns t.now f }
{
    match t.value(f) {
        None => false,
        Some(value) => !is_allowed(rules.judge(&Ask {
            field: f,
            value,
            context: x,
            top,
            window: None,
            from: Some(p),
            owner_is_sender: owns,
        })),
    }
}

fn is_allowed(verdict: Verdict) -> bool
    ensures { not result ≡ is_reverted (mark_of verdict) }
{
    match verdict {
        Verdict::Allow => true,
        Verdict::Deny | Verdict::Revert => false,
    }
}

/// What becomes of a commit of a context of which these fields are reverted.
pub(crate) fn judged_note(
    alloc: Global,
    x: ContextId,
    t: &Transaction,
    reverted: FieldSet,
) -> Result<PartNote, OutOfMemory>
    ensures { IfOk result (λ n. n ≡ CommitNote x (notes_with reverted t.now)) }
{
    Ok(PartNote::Commit(x, field_notes(alloc, t, reverted, &Field::ALL)?))
}

// What becomes of those of these fields that a commit modifies.
fn field_notes(
    alloc: Global,
    t: &Transaction,
    reverted: FieldSet,
    fields: &[Field],
) -> Result<Seq<FieldNote>, OutOfMemory>
    ensures { IfOk result (λ s. s ≡ map
        (λ fld. record { field = fld; mark = if has reverted fld then Reverted else Applied })
        (filter (λ fld. is_some (new_value t.now fld)) fields.now)) }
{
    let notes = fields
        .iter()
        .copied()
        .filter(|f| t.value(*f).is_some())
        .map(|field| FieldNote {
            field,
            mark: mark_in(reverted, field),
        })
        .collect(alloc)?;
    Ok(Seq::from_vec(notes))
}

// What becomes of a field that is modified.
fn mark_in(reverted: FieldSet, f: Field) -> FieldMark
    ensures { result ≡ (if has reverted f then Reverted else Applied) }
{
    if reverted.has(f) {
        FieldMark::Reverted
    } else {
        FieldMark::Applied
    }
}

/// A commit without some of its fields.
pub(crate) fn without(t: Transaction, s: FieldSet) -> Transaction
    ensures { result ≡ map (λ f. if has s f then None else new_value t f) all_fields }
{
    t.covers_each_field();
    let mut rest = t;
    let kept = rest.modified().minus(s);
    rest.keep(kept);
    rest
}

/// The values that a context has of the fields of a set.
pub(crate) fn values_of(fields: &Fields, s: FieldSet) -> Result<Transaction, OutOfMemory>
    ensures { IfOk result (λ t. t ≡
        map (λ f. if has s f then Some (value_in fields.now f) else None) all_fields) }
{
    let mut values = Transaction::new();
    for f in Field::ALL {
        if s.has(f) {
            values.set(f, fields.get(f).copy()?);
        }
    }
    Ok(values)
}

/// Whether nothing is modified.
pub(crate) fn is_empty(t: &Transaction) -> bool
    ensures { result ≡ not (list_any is_some t.now) }
{
    t.covers_each_field();
    t.modified() == FieldSet::EMPTY
}

/// Why the parent may not write so to a context, which is top-level or a frame, if it may not.
pub(crate) fn denial(x: ContextId, top: bool, t: &Transaction) -> Option<Refusal>
    ensures { result ≡ denial_refused (denied_in_write x top t.now) }
{
    let denied = denied_fields(None, x, top, false, t);
    if denied == FieldSet::EMPTY {
        None
    } else {
        Some(Refusal::Denied(denied))
    }
}

/// Why a commit of process p to a context, which is top-level or a frame, and which it owns or not, ends it,
/// if it may not write so.
pub(crate) fn denial_heard(
    p: ProcId,
    x: ContextId,
    top: bool,
    owns: bool,
    t: &Transaction,
) -> Option<EndCause>
    ensures { result ≡ denial_of x (denied_from (Some (record { 0 = p.0 })) x top owns t.now) }
{
    let fields = denied_fields(Some(p), x, top, owns, t);
    if fields == FieldSet::EMPTY {
        None
    } else {
        Some(EndCause::Denied { context: x, fields })
    }
}

// The modified fields that may not be written so, by a process or by the parent.
fn denied_fields(
    from: Option<ProcId>,
    x: ContextId,
    top: bool,
    owns: bool,
    t: &Transaction,
) -> FieldSet
    ensures { result ≡ set_of
        (λ f. is_some (new_value t.now f) && is_denied_from from x top owns t.now f) }
{
    let mut denied = FieldSet::EMPTY;
    for f in Field::ALL {
        if is_denied_in(from, x, top, owns, t, f) {
            denied = denied.with(f);
        }
    }
    denied
}

// Whether a field is modified, and may not be written so.
fn is_denied_in(
    from: Option<ProcId>,
    x: ContextId,
    top: bool,
    owns: bool,
    t: &Transaction,
    f: Field,
) -> bool
    ensures { result ≡ (is_some (new_value t.now f) && is_denied_from from x top owns t.now f) }
{
    match t.value(f) {
        None => false,
        Some(value) => denied(&Ask {
            field: f,
            value,
            context: x,
            top,
            window: None,
            from,
            owner_is_sender: owns,
        }),
    }
}
