ghost use Rattle.std.specs.Prelude.{◌≡◌, ◌≤◌, ℕ, length, take, IfOk, OnErr, OnOk};
ghost use Rattle.context_store.specs.Ops.{content_after, content_behind, replies, reply_to};

use crate::store::Store;
use field_table::{Field, FieldSet, Fields, Value};
use fission_ids::{ContextId, Duplicate, Epoch, OutOfMemory};
use std::alloc::Global;
use transaction::Transaction;

/// An operation of a store.
#[derive(Debug, Drop)]
pub enum StoreOp {
    /// Tells the value of a field of a context.
    Get(ContextId, Field),
    /// Adds a context with these fields, if it isn't there.
    Add(ContextId, Fields),
    /// Takes a context away.
    Remove(ContextId),
    /// Applies a transaction, and marks the modified fields where an epoch is given.
    Commit(ContextId, Transaction, Option<Epoch>),
    /// Applies what of a transaction isn't obsolete at an epoch.
    Overlay(ContextId, Transaction, Epoch),
}

impl Duplicate for StoreOp {
    fn copy(&self) -> Result<StoreOp, OutOfMemory> {
        match self {
            StoreOp::Get(x, f) => Ok(StoreOp::Get(*x, *f)),
            StoreOp::Add(x, fields) => Ok(StoreOp::Add(*x, fields.copy()?)),
            StoreOp::Remove(x) => Ok(StoreOp::Remove(*x)),
            StoreOp::Commit(x, t, e) => Ok(StoreOp::Commit(*x, t.copy()?, *e)),
            StoreOp::Overlay(x, t, e) => Ok(StoreOp::Overlay(*x, t.copy()?, *e)),
        }
    }
}

/// What a store answers to an operation.
#[derive(Debug, PartialEq, Eq, Drop)]
pub enum StoreReply {
    /// The value, or None where the context isn't there.
    Got(Option<Value>),
    /// The context was added.
    Added,
    /// The context that was to be added is there already, and stays as it is.
    Present,
    /// Whether the context was there, and is no more.
    Removed(bool),
    /// Whether the context is there, and has the transaction.
    Committed(bool),
    /// The obsolete fields, or None where the context isn't there.
    Overlaid(Option<FieldSet>),
}

impl Duplicate for StoreReply {
    fn copy(&self) -> Result<StoreReply, OutOfMemory> {
        match self {
            StoreReply::Got(value) => Ok(StoreReply::Got(value.copy()?)),
            StoreReply::Added => Ok(StoreReply::Added),
            StoreReply::Present => Ok(StoreReply::Present),
            StoreReply::Removed(was_there) => Ok(StoreReply::Removed(*was_there)),
            StoreReply::Committed(is_there) => Ok(StoreReply::Committed(*is_there)),
            StoreReply::Overlaid(obsolete) => Ok(StoreReply::Overlaid(*obsolete)),
        }
    }
}

/// Runs operations on a store, one after the other, and gives the answer to each. Where memory is wanting,
/// the first of them stay done.
pub fn run_ops<S: Store>(
    alloc: Global,
    store: &mut S,
    ops: Vec<StoreOp>,
) -> Result<Vec<StoreReply>, OutOfMemory>
    ensures answers { IfOk result (λ v. v.items ≡ replies ops.items (S.content store.old)) }
    ensures content { OnOk result (S.content store.new ≡ content_after ops.items (S.content store.old)) }
    ensures stopped { OnErr result ((n : ℕ) × (n ≤ length ops.items)
        × (S.content store.new ≡ content_after (take n ops.items) (S.content store.old))) }
{
    let mut replies = Vec::with_capacity(alloc, ops.len())?;
    for op in ops {
        replies.push(run_op(store, op)?)?;
    }
    Ok(replies)
}

// Runs one operation, and answers it. Where memory is wanting, it isn't done.
fn run_op<S: Store>(store: &mut S, op: StoreOp) -> Result<StoreReply, OutOfMemory>
    ensures reply { IfOk result (λ r. r ≡ reply_to op (S.content store.old)) }
    ensures content { OnOk result (S.content store.new ≡ content_behind op (S.content store.old)) }
    ensures err { OnErr result (S.content store.new ≡ S.content store.old) }
{
    match op {
        StoreOp::Get(x, f) => Ok(StoreReply::Got(value_at(store, x, f)?)),
        StoreOp::Add(x, fields) => add_new(store, x, fields),
        StoreOp::Remove(x) => Ok(StoreReply::Removed(store.remove(x))),
        StoreOp::Commit(x, t, e) => Ok(StoreReply::Committed(store.commit(x, t, e))),
        StoreOp::Overlay(x, t, e) => Ok(StoreReply::Overlaid(store.overlay(x, t, e))),
    }
}

// A copy of the value of a field, where the context is there.
fn value_at<S: Store>(store: &S, x: ContextId, f: Field) -> Result<Option<Value>, OutOfMemory>
    ensures { IfOk result (λ v. StoreReply.Got v ≡ reply_to (StoreOp.Get x f) (S.content store.now)) }
{
    match store.get(x) {
        None => Ok(None),
        Some(fields) => Ok(Some(fields.get(f).copy()?)),
    }
}

// Adds a context, if it isn't there.
fn add_new<S: Store>(store: &mut S, x: ContextId, fields: Fields) -> Result<StoreReply, OutOfMemory>
    ensures reply { IfOk result (λ r. r ≡ reply_to (StoreOp.Add x fields) (S.content store.old)) }
    ensures content { OnOk result
        (S.content store.new ≡ content_behind (StoreOp.Add x fields) (S.content store.old)) }
    ensures err { OnErr result (S.content store.new ≡ S.content store.old) }
{
    if store.get(x).is_some() {
        return Ok(StoreReply::Present);
    }
    store.add(x, fields)?;
    Ok(StoreReply::Added)
}
