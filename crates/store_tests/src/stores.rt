use context_store::*;
use field_table::{Field, FieldSet, Fields, Value};
use fission_ids::{ContextId, Duplicate, Epoch, OutOfMemory};
use std::alloc::Global;
use std::test::Fail;
use transaction::Transaction;

const X: ContextId = ContextId {
    creator: 0,
    serial: 1,
};

#[tactic(auto, unfolding(field_table::specs::Field::row))]
fn mode(n: u64) -> Transaction {
    let mut t = Transaction::new();
    t.set(Field::DisplayMode, Value::Number(n));
    t
}

#[tactic(auto, unfolding(field_table::specs::Field::row))]
fn mode_and_closed(n: u64) -> Transaction {
    let mut t = mode(n);
    t.set(Field::Closed, Value::Flag(true));
    t
}

fn row(alloc: Global) -> Result<Vec<StoreOp>, OutOfMemory> {
    Ok(vec![in alloc;
        StoreOp::Add(X, Fields::initial()),
        StoreOp::Add(X, Fields::initial()),
        StoreOp::Commit(X, mode(2), Some(Epoch(4))),
        StoreOp::Overlay(X, mode_and_closed(1), Epoch(3)),
        StoreOp::Get(X, Field::DisplayMode),
        StoreOp::Remove(X),
        StoreOp::Get(X, Field::DisplayMode),
    ]?)
}

fn answers(alloc: Global) -> Result<Vec<StoreReply>, OutOfMemory> {
    Ok(vec![in alloc;
        StoreReply::Added,
        StoreReply::Present,
        StoreReply::Committed(true),
        StoreReply::Overlaid(Some(FieldSet::EMPTY.with(Field::DisplayMode))),
        StoreReply::Got(Some(Value::Number(2))),
        StoreReply::Removed(true),
        StoreReply::Got(None),
    ]?)
}

// Copies of the items.
fn copies<T: Duplicate + Drop>(alloc: Global, items: &[T]) -> Result<Vec<T>, OutOfMemory> {
    let mut copies = Vec::new(alloc);
    for item in items {
        copies.push(item.copy()?)?;
    }
    Ok(copies)
}

// Whether the row has its answers at an empty store.
fn answers_row<S: Store + Drop>(alloc: Global, mut store: S) -> Result<bool, OutOfMemory> {
    let ops = copies(alloc, row(alloc)?.as_slice())?;
    let want = copies(alloc, answers(alloc)?.as_slice())?;
    let got = run_ops(alloc, &mut store, ops)?;
    Ok(got.as_slice() == want.as_slice())
}

// Whether a copy of an empty store, to which a context is added, is a store by itself.
fn is_copied<S: Store + Duplicate + Drop>(
    alloc: Global,
    mut store: S,
) -> Result<bool, OutOfMemory> {
    run_ops(
        alloc,
        &mut store,
        vec![in alloc; StoreOp::Add(X, Fields::initial())]?,
    )?;
    let copy = store.copy()?;
    let is_removed = store.remove(X);
    Ok(is_removed && store.get(X).is_none() && copy.get(X).is_some())
}

#[test]
fn row_at_a_list(rt: HostRuntime) -> Result<(), Fail> {
    assert!(rt; answers_row(rt.alloc(), ListStore::new(rt.alloc()))?);
    Ok(())
}

#[test]
fn row_at_a_slab(rt: HostRuntime) -> Result<(), Fail> {
    assert!(rt; answers_row(rt.alloc(), SlabStore::new(rt.alloc()))?);
    Ok(())
}

#[test]
fn copies_of_stores(rt: HostRuntime) -> Result<(), Fail> {
    assert!(rt; is_copied(rt.alloc(), ListStore::new(rt.alloc()))?);
    assert!(rt; is_copied(rt.alloc(), SlabStore::new(rt.alloc()))?);
    others_stay();
    Ok(())
}
