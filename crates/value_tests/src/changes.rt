use field_table::{Field, FieldSet, Fields, Value};
use fission_ids::{Duplicate, Text};
use std::test::Fail;
use transaction::*;

#[test]
#[tactic(auto, unfolding(field_table::specs::Field::row))]
fn applies_what_it_modifies(rt: HostRuntime) -> Result<(), Fail> {
    let word = Value::Words(Text::of(rt.alloc(), "tab")?);
    let mut change = Transaction::new();
    change.set(Field::Muted, Value::Flag(false));
    change.set(Field::Muted, Value::Flag(true));
    change.set(Field::Name, word.copy()?);
    change.set(Field::DisplayMode, Value::Number(1));
    let change = change.copy()?;
    assert!(rt; change.value(Field::Muted) == Some(&Value::Flag(true)));
    assert!(rt; change.value(Field::Loading).is_none());
    let mut fields = Fields::initial();
    fields.put(Field::FullZoom, Value::Number(50));
    fields.put(Field::DisplayMode, Value::Number(2));
    change.apply(&mut fields);
    assert!(rt; *fields.get(Field::Name) == word);
    assert!(rt; *fields.get(Field::Muted) == Value::Flag(true));
    assert!(rt; *fields.get(Field::FullZoom) == Value::Number(50));
    assert!(rt; *fields.get(Field::DisplayMode) == Value::Number(1));
    assert!(rt; *fields.get(Field::TextZoom) == Value::Number(100));
    Ok(())
}

#[test]
#[tactic(auto, unfolding(field_table::specs::Field::row))]
fn keeps_and_splits(rt: HostRuntime) -> Result<(), Fail> {
    let mut change = Transaction::new();
    change.set(Field::Closed, Value::Flag(true));
    change.set(Field::Muted, Value::Flag(true));
    change.set(Field::DisplayMode, Value::Number(0));
    let closed = FieldSet::EMPTY.with(Field::Closed);
    let muted = FieldSet::EMPTY.with(Field::Muted);
    let mode = FieldSet::EMPTY.with(Field::DisplayMode);
    assert_eq!(rt; change.modified(), closed.union(muted).union(mode));
    let mut kept = change.copy()?;
    kept.keep(muted.with(Field::IsInBFCache));
    assert_eq!(rt; kept.modified(), muted);
    assert!(rt; kept.value(Field::Muted) == Some(&Value::Flag(true)));
    assert!(rt; kept.value(Field::Closed).is_none());
    let split = kept.split(FieldSet::EMPTY, muted).copy()?;
    assert_eq!(rt; split.denied, muted);
    assert_eq!(rt; split.allowed.modified(), FieldSet::EMPTY);
    Ok(())
}
