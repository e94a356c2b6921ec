use field_table::*;
use fission_ids::{Duplicate, Text};
use serde_json::Value as Json;
use std::alloc::{AllocError, Global};
use std::test::Fail;

// The name, the kind and the initial value of each field.
fn rows() -> [(&'static str, Kind, Value); 16] {
    let flag = |initial| Kind::Flag { initial };
    let number = |max, initial| Kind::Number { max, initial };
    let empty = || Value::Words(Text::empty());
    let max = 4_294_967_295;
    [
        ("Name", Kind::Words, empty()),
        ("Closed", flag(false), Value::Flag(false)),
        ("ExplicitActive", number(2, 2), Value::Number(2)),
        ("CurrentInnerWindowId", Kind::Window, Value::Number(0)),
        ("OpenerId", Kind::Context, Value::Number(0)),
        ("FullZoom", number(max, 100), Value::Number(100)),
        ("TextZoom", number(max, 100), Value::Number(100)),
        ("Muted", flag(false), Value::Flag(false)),
        ("MessageManagerGroup", Kind::Words, empty()),
        ("UserAgentOverride", Kind::Words, empty()),
        ("AllowContentRetargeting", flag(true), Value::Flag(true)),
        ("SandboxFlags", number(max, 0), Value::Number(0)),
        ("IsInBFCache", flag(false), Value::Flag(false)),
        ("Loading", flag(false), Value::Flag(false)),
        ("DefaultLoadFlags", number(max, 0), Value::Number(0)),
        ("DisplayMode", number(3, 0), Value::Number(0)),
    ]
}

#[test]
fn table_of_fields(rt: HostRuntime) {
    let fields = Fields::initial();
    for (i, (name, kind, initial)) in rows().into_iter().enumerate() {
        assert!(rt; i < Field::ALL.len());
        let field = Field::ALL[i];
        assert_eq!(rt; field.number(), i, "{name}");
        assert_eq!(rt; field.name(), name);
        assert_eq!(rt; Field::named(name), Some(field));
        assert_eq!(rt; field.kind(), kind, "{name}");
        assert!(rt; field.initial() == initial, "{name}");
        assert!(rt; *fields.get(field) == initial, "{name}");
    }
    assert_eq!(rt; Field::named("muted"), None);
}

#[test]
#[tactic(auto, unfolding(field_table::specs::Field::row))]
fn tables(rt: HostRuntime) -> Result<(), Fail> {
    let word = Value::Words(Text::of(rt.alloc(), "w")?);
    let mut fields = Fields::initial();
    fields.put(Field::Name, word.copy()?);
    fields.put(Field::Muted, Value::Flag(true));
    fields.put(Field::DisplayMode, Value::Number(3));
    let fields = fields.copy()?;
    assert!(rt; *fields.get(Field::Name) == word);
    assert!(rt; *fields.get(Field::Muted) == Value::Flag(true));
    assert!(rt; *fields.get(Field::DisplayMode) == Value::Number(3));
    for field in Field::ALL {
        let is_put = matches!(field, Field::Name | Field::Muted | Field::DisplayMode);
        let is_initial = *fields.get(field) == field.initial();
        assert!(rt; is_initial != is_put, "{}", field.name());
    }
    assert!(rt; word != Value::Words(Text::of(rt.alloc(), "V")?));
    assert!(rt; word != Value::Number(0));
    Ok(())
}

#[test]
fn sets_of_fields(rt: HostRuntime) -> Result<(), Fail> {
    let some = FieldSet::EMPTY.with(Field::Name).with(Field::Muted);
    let others = FieldSet::EMPTY.with(Field::Muted).with(Field::DisplayMode);
    for field in Field::ALL {
        let is_name = field == Field::Name;
        let left = some.union(others).minus(others).copy()?;
        assert_eq!(rt; left.has(field), is_name, "{}", field.name());
        assert_eq!(rt;
            some.without(Field::Muted).has(field),
            is_name,
            "{}",
            field.name()
        );
    }
    Ok(())
}

fn read(
    alloc: Global,
    field: Field,
    text: &str,
) -> Result<Result<Value, ValueFault>, serde_json::Error> {
    let json = Json::from_str(alloc, text)?;
    Ok(Value::read(alloc, field, &json))
}

#[test]
fn flags_that_are_read(rt: HostRuntime) -> Result<(), Fail> {
    for (text, want) in [("true", Ok(true)), ("1", Err(ValueFault::WrongKind))] {
        let got = read(rt.alloc(), Field::IsInBFCache, text)?;
        assert!(rt; got == want.map(Value::Flag), "{text}");
    }
    Ok(())
}

#[test]
fn numbers_that_are_read(rt: HostRuntime) -> Result<(), Fail> {
    let wrong = Err(ValueFault::WrongKind);
    let past = |n| Err(ValueFault::OutOfRange { n });
    for (field, text, want) in [
        (Field::ExplicitActive, "2", Ok(2)),
        (Field::ExplicitActive, "3", past(3)),
        (Field::DisplayMode, "4", past(4)),
        (Field::FullZoom, "4294967295", Ok(4_294_967_295)),
        (Field::FullZoom, "4294967296", past(4_294_967_296)),
        (Field::SandboxFlags, "18446744073709551616", wrong),
        (Field::TextZoom, "-1", wrong),
        (Field::TextZoom, "1.5", wrong),
        (Field::TextZoom, "null", wrong),
    ] {
        let got = read(rt.alloc(), field, text)?;
        assert!(rt; got == want.map(Value::Number), "{} {text}", field.name());
    }
    Ok(())
}

#[test]
fn ids_that_are_read(rt: HostRuntime) -> Result<(), Fail> {
    let wrong = Err(ValueFault::WrongKind);
    let past = |n| Err(ValueFault::OutOfRange { n });
    for (text, window, context) in [
        ("\"w1.1\"", Ok(4_294_967_297), wrong),
        ("\"c0.1\"", wrong, Ok(1)),
        ("\"c17.1\"", wrong, wrong),
        ("\"0\"", wrong, wrong),
        ("0", Ok(0), Ok(0)),
        ("1", past(1), past(1)),
        ("null", wrong, wrong),
    ] {
        let of_window = read(rt.alloc(), Field::CurrentInnerWindowId, text)?;
        let of_context = read(rt.alloc(), Field::OpenerId, text)?;
        assert!(rt; of_window == window.map(Value::Number), "{text}");
        assert!(rt; of_context == context.map(Value::Number), "{text}");
    }
    Ok(())
}

// The piece so many times, and the end.
fn repeated(alloc: Global, piece: &str, count: u32, end: &str) -> Result<String, AllocError> {
    let mut text = String::new(alloc);
    for _ in 0..count {
        text.push_str(piece)?;
    }
    text.push_str(end)?;
    Ok(text)
}

#[test]
fn texts_that_are_read(rt: HostRuntime) -> Result<(), Fail> {
    for (piece, count, end, too_long) in [
        ("a", 0, "", None),
        ("a", 65, "", Some(65)),
        ("é", 32, "", None),
        ("é", 32, "a", Some(65)),
    ] {
        let text = repeated(rt.alloc(), piece, count, end)?;
        let want = match too_long {
            None => Ok(Value::Words(Text::of(rt.alloc(), text.as_str())?)),
            Some(len) => Err(ValueFault::TooLong { len }),
        };
        let got = Value::read(rt.alloc(), Field::Name, &Json::String(text));
        assert!(rt; got == want, "{piece} {count}");
    }
    let got = read(rt.alloc(), Field::UserAgentOverride, "0")?;
    assert!(rt; got == Err(ValueFault::WrongKind));
    Ok(())
}
