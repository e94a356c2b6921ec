use fission_ids::*;
use std::alloc::Global;
use std::test::Fail;

#[test]
fn lists(rt: HostRuntime) -> Result<(), Fail> {
    let mut list = Seq::new(rt.alloc());
    assert!(rt; list.is_empty());
    list.push(ProcId(3))?;
    list.push(ProcId(5))?;
    let copy = Seq::from_vec(list.copy()?.into_vec());
    assert_eq!(rt; copy.len(), 2);
    assert_eq!(rt; copy.as_slice(), [ProcId(3), ProcId(5)].as_slice());
    Ok(())
}

#[test]
fn texts(rt: HostRuntime) -> Result<(), Fail> {
    let text = Text::of(rt.alloc(), "é")?.copy()?;
    assert_eq!(rt; text.as_str(), "é");
    assert!(rt; text != Text::empty());
    Ok(())
}

#[test]
fn values_behind_a_pointer(rt: HostRuntime) -> Result<(), Fail> {
    let shared = Shared::of(vec![in rt.alloc(); ProcId(3)]?)?.copy()?;
    assert_eq!(rt; shared.as_slice(), [ProcId(3)].as_slice());
    let kept = Kept::of(rt.alloc(), Epoch(4))?.copy()?;
    assert_eq!(rt; *kept.get(), Epoch(4));
    assert_eq!(rt; kept.into_inner(), Epoch(4));
    Ok(())
}

#[test]
fn sets_of_processes(rt: HostRuntime) {
    let set = ProcSet::EMPTY.with(ProcId(3)).with(ProcId(15));
    for p in 0..16 {
        assert_eq!(rt; set.has(ProcId(p)), p == 3 || p == 15, "at {p}");
    }
    assert_eq!(rt; set.without(ProcId(15)), ProcSet::EMPTY.with(ProcId(3)));
}

// Whether a text reads as an id, which prints as the text.
fn is_id(alloc: Global, text: &str) -> Result<bool, OutOfMemory> {
    if let Some(context) = ContextId::parse(text) {
        return Ok(context.print(alloc)?.as_str() == text);
    }
    if let Some(window) = WindowId::parse(text) {
        return Ok(window.print(alloc)?.as_str() == text);
    }
    if let Some(query) = QueryId::parse(text) {
        return Ok(query.print(alloc)?.as_str() == text);
    }
    match GroupId::parse(text) {
        None => Ok(false),
        Some(group) => Ok(group.print(alloc)?.as_str() == text),
    }
}

#[test]
fn texts_of_ids(rt: HostRuntime) -> Result<(), Fail> {
    for text in ["c16.4294967295", "w3.2", "q1.20", "g4294967295"] {
        assert!(rt; is_id(rt.alloc(), text)?, "{text}");
    }
    for text in ["c17.1", "w1.0", "q00.1", "g1.1"] {
        assert!(rt; !is_id(rt.alloc(), text)?, "{text}");
    }
    Ok(())
}

#[test]
fn numbers_of_ids(rt: HostRuntime) {
    let (context, window) = (
        ContextId {
            creator: 16,
            serial: u32::MAX,
        },
        WindowId {
            creator: 1,
            serial: 1,
        },
    );
    assert_eq!(rt; context.number(), 73_014_444_031);
    assert_eq!(rt; ContextId::of_number(73_014_444_031), Some(context));
    assert_eq!(rt; window.number(), 4_294_967_297);
    assert_eq!(rt; WindowId::of_number(4_294_967_297), Some(window));
    assert_eq!(rt; ContextId::of_number(4_294_967_296), None);
}

fn copies<T: Duplicate + PartialEq + Drop>(value: T) -> Result<bool, OutOfMemory> {
    Ok(value.copy()? == value)
}

#[test]
fn copies_are_equal(rt: HostRuntime) -> Result<(), Fail> {
    let id = AnyId::Query(QueryId {
        creator: 1,
        serial: 3,
    });
    assert!(rt; copies(id)? && copies(GroupId(4))? && copies(Epoch(9))? && copies(Why::Group)?);
    let copy = Some(Outcome::Rejected(Text::of(rt.alloc(), "no")?)).copy()?;
    let is_rejected = match &copy {
        Some(Outcome::Rejected(text)) => text.as_str() == "no",
        _ => false,
    };
    assert!(rt; is_rejected);
    Ok(())
}
