ghost use Rattle.std.specs.Prelude.{◌<◌, ◌^◌, length};

use actor_registry::*;
use fission_ids::{Duplicate, Seq, Text, Why};
use match_pattern::Pattern;
use std::alloc::Global;
use std::test::Fail;
use url::Url;

// A list of one text, or of none where it is empty.
fn texts(alloc: Global, text: &str) -> Result<Seq<Text>, Fail> {
    let mut list = Seq::new(alloc);
    if !text.is_empty() {
        list.push(Text::of(alloc, text)?)?;
    }
    Ok(list)
}

// A list of one pattern, or of none where its text is empty.
fn patterns(alloc: Global, text: &str) -> Result<Seq<Pattern>, Fail>
    requires { length text.now < 2 ^ 32 }
{
    let mut list = Seq::new(alloc);
    if !text.is_empty() {
        list.push(Pattern::read(alloc, text)?)?;
    }
    Ok(list)
}

// Registers an actor for at most one remote type, one group and one pattern.
fn add(
    alloc: Global,
    registry: &mut Registry,
    name: &str,
    remote_type: &str,
    group: &str,
    pattern: &str,
) -> Result<Option<RegisterFault>, Fail>
    requires { length pattern.now < 2 ^ 32 }
{
    let entry = Entry {
        name: Text::of(alloc, name)?,
        all_frames: false,
        remote_types: texts(alloc, remote_type)?,
        groups: texts(alloc, group)?,
        matches: patterns(alloc, pattern)?,
        on_parent: Mode::Echo,
        on_child: Mode::Hold,
    };
    Ok(registry.register(entry).err())
}

// Five actors: one without a restriction, one for each kind of list, and one for two kinds.
fn five(alloc: Global) -> Result<Registry, Fail> {
    let mut registry = Registry::new(alloc);
    for (name, remote_type, group, pattern) in [
        ("B", "", "", ""),
        ("C", "privilegedabout", "", ""),
        ("D", "", "x", ""),
        ("E", "", "", "https://b.example/*"),
        ("F", "web", "", "https://*.example/*"),
    ] {
        let _ = add(alloc, &mut registry, name, remote_type, group, pattern)?;
    }
    Ok(registry)
}

#[test]
fn the_first_failing_check_is_told(rt: HostRuntime) -> Result<(), Fail> {
    let registry = five(rt.alloc())?;
    let url = Url::parse(rt.alloc(), "https://a.example/")?;
    for (name, top, want) in [
        ("Z", true, Err(Why::Unregistered)),
        ("B", false, Err(Why::Subframe)),
        ("C", true, Err(Why::RemoteType)),
        ("D", true, Err(Why::Group)),
        ("E", true, Err(Why::Address)),
        ("F", true, Ok(())),
    ] {
        let facts = Facts {
            top,
            remote: "webIsolated=https://a.example",
            group: "",
            url: &url,
        };
        assert!(rt; registry.admits(name, &facts) == want, "{name}");
    }
    Ok(())
}

#[test]
fn names_are_registered_once(rt: HostRuntime) -> Result<(), Fail> {
    let mut registry = five(rt.alloc())?.copy()?;
    assert_eq!(rt;
        add(rt.alloc(), &mut registry, "B", "", "", "")?,
        Some(RegisterFault::Taken)
    );
    assert_eq!(rt; registry.len(), 5);
    assert!(rt; registry.entry("C").is_some());
    assert!(rt; registry.at(4).is_some());
    assert!(rt; registry.at(5).is_none());
    Ok(())
}

// Registers so many actors more, and tells the last answer.
fn add_many(
    alloc: Global,
    registry: &mut Registry,
    count: u8,
) -> Result<Option<RegisterFault>, Fail> {
    let mut answer = None;
    for n in 0..count {
        let name = format!(in alloc; "{n}")?;
        answer = add(alloc, registry, name.as_str(), "", "", "")?;
    }
    Ok(answer)
}

#[test]
fn at_most_64_are_registered(rt: HostRuntime) -> Result<(), Fail> {
    let mut registry = Registry::new(rt.alloc());
    assert_eq!(rt; add_many(rt.alloc(), &mut registry, 64)?, None);
    assert_eq!(rt;
        add(rt.alloc(), &mut registry, "A", "", "", "")?,
        Some(RegisterFault::TooMany)
    );
    Ok(())
}
