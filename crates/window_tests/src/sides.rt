use actor_registry::Mode;
use actors::*;
use fission_ids::{Duplicate, OutOfMemory, Outcome, QueryId, Text, WindowId};
use queries::QState;
use std::alloc::Global;
use std::test::Fail;

const W: WindowId = WindowId {
    creator: 1,
    serial: 1,
};

const V: WindowId = WindowId {
    creator: 1,
    serial: 2,
};

fn query(serial: u32) -> QueryId {
    QueryId { creator: 0, serial }
}

// A side that receives a query with the text `hi`, and how it reacts: by the first letter of a reply's text,
// and else by a sign.
fn reacts(
    alloc: Global,
    actors: &mut Actors,
    q: u32,
    w: WindowId,
    mode: Mode,
) -> Result<char, OutOfMemory> {
    let text = Text::of(alloc, "hi")?;
    Ok(match actors.receive(query(q), w, text, mode, true)? {
        Reaction::Reply(text) if text.as_str() == "hi" => 'r',
        Reaction::Reject(text) if text.as_str() == "hi" => 'x',
        Reaction::Hold => 'h',
        Reaction::Ignore => 'i',
        _ => '?',
    })
}

// A side that holds the queries 1 and 3 on one window, and 2 on another.
fn holding(alloc: Global) -> Result<Actors, OutOfMemory> {
    let mut actors = Actors::new(alloc, 0);
    for (q, w) in [(1, W), (2, V), (3, W)] {
        reacts(alloc, &mut actors, q, w, Mode::Hold)?;
    }
    Ok(actors)
}

#[test]
fn received(rt: HostRuntime) -> Result<(), Fail> {
    let mut actors = holding(rt.alloc())?;
    for (q, mode, want) in [
        (4, Mode::Echo, 'r'),
        (5, Mode::Reject, 'x'),
        (6, Mode::Hold, 'h'),
        (6, Mode::Echo, 'i'),
        (1, Mode::Hold, 'i'),
    ] {
        assert_eq!(rt; reacts(rt.alloc(), &mut actors, q, V, mode)?, want, "{q}");
    }
    let held = [(query(1), W), (query(2), V), (query(3), W), (query(6), V)];
    assert!(rt; actors.held() == held.as_slice());
    Ok(())
}

#[test]
fn copied(rt: HostRuntime) -> Result<(), Fail> {
    let reply = Reaction::Reply(Text::of(rt.alloc(), "hi")?).copy()?;
    let is_equal = match &reply {
        Reaction::Reply(text) => text.as_str() == "hi",
        _ => false,
    };
    assert!(rt; is_equal);
    Ok(())
}

// The sign of a query that is asked, or none where it was never asked.
fn sign(actors: &Actors, q: QueryId) -> char {
    match actors.queries().state(q) {
        None => '-',
        Some(QState::Pending) => 'p',
        Some(QState::Settled(Outcome::Resolved(_))) => 'r',
        Some(QState::Settled(Outcome::Rejected(_))) => 'x',
        Some(QState::Settled(Outcome::Aborted)) => 'a',
    }
}

#[test]
fn asked(rt: HostRuntime) -> Result<(), Fail> {
    let mut actors = Actors::new(rt.alloc(), 3);
    let first = actors.ask(W, "Find")?;
    let second = actors.ask(V, "Find")?;
    let third = actors.ask(V, "Ads")?;
    assert_eq!(rt; (third.creator, third.serial), (3, 3));
    let resolved = Outcome::Resolved(Text::of(rt.alloc(), "hi")?);
    assert!(rt; actors.reply(second, resolved) && !actors.reply(second, Outcome::Aborted));
    actors.teardown(V);
    assert!(rt;
        !actors.reply(third, Outcome::Aborted) && !actors.reply(query(4), Outcome::Aborted)
    );
    for (q, want) in [(first, 'p'), (second, 'r'), (third, 'a'), (query(4), '-')] {
        assert_eq!(rt; sign(&actors, q), want);
    }
    Ok(())
}

#[test]
fn answered(rt: HostRuntime) -> Result<(), Fail> {
    let mut actors = holding(rt.alloc())?;
    for (q, want) in [(2, Some(V)), (2, None), (7, None), (3, Some(W))] {
        assert_eq!(rt; actors.answer(query(q)), want, "{q}");
    }
    assert!(rt; actors.held() == [(query(1), W)].as_slice());
    Ok(())
}

#[test]
fn closed(rt: HostRuntime) -> Result<(), Fail> {
    let mut actors = holding(rt.alloc())?;
    let copy = actors.copy()?;
    actors.teardown(W);
    assert!(rt; actors.held() == [(query(2), V)].as_slice());
    assert_eq!(rt; actors.answer(query(1)), None);
    assert_eq!(rt; copy.held().len(), 3);
    Ok(())
}

#[test]
fn told(rt: HostRuntime) -> Result<(), Fail> {
    let mut actors = Actors::new(rt.alloc(), 0);
    actors.told(W, "Find", Text::of(rt.alloc(), "top")?)?;
    let copy = actors.copy()?;
    let (w, actor, text) = &copy.inbox()[0];
    assert!(rt; *w == W && actor.as_str() == "Find" && text.as_str() == "top");
    assert_eq!(rt; copy.inbox().len(), 1);
    Ok(())
}
