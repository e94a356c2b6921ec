use fission_ids::{Duplicate, OutOfMemory, Outcome, QueryId, Text, WindowId};
use queries::*;
use std::alloc::Global;
use std::test::Fail;

fn window(serial: u32) -> WindowId {
    WindowId { creator: 2, serial }
}

fn id(creator: u8, serial: u32) -> QueryId {
    QueryId { creator, serial }
}

// How a query stands, as a view tells it.
fn told(table: &QueryTable, q: QueryId) -> &str {
    match table.state(q) {
        None => "none",
        Some(QState::Pending) => "pending",
        Some(QState::Settled(Outcome::Resolved(text))) => text.as_str(),
        Some(QState::Settled(Outcome::Rejected(_))) => "rejected",
        Some(QState::Settled(Outcome::Aborted)) => "aborted",
    }
}

// Queries of process 1 on the windows 1, 2 and 1.
fn three(alloc: Global) -> Result<QueryTable, OutOfMemory> {
    let mut table = QueryTable::new(alloc, 2);
    table.ask(window(1), Text::of(alloc, "Form")?)?;
    table.ask(window(2), Text::of(alloc, "Find")?)?;
    table.ask(window(1), Text::empty())?;
    Ok(table)
}

#[test]
fn rows_by_serial(rt: HostRuntime) -> Result<(), Fail> {
    let mut table = QueryTable::new(rt.alloc(), 0);
    let query = table.ask(window(1), Text::empty())?;
    assert!(rt; query == id(0, 1));
    let table = three(rt.alloc())?;
    assert_eq!(rt; table.rows().len(), 3);
    for (row, (serial, on, actor)) in table
        .rows()
        .iter()
        .zip([(1, 1, "Form"), (2, 2, "Find"), (3, 1, "")])
    {
        assert!(rt;
            (row.query, row.window) == (id(2, serial), window(on)),
            "{serial}"
        );
        assert!(rt; row.actor.as_str() == actor, "{serial}");
    }
    Ok(())
}

#[test]
fn settled_once(rt: HostRuntime) -> Result<(), Fail> {
    let mut table = three(rt.alloc())?;
    let hi = Outcome::Resolved(Text::of(rt.alloc(), "hi")?);
    assert!(rt; table.settle(id(2, 1), hi));
    for (creator, serial) in [(2, 1), (2, 4), (0, 2), (2, 0)] {
        let answer = table.settle(id(creator, serial), Outcome::Rejected(Text::empty()));
        assert!(rt; !answer, "{creator} {serial}");
    }
    for (creator, serial, state) in [
        (2, 1, "hi"),
        (2, 2, "pending"),
        (0, 2, "none"),
        (2, 0, "none"),
    ] {
        assert!(rt;
            told(&table, id(creator, serial)) == state,
            "{creator} {serial}"
        );
    }
    Ok(())
}

#[test]
fn aborted_by_window(rt: HostRuntime) -> Result<(), Fail> {
    let mut table = three(rt.alloc())?;
    table.settle(id(2, 1), Outcome::Rejected(Text::empty()));
    let before = table.copy()?;
    table.abort_all(window(1));
    for (serial, was, is) in [
        (1, "rejected", "rejected"),
        (2, "pending", "pending"),
        (3, "pending", "aborted"),
    ] {
        assert!(rt; told(&before, id(2, serial)) == was, "{serial}");
        assert!(rt; told(&table, id(2, serial)) == is, "{serial}");
    }
    assert!(rt; !table.settle(id(2, 3), Outcome::Rejected(Text::empty())));
    Ok(())
}
