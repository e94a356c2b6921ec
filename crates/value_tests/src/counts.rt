use epochs::*;
use field_table::{Field, FieldSet};
use fission_ids::{Duplicate, Epoch};
use std::test::Fail;

#[test]
fn clocks(rt: HostRuntime) -> Result<(), Fail> {
    let mut clock = Clock::new();
    assert_eq!(rt; clock.last(), Epoch(0));
    assert!(rt; clock.next() == Ok(Epoch(1)));
    assert!(rt; clock.copy()?.next() == Ok(Epoch(2)));
    assert_eq!(rt; clock.last(), Epoch(1));
    Ok(())
}

#[test]
fn own_writes(rt: HostRuntime) -> Result<(), Fail> {
    let muted = FieldSet::EMPTY.with(Field::Muted);
    let both = muted.with(Field::Name);
    let mut epochs = FieldEpochs::new();
    assert_eq!(rt; epochs.obsolete(both, Epoch(0)), FieldSet::EMPTY);
    epochs.mark(muted, Epoch(4));
    let epochs = epochs.copy()?;
    assert_eq!(rt; epochs.obsolete(both, Epoch(3)), muted);
    assert_eq!(rt; epochs.obsolete(both, Epoch(4)), FieldSet::EMPTY);
    Ok(())
}

#[test]
fn due_epochs(rt: HostRuntime) -> Result<(), Fail> {
    let first = BadEpoch {
        said: Epoch(3),
        due: Epoch(1),
    };
    let none = BadEpoch {
        said: Epoch(1),
        due: Epoch(0),
    };
    for (said, commit, answer, last) in [
        (3, true, Err(first), 0),
        (1, true, Ok(()), 1),
        (0, false, Ok(()), 0),
        (1, false, Err(none), 0),
    ] {
        let mut heard = Heard::new();
        assert!(rt;
            heard.note(Epoch(said), commit) == answer,
            "{said} {commit}"
        );
        assert_eq!(rt; heard.copy()?.last(), Epoch(last), "{said} {commit}");
    }
    Ok(())
}
