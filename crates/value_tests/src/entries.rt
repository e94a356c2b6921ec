use fission_ids::{Duplicate, ProcId};
use journal::*;
use std::test::Fail;
use wire_msgs::{Answer, Refusal};

#[test]
fn entries_stand_in_order(rt: HostRuntime) -> Result<(), Fail> {
    let mut journal = Journal::new(rt.alloc());
    for p in 0..3 {
        let step = Step::Take { p: ProcId(p) };
        journal.push(Entry {
            step: step.copy()?,
            answer: Answer::Refused(Refusal::Empty),
        })?;
    }
    assert!(rt;
        journal.newest().is_some_and(|entry| matches!(&entry.step, Step::Take { p } if p.0 == 2))
    );
    let mut takers = vec![in rt.alloc();]?;
    for entry in journal.entries() {
        match &entry.step {
            Step::Take { p } => takers.push(p.0)?,
            _ => {}
        }
    }
    assert_eq!(rt; takers.as_slice(), [0, 1, 2].as_slice());
    Ok(())
}
