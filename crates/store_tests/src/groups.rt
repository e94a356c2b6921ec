use context_group::*;
use fission_ids::{ContextId, Duplicate, GroupId, ProcId, ProcSet};
use std::test::Fail;

const CONTEXT: ContextId = ContextId {
    creator: 0,
    serial: 1,
};

#[test]
fn subscriptions(rt: HostRuntime) -> Result<(), Fail> {
    let mut groups = Groups::new(rt.alloc());
    assert!(rt; groups.begin() == Ok(GroupId(1)));
    assert!(rt; groups.begin() == Ok(GroupId(2)));
    assert_eq!(rt; groups.len(), 2);
    assert!(rt; groups.subscribe(ProcId(3), GroupId(2)));
    assert!(rt; !groups.subscribe(ProcId(3), GroupId(2)));
    assert_eq!(rt; groups.subscribers(GroupId(1)), ProcSet::EMPTY);
    assert_eq!(rt; groups.subscribers(GroupId(2)), ProcSet(8));
    assert_eq!(rt; groups.subscribers(GroupId(0)), ProcSet::EMPTY);
    assert!(rt; groups.is_kept(GroupId(2)));
    groups.drop_process(ProcId(3));
    assert_eq!(rt; groups.subscribers(GroupId(2)), ProcSet::EMPTY);
    assert!(rt; groups.is_kept(GroupId(1)));
    assert!(rt; !groups.is_kept(GroupId(2)));
    Ok(())
}

#[test]
fn acknowledgements(rt: HostRuntime) -> Result<(), Fail> {
    let mut groups = Groups::new(rt.alloc());
    assert!(rt; groups.begin() == Ok(GroupId(1)));
    groups.grow(GroupId(1));
    assert_eq!(rt; groups.live(GroupId(1)), 1);
    assert!(rt; groups.await_acks(GroupId(1), ProcSet(6), CONTEXT).is_ok());
    groups.shrink(GroupId(1));
    assert!(rt; groups.ack(ProcId(1), CONTEXT));
    assert!(rt; !groups.ack(ProcId(1), CONTEXT));
    assert!(rt; groups.is_awaited(ProcId(2), CONTEXT));
    let mut copy = groups.copy()?;
    assert!(rt; copy.is_kept(GroupId(1)));
    assert!(rt; copy.ack(ProcId(2), CONTEXT));
    assert!(rt; !copy.is_kept(GroupId(1)));
    Ok(())
}
