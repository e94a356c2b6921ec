use context_tree::*;
use fission_ids::{ContextId, Duplicate};
use std::alloc::Global;
use std::test::Fail;

fn id(serial: u32) -> ContextId {
    ContextId { creator: 1, serial }
}

// 5 with the children 1 and 4, the first of which has the child 2; and 3 beside 5.
fn family(alloc: Global) -> Result<Tree, TreeFault> {
    let mut tree = Tree::new(alloc);
    tree.attach(None, id(5))?;
    tree.attach(Some(id(5)), id(1))?;
    tree.attach(Some(id(1)), id(2))?;
    tree.attach(None, id(3))?;
    tree.attach(Some(id(5)), id(4))?;
    Ok(tree)
}

#[test]
fn attached(rt: HostRuntime) -> Result<(), Fail> {
    let mut tree = family(rt.alloc())?;
    for (parent, x, answer) in [
        (None, 4, Err(TreeFault::Known)),
        (Some(id(9)), 4, Err(TreeFault::Known)),
        (Some(id(9)), 6, Err(TreeFault::NoParent)),
        (Some(id(2)), 6, Ok(())),
    ] {
        assert!(rt; tree.attach(parent, id(x)) == answer, "{x}");
    }
    let order = [id(3), id(5), id(1), id(2), id(6), id(4)];
    assert!(rt; tree.contexts() == order.as_slice());
    assert_eq!(rt; (tree.len(), tree.is_empty()), (6, false));
    Ok(())
}

#[test]
fn looked_up(rt: HostRuntime) -> Result<(), Fail> {
    let tree = family(rt.alloc())?;
    for (x, parent, top) in [
        (5, None, Some(id(5))),
        (2, Some(id(1)), Some(id(5))),
        (9, None, None),
    ] {
        assert_eq!(rt; (tree.parent(id(x)), tree.top(id(x))), (parent, top), "{x}");
        assert_eq!(rt; tree.holds(id(x)), top.is_some(), "{x}");
    }
    for (x, above, answer) in [(2, 1, true), (2, 2, true), (4, 1, false), (9, 9, false)] {
        assert_eq!(rt; tree.is_under(id(x), id(above)), answer, "{x} {above}");
    }
    Ok(())
}

#[test]
fn listed(rt: HostRuntime) -> Result<(), Fail> {
    let tree = family(rt.alloc())?;
    let children = tree.children(rt.alloc(), id(5))?;
    assert!(rt; children.as_slice() == [id(1), id(4)].as_slice());
    let subtree = tree.subtree(rt.alloc(), id(1))?;
    assert!(rt; subtree.as_slice() == [id(1), id(2)].as_slice());
    Ok(())
}

#[test]
fn detached(rt: HostRuntime) -> Result<(), Fail> {
    let tree = family(rt.alloc())?;
    let mut rest = tree.copy()?;
    let gone = rest.detach(id(5))?.unwrap_or(Vec::new(rt.alloc()));
    assert!(rt; gone.as_slice() == [id(5), id(1), id(2), id(4)].as_slice());
    assert!(rt; rest.contexts() == [id(3)].as_slice());
    assert!(rt; rest.detach(id(5))? == None);
    assert_eq!(rt; tree.len(), 5);
    Ok(())
}
