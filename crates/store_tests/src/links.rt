use channels::*;
use std::test::Fail;

#[test]
fn items_keep_their_order(rt: HostRuntime) -> Result<(), Fail> {
    let mut link = Link::new(rt.alloc());
    assert!(rt; link.is_empty());
    link.send(1)?;
    link.send(2)?;
    assert_eq!(rt; link.len(), 2);
    assert_eq!(rt; link.take(), Some(1));
    link.send(3)?;
    assert_eq!(rt; link.take(), Some(2));
    assert_eq!(rt; link.take(), Some(3));
    assert_eq!(rt; link.take(), None);
    for item in 4..8 {
        link.send(item)?;
    }
    link.cut(2);
    assert_eq!(rt;
        (link.take(), link.take(), link.take()),
        (Some(4), Some(5), None)
    );
    Ok(())
}
