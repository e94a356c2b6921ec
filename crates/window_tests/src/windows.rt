use fission_ids::{ContextId, Duplicate, WindowId};
use std::alloc::Global;
use std::test::Fail;
use url::Url;
use window_global::*;

fn window(serial: u32) -> WindowId {
    WindowId { creator: 1, serial }
}

fn context(serial: u32) -> ContextId {
    ContextId { creator: 0, serial }
}

// Begins a window for a context, and tells whether it was made.
fn begins(alloc: Global, windows: &mut Windows, w: u32, x: u32, late: bool) -> Result<bool, Fail> {
    let url = Url::parse(alloc, "https://a.example/x")?;
    match windows.begin(window(w), context(x), url, late) {
        Ok(()) => Ok(true),
        Err(WindowFault::Known) => Ok(false),
        Err(fault) => Err(fault.into()),
    }
}

// Windows 1 and 2 for the context 1, of which the first has closed, 3 for the context 2, and 4, which was
// late, for the context 1.
fn four(alloc: Global) -> Result<Windows, Fail> {
    let mut windows = Windows::new(alloc);
    for (w, x, late) in [(1, 1, false), (2, 1, false), (3, 2, false), (4, 1, true)] {
        begins(alloc, &mut windows, w, x, late)?;
    }
    Ok(windows)
}

#[test]
fn begun(rt: HostRuntime) -> Result<(), Fail> {
    let mut windows = four(rt.alloc())?;
    for (w, is_open) in [(1, false), (2, true), (3, true), (4, false), (5, false)] {
        assert_eq!(rt; windows.is_live(window(w)), is_open, "{w}");
    }
    assert_eq!(rt; windows.live_of(context(1)), Some(window(2)));
    assert_eq!(rt; windows.live_of(context(3)), None);
    assert!(rt; !begins(rt.alloc(), &mut windows, 1, 2, false)?);
    assert_eq!(rt; windows.live_of(context(2)), Some(window(3)));
    Ok(())
}

#[test]
fn closed(rt: HostRuntime) -> Result<(), Fail> {
    let mut windows = four(rt.alloc())?;
    for (w, was_open) in [(2, true), (2, false), (4, false), (5, false)] {
        assert_eq!(rt; windows.close(window(w)), was_open, "{w}");
    }
    assert_eq!(rt; windows.live_of(context(1)), None);
    assert_eq!(rt; windows.context_of(window(2)), Some(context(1)));
    assert_eq!(rt; windows.context_of(window(5)), None);
    let address = windows.url(window(2)).map(|url| url.as_str());
    assert!(rt; address == Some("https://a.example/x"));
    Ok(())
}

#[test]
fn copied(rt: HostRuntime) -> Result<(), Fail> {
    let mut windows = four(rt.alloc())?;
    let copy = windows.copy()?;
    windows.close(window(3));
    assert!(rt; copy.is_live(window(3)) && !windows.is_live(window(3)));
    assert_eq!(rt; copy.rows().len(), 4);
    let row = copy.rows()[1].copy()?;
    assert_eq!(rt;
        (row.window, row.context, row.is_open),
        (window(2), context(1), true)
    );
    Ok(())
}
