ghost use Rattle.window_global.specs.Laws.{CallsConcernOneContext, ClosedWindowsStayClosed};
ghost use Rattle.window_global.specs.Laws.{ContextsHaveOneOpenWindow, OpenWindowsAreShown};

/// Each window is made once, and each context has at most one that is open, behind each call.
pub fn contexts_have_one_open_window()
    ensures { ContextsHaveOneOpenWindow }
{}

/// The open window of a context is one exactly where that one is open and was made for the context.
pub fn open_windows_are_shown()
    ensures { OpenWindowsAreShown }
{}

/// A window that has closed never opens again.
pub fn closed_windows_stay_closed()
    ensures { ClosedWindowsStayClosed }
{}

/// A window that begins and isn't late is the open one of its context, one that closes isn't, and the open
/// windows of all other contexts stay.
pub fn calls_concern_one_context()
    ensures { CallsConcernOneContext }
{}
