ghost use Rattle.actors.specs.Laws.{AnsweredQueriesAreHeldNoLonger, ClosedWindowsHoldNothing};
ghost use Rattle.actors.specs.Laws.{QueriesAreHeldOnce};

/// No call makes a query held twice.
pub fn queries_are_held_once()
    ensures { QueriesAreHeldOnce }
{}

/// A query that is answered is held no longer, and each other is held on the same window.
pub fn answered_queries_are_held_no_longer()
    ensures { AnsweredQueriesAreHeldNoLonger }
{}

/// On a window that closed nothing is held, and nothing that was asked is pending.
pub fn closed_windows_hold_nothing()
    ensures { ClosedWindowsHoldNothing }
{}
