ghost use Rattle.traces.specs.Laws.{ReplayShowsTheView, PointNeverFalls, ChangesBehindThePointWait};
ghost use Rattle.traces.specs.Laws.{ProjectionKeepsTheRules, QuietShowsTheParent, RevertTakenShowsTheParent};
ghost use Rattle.traces.specs.Laws.{RevertsWait, StageIsServed, ComingsBringTheValue};
ghost use Rattle.traces.specs.Runs.{WorkedRuns};

/// A process shows of a field its newest own write not yet answered, else the parent's value at the point;
/// and it shows something exactly while it holds the context.
pub fn replay_shows_the_view<V>()
    ensures { ReplayShowsTheView V }
{}

/// The base and the point never fall from one event to the next.
pub fn point_never_falls<V>()
    ensures { PointNeverFalls V }
{}

/// With both links empty, a process that wasn't ended shows the parent's value.
pub fn quiet_shows_the_parent<V>()
    ensures { QuietShowsTheParent V }
{}

/// The take of the bundle that reverts the newest own write shows the parent's value at the entry that sent
/// it.
pub fn revert_taken_shows_the_parent<V>()
    ensures { RevertTakenShowsTheParent V }
{}

/// A reverted own write that isn't answered has its revert in the waiting bundle of its entry.
pub fn reverts_wait<V>()
    ensures { RevertsWait V }
{}

/// Where nothing waits to be taken, a process that wasn't ended has the context in the stage that the parent
/// serves: held, gone for good, or not there (it had not come, or was left).
pub fn stage_is_served<V>()
    ensures { StageIsServed V }
{}

/// Where a context hasn't come to a process that wasn't ended, or was left by it, and the parent serves it,
/// what waits to be taken brings it with the parent's value.
pub fn comings_bring_the_value<V>()
    ensures { ComingsBringTheValue V }
{}

/// The worked runs keep the rules, and show what they are said to show.
pub fn worked_runs()
    ensures { WorkedRuns }
{}

/// A change of others behind the point stands in a waiting bundle, unless a removal of the context or a leave
/// waits.
pub fn changes_behind_the_point_wait<V>()
    ensures { ChangesBehindThePointWait V }
{}

/// The trace of a field, got from a process's events by looking into contents, keeps the rules of links and
/// entries where the events do, if no entry that heard a write changes the field by what it sends; and what
/// waits on its links is what waits on the process's, looked into.
pub fn projection_keeps_the_rules<W, B, V>()
    ensures { ProjectionKeepsTheRules W B V }
{}
