ghost use Rattle.trees.specs.Laws.{QuietHoldsWhatIsLive, UntoldHoldsNothing, QuietChildrenAreTheParents};
ghost use Rattle.trees.specs.Laws.{ChildrenHaveOneOwner, QuietOwnersAreTheParents, OwnIdsAreGood};
ghost use Rattle.trees.specs.Laws.{DropsAreAllowed, ComingsAreBelowTheHeld, KnownHasCome};
ghost use Rattle.trees.specs.Laws.{MissingIsOnItsWay, ComingsBringTheOwner, TopsComeOnce, HeardIsTold};
ghost use Rattle.trees.specs.Laws.{UntoldMadeNothing};
ghost use Rattle.trees.specs.Runs.{WorkedRun};

/// With both links empty, a process that is told of the group has exactly the contexts that are live in the
/// parent.
pub fn quiet_holds_what_is_live<X, W, B>()
    ensures { QuietHoldsWhatIsLive X W B }
{}

/// A process that wasn't ended and isn't told of the group has nothing of it.
pub fn untold_holds_nothing<X, W, B>()
    ensures { UntoldHoldsNothing X W B }
{}

/// With both links empty, the contexts below each are those of the parent, in its order.
pub fn quiet_children_are_the_parents<X, W, B>()
    ensures { QuietChildrenAreTheParents X W B }
{}

/// Until its end, a process made what is live below a context exactly where the parent has it as the owner of
/// that.
pub fn children_have_one_owner<X, W, B>()
    ensures { ChildrenHaveOneOwner X W B }
{}

/// With both links empty, a process owns, of all that it has, what the parent says that it owns.
pub fn quiet_owners_are_the_parents<X, W, B>()
    ensures { QuietOwnersAreTheParents X W B }
{}

/// What an honest process makes was never heard of before, and what else it names was.
pub fn own_ids_are_good<X, W, B>()
    ensures { OwnIdsAreGood X W B }
{}

/// As a drop of what is live is heard of an honest process, the parent has that process as the owner of the
/// context above.
pub fn drops_are_allowed<X, W, B>()
    ensures { DropsAreAllowed X W B }
{}

/// As a bundle is taken that brings another's context, the process doesn't have that: if it didn't drop it,
/// it has the context above then, and if it dropped it, it hasn't.
pub fn comings_are_below_the_held<X, W, B>()
    ensures { ComingsAreBelowTheHeld X W B }
{}

/// What the parent has heard of, as made in time or as made by the process, is live or was.
pub fn known_has_come<X, W, B>()
    ensures { KnownHasCome X W B }
{}

/// What a process is told of and is live in the parent, the process is without only while the coming waits to
/// be taken, or its own drop to be heard.
pub fn missing_is_on_its_way<X, W, B>()
    ensures { MissingIsOnItsWay X W B }
{}

/// With a coming that waits the owner comes: behind all that waits, the process owns the context exactly
/// where the parent has it as the owner.
pub fn comings_bring_the_owner<X, W, B>()
    ensures { ComingsBringTheOwner X W B }
{}

/// A context of another with nothing above it comes once: as a bundle that brings it is taken, the process
/// never had it.
pub fn tops_come_once<X, W, B>()
    ensures { TopsComeOnce X W B }
{}

/// What makes or drops a context, as it is heard of a process that wasn't ended, is of one that the process
/// is told of.
pub fn heard_is_told<X, W, B>()
    ensures { HeardIsTold X W B }
{}

/// Below a context that a process that wasn't ended isn't told of, all that was ever attached others made.
pub fn untold_made_nothing<X, W, B>()
    ensures { UntoldMadeNothing X W B }
{}

/// The worked run keeps the rules, and ends with what it is said to.
pub fn worked_run()
    ensures { WorkedRun }
{}
