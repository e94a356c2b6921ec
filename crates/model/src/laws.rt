ghost use Rattle.model.specs.Laws.{ProcessShowsTheView, PointNeverFalls, QuietShowsTheParent};
ghost use Rattle.model.specs.Laws.{SettlingEnds, StepAddsLittle, RefusedChangesNothing};
ghost use Rattle.model.specs.Laws.{RevertTakenShowsTheParent, RevertsWait};
ghost use Rattle.model.specs.Laws.{HonestAreOnlyKilled, EndChangesNothingElse};
ghost use Rattle.model.specs.Laws.{QuietHoldsTheParents, QuietSaysTheSame, QuietHasTheSameFrames};
ghost use Rattle.model.specs.Laws.{QuietHasTheSameOrder, WhatIsToldComes, WhatComesIsTheParents};

/// What an honest process answers of a field is its view: its newest own write not yet answered, else the
/// parent's value at the process's point; and it answers something exactly of what it holds.
pub fn process_shows_the_view()
    ensures { ProcessShowsTheView }
{}

/// A further entry lowers neither the base nor the point of an honest process.
pub fn point_never_falls()
    ensures { PointNeverFalls }
{}

/// An honest process that wasn't ended, with nothing on its links, shows what the parent shows of each
/// context that it holds.
pub fn quiet_shows_the_parent()
    ensures { QuietShowsTheParent }
{}

/// As an honest process takes the bundle that reverts its newest write to a field, it shows the parent's
/// value at the entry that sent it.
pub fn revert_taken_shows_the_parent()
    ensures { RevertTakenShowsTheParent }
{}

/// A reverted write of an honest process that isn't answered has its revert on its way, with the parent's
/// value at the entry that sent it.
pub fn reverts_wait()
    ensures { RevertsWait }
{}

/// An honest process is ended by a kill alone: never for its epochs, stamps, parts or writes.
pub fn honest_are_only_killed()
    ensures { HonestAreOnlyKilled }
{}

/// A bundle that ends its sender does nothing else: the contexts and their fields, what each process answers,
/// and what waits on the links of the others stay, but that the sender owns nothing any more.
pub fn end_changes_nothing_else()
    ensures { EndChangesNothingElse }
{}

/// Settling ends. It only adds entries; behind it nothing waits from any process, nor for one that runs; and
/// the number of entries and the weight of what waits are no more together than before.
pub fn settling_ends()
    ensures { SettlingEnds }
{}

/// A step adds an entry, and the weight of what waits rises by at most 64.
pub fn a_step_adds_little()
    ensures { StepAddsLittle }
{}

/// A refused step changes no answer of the parent or of a process, and nothing that waits.
pub fn refused_changes_nothing()
    ensures { RefusedChangesNothing }
{}

/// An honest process that wasn't ended, with nothing on its links, holds exactly the live contexts of the
/// groups that the parent tells it of.
pub fn quiet_holds_the_parents()
    ensures { QuietHoldsTheParents }
{}

/// Of each context that it holds then, it says the same group, the same context above and the same owner as
/// the parent does.
pub fn quiet_says_the_same()
    ensures { QuietSaysTheSame }
{}

/// The frames in it are then the parent's, in the same order.
pub fn quiet_has_the_same_frames()
    ensures { QuietHasTheSameFrames }
{}

/// All its contexts are then the parent's that it is told of, in the same order.
pub fn quiet_has_the_same_order()
    ensures { QuietHasTheSameOrder }
{}

/// Where an honest process that wasn't ended doesn't hold a context that is live and that the parent tells it
/// of, a Create or a Register of that waits for it, or its Drop of that or of a context above waits.
pub fn what_is_told_comes()
    ensures { WhatIsToldComes }
{}

/// Where no such Drop waits, it comes with the parent's present values and ownership, by the Create or
/// Register and all that waits behind it.
pub fn what_comes_is_the_parents()
    ensures { WhatComesIsTheParents }
{}
