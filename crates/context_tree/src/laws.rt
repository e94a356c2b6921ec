ghost use Rattle.context_tree.specs.Laws.{ParentsComeFirst, AncestorsAreAbove, SubtreesHangTogether};
ghost use Rattle.context_tree.specs.Laws.{NothingIsBelowTheUnknown, DetachLeavesATree};
ghost use Rattle.context_tree.specs.Laws.{DetachLeavesTheOthers, AttachLeavesATree, AttachLeavesTheOthers};
ghost use Rattle.context_tree.specs.Laws.{AttachedIsTheLastChild};

/// A parent stands before its children, and above a context are its parent and those above that.
pub fn parents_come_first()
    ensures { ParentsComeFirst }
{}

/// Going up from a context by parents, one meets those above it in their order.
pub fn ancestors_are_above()
    ensures { AncestorsAreAbove }
{}

/// A subtree has its context and those that reach it by going up, and no other.
pub fn subtrees_hang_together()
    ensures { SubtreesHangTogether }
{}

/// Nothing is below a context that isn't held.
pub fn nothing_is_below_the_unknown()
    ensures { NothingIsBelowTheUnknown }
{}

/// What is left without a context is a tree.
pub fn detach_leaves_a_tree()
    ensures { DetachLeavesATree }
{}

/// Where a context is detached, those that are left have the same above them as before.
pub fn detach_leaves_the_others()
    ensures { DetachLeavesTheOthers }
{}

/// A tree with a context attached is a tree.
pub fn attach_leaves_a_tree()
    ensures { AttachLeavesATree }
{}

/// Where a context is attached, the others have the same above them as before.
pub fn attach_leaves_the_others()
    ensures { AttachLeavesTheOthers }
{}

/// An attached context is the last child of its parent, and no other context gets or loses a child.
pub fn attached_is_the_last_child()
    ensures { AttachedIsTheLastChild }
{}
