ghost use Rattle.context_group.specs.Laws.{AwaitsWhereOwed, EndedGroupsStayEnded, GroupsAreKeptUntilEnded};

/// A group is kept from begin on until a call of shrink, ack or drop_process leaves it without a live context
/// and without an awaited acknowledgement.
pub fn groups_are_kept_until_ended()
    ensures { GroupsAreKeptUntilEnded }
{}

/// No call makes a group kept again.
pub fn ended_groups_stay_ended()
    ensures { EndedGroupsStayEnded }
{}

/// A group awaits something exactly where some process owes the acknowledgement of some context in it.
pub fn groups_await_where_owed()
    ensures { AwaitsWhereOwed }
{}
