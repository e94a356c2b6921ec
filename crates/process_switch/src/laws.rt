ghost use Rattle.process_switch.specs.Choice.{ChoiceIsTheLeast, SwitchLeavesTheOwner};

/// The process that is chosen is live and of the type, and no lesser one is; where none is chosen, there is
/// none.
pub fn choice_is_the_least()
    ensures { ChoiceIsTheLeast }
{}

/// A navigation switches to another process than the owner.
pub fn switch_leaves_the_owner()
    ensures { SwitchLeavesTheOwner }
{}
