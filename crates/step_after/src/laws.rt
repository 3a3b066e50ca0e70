//! That threads of a sound machine can be planned for and can go on, whatever the program.

ghost use Rattle.step_after.specs.Laws.{CanAskLaw, CanGoOnLaw};

/// What a plan asks for can be answered where it is asked.
pub fn can_ask()
    ensures { CanAskLaw }
{}

/// After a step that a choice may take, its thread can go on as the step says.
pub fn can_go_on()
    ensures { CanGoOnLaw }
{}
