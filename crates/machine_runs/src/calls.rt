//! Programs with calls, and with what is thrown through them.

ghost use Rattle.std.specs.Prelude.{[], ◌∷◌, codes};
ghost use Rattle.machine_state.specs.declared.state.End.TheVariants.{AllEnded};
ghost use Rattle.machine_state.specs.BootClasses.{class_cast};
ghost use Rattle.machine_runs.specs.Driving.{ComesTo, Prints};
ghost use Rattle.machine_runs.specs.Programs.Calls.{calls, throwing};

/// The receiver's class tells the method, unless the superclass's is called; a long argument takes
/// two locals.
#[tactic(auto, unfolding(crate::specs::Driving::outcome))]
pub fn calls_run()
    ensures { Prints calls (codes "120 49 50 8 -5") }
{}

/// An exception goes to the first handler that takes it, through frames without one.
#[tactic(auto, unfolding(crate::specs::Driving::outcome))]
pub fn throwing_runs()
    ensures { ComesTo throwing (codes "5 2 0 -1 x 1") AllEnded ((0, class_cast) ∷ []) }
{}
