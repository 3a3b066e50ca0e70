//! Programs with statics and initialisers.

ghost use Rattle.std.specs.Prelude.{[], ◌∷◌, codes};
ghost use Rattle.machine_state.specs.declared.state.End.TheVariants.{AllEnded};
ghost use Rattle.machine_state.specs.BootClasses.{monitor_state};
ghost use Rattle.machine_runs.specs.Driving.{ComesTo, Prints};
ghost use Rattle.machine_runs.specs.Programs.Initialising.{statics, failing};

/// A class is initialised at its first use, after its superclass; a constant is no use.
#[tactic(auto, unfolding(crate::specs::Driving::outcome))]
pub fn statics_run()
    ensures { Prints statics (codes "7 Base Derived 10 3 4") }
{}

/// An initialisation that failed isn't tried again; who doesn't own a lock can't notify.
#[tactic(auto, unfolding(crate::specs::Driving::outcome))]
pub fn failing_runs()
    ensures { ComesTo failing (codes "1 2") AllEnded ((0, monitor_state) ∷ []) }
{}
