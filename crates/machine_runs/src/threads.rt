//! Programs with threads and locks.

ghost use Rattle.std.specs.Prelude.{[], ◌∷◌, codes};
ghost use Rattle.machine_state.specs.declared.state.End.TheVariants.{Dead};
ghost use Rattle.machine_runs.specs.Driving.{ComesTo, Prints};
ghost use Rattle.machine_runs.specs.Programs.Threads.{synchronized, waiting, deadlock};

/// One thread at a time is in a synchronized method; a thread is started once.
#[tactic(auto, unfolding(crate::specs::Driving::outcome))]
pub fn synchronized_runs()
    ensures { Prints synchronized (codes "4 1") }
{}

/// A thread that waits goes on once it is notified and has its lock again.
#[tactic(auto, unfolding(crate::specs::Driving::outcome))]
pub fn waiting_runs()
    ensures { Prints waiting (codes "1") }
{}

/// Two threads that want each other's lock are stuck, and so is who waits for one of them.
#[tactic(auto, unfolding(crate::specs::Driving::outcome))]
pub fn deadlock_runs()
    ensures { ComesTo deadlock [] Dead [] }
{}
