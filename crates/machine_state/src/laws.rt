//! What holds of every step and of every run, whatever the program.

ghost use Rattle.machine_state.specs.Laws.Framing.{OneHomeLaw, OtherThreadsLaw};
ghost use Rattle.machine_state.specs.Laws.KeptBodies.{KeptLaw};
ghost use Rattle.machine_state.specs.Laws.Likeness.{OneNextLaw};
ghost use Rattle.machine_state.specs.Accesses.{LastWriteLaw};
ghost use Rattle.machine_state.specs.LegalLocks.{LegalLocksLaw};

/// A step changes one cell, bodies on the node of the choice's name, and its thread.
pub fn one_home()
    ensures { OneHomeLaw }
{}

/// A step leaves all other threads as they are.
pub fn other_threads()
    ensures { OtherThreadsLaw }
{}

/// A body that is there stays, unless the step addresses it: what a step makes is new.
pub fn keeps_bodies()
    ensures { KeptLaw }
{}

/// What a thread does next follows from the state, but for the choice's name and pick.
pub fn one_next()
    ensures { OneNextLaw }
{}

/// Each read of a run gives the last write of its place.
pub fn last_write()
    ensures { LastWriteLaw }
{}

/// What a run does with locks is legal.
pub fn legal_locks()
    ensures { LegalLocksLaw }
{}
