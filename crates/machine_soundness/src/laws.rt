//! What holds of sound machines, whatever the program.

ghost use Rattle.machine_soundness.specs.Laws.{SoundStartLaw, RefusedLaw};

/// The start state of an accepted program is sound.
pub fn sound_start()
    ensures { SoundStartLaw }
{}

/// What is right of a sound machine and isn't served waits for a lock, for a thread, or for a class.
pub fn refused_waits()
    ensures { RefusedLaw }
{}
