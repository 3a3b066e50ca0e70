//! What holds of every step of a sound machine, whatever the program.

ghost use Rattle.step_soundness.specs.Laws.{SoundStepLaw, NeverStuckLaw};
ghost use Rattle.step_soundness.specs.Waiting.{WaitsLaw};

/// A step of a sound machine of an accepted program leaves it sound.
pub fn sound_step()
    ensures { SoundStepLaw }
{}

/// A thread of a sound machine that neither waits nor has ended is never stuck, and wants no text.
pub fn never_stuck()
    ensures { NeverStuckLaw }
{}

/// A thread of a sound machine that neither waits nor has ended takes its step, or waits for a lock,
/// for a thread, or for a class.
pub fn blocked_waits()
    ensures { WaitsLaw }
{}
