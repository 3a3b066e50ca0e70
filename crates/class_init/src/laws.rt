//! What holds of all calls, one after another.

ghost use Rattle.class_init.specs.Histories.{RunOnceLaw};

/// Of each class at most one thread is told to run the initialiser, and that once.
pub fn run_once()
    ensures { RunOnceLaw }
{}
