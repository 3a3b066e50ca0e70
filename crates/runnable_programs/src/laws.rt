//! From class files that are accepted to a program that a machine can run.

ghost use Rattle.runnable_programs.specs.Runnable.{HaveCodeLaw, RunnableLaw};

/// Class files that linking and verifying accept are linked to a program that has a typing, and
/// numbers in range.
pub fn accepted_can_run()
    ensures { RunnableLaw }
{}

/// The methods of such a program that no instruction calls have code.
pub fn accepted_have_code()
    ensures { HaveCodeLaw }
{}
