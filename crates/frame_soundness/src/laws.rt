//! What holds of frames that fit a typing, whatever the program.

ghost use Rattle.frame_soundness.specs.Conditions.{ConditionLaw};
ghost use Rattle.frame_soundness.specs.Moving.{MovesLaw};

/// A frame of the types that the verifier found has the operands, the locals and the room that its
/// instruction asks for, and room for what answers it.
pub fn meets_condition()
    ensures { ConditionLaw }
{}

/// An instruction that breaks no rule comes to operands and locals that fit the frame after it.
pub fn moves_fit()
    ensures { MovesLaw }
{}
