//! The families of instructions.

ghost use Rattle.std.specs.Prelude.{◌≡◌};
ghost use Rattle.frame_ops.specs.Running.Families.{family_of};

use code_table::Op;

/// What an instruction is about. `Told` are those to which the program tells something, and `Ways`
/// those that call, return or throw.
#[derive(Clone, Copy)]
pub(crate) enum Family {
    Constants,
    Told,
    Locals,
    Shuffles,
    Numbers,
    Jumps,
    Arrays,
    Objects,
    Ways,
}

/// The family of an instruction.
pub(crate) fn family_of(op: &Op) -> Family
    ensures { result ≡ family_of op.now }
{
    match op {
        Op::Nop | Op::AconstNull | Op::Iconst(_) | Op::Lconst(_) | Op::Push(_) => Family::Constants,
        Op::Ldc(_) | Op::Ldc2(_) | Op::Cast { .. } => Family::Told,
        Op::Load { .. } | Op::Store { .. } | Op::Iinc { .. } => Family::Locals,
        Op::Pop(_) | Op::Dup(_) | Op::Swap => Family::Shuffles,
        Op::Arith(_) | Op::Divide(_) | Op::Negate(_) | Op::Shift(_) => Family::Numbers,
        Op::Bits(_) | Op::Resize(_) | Op::Lcmp => Family::Numbers,
        Op::IfZero { .. } | Op::IfInts { .. } | Op::IfRefs { .. } => Family::Jumps,
        Op::IfNull { .. } | Op::Goto(_) => Family::Jumps,
        Op::TableSwitch { .. } | Op::LookupSwitch { .. } => Family::Jumps,
        Op::ArrayLoad(_) | Op::ArrayStore(_) | Op::ArrayLength => Family::Arrays,
        Op::NewArray(_) | Op::AnewArray(_) | Op::MultiNewArray { .. } => Family::Arrays,
        Op::Static { .. } | Op::Field { .. } | Op::New(_) | Op::Monitor(_) => Family::Objects,
        Op::Invoke { .. } | Op::Athrow | Op::Return(_) => Family::Ways,
    }
}
