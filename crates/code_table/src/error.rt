//! Why code isn't decoded.

ghost use Rattle.std.specs.Prelude.{◌≡◌, Some};
ghost use Rattle.code_table.specs.declared.error.CodeErr.TheVariants.{NoMemory as OutOfMemory};
ghost use Rattle.code_table.specs.Reasons.{reason};

use jvm_base::NoMemory;
use std::fmt;
use thiserror::Error;

/// Why code isn't decoded (JVMS2 4.8.1). Each but `BadTable` holds the address of the instruction,
/// which for `wide` is that of the `wide`. The text of a refusal is the one that a report prints.
#[derive(Clone, Copy, Debug, PartialEq, Eq, Error)]
pub enum CodeErr {
    /// The opcode has no instruction, also behind `wide`.
    UnknownOp(u32),
    /// This machine leaves the instruction out.
    LeftOutOp(u32),
    /// An operand ends past the code.
    CutOp(u32),
    /// The offsets or keys of a switch are out of order, or end past the code.
    BadSwitch(u32),
    /// A pool item or an operand isn't of the needed kind.
    BadIndex(u32),
    /// A target isn't the address of an instruction.
    TargetOff(u32),
    /// The entry of the exception table at this place, from 0, has a bad address.
    BadTable(u32),
    NoMemory,
}

impl fmt::Display for CodeErr {
    ghost output = { λ e. Some (reason e) };

    fn fmt<W: fmt::Write>(&self, f: &mut fmt::Formatter<W>) -> fmt::Result {
        match self {
            CodeErr::UnknownOp(at) => write!(f, "unknown-op {at}"),
            CodeErr::LeftOutOp(at) => write!(f, "left-out-op {at}"),
            CodeErr::CutOp(at) => write!(f, "cut-op {at}"),
            CodeErr::BadSwitch(at) => write!(f, "bad-switch {at}"),
            CodeErr::BadIndex(at) => write!(f, "bad-index {at}"),
            CodeErr::TargetOff(at) => write!(f, "target-off {at}"),
            CodeErr::BadTable(place) => write!(f, "bad-table {place}"),
            CodeErr::NoMemory => write!(f, "want of memory"),
        }
    }
}

impl From<NoMemory> for CodeErr {
    ghost from_gives = { λ _ e. e ≡ OutOfMemory };

    fn from(_error: NoMemory) -> CodeErr {
        CodeErr::NoMemory
    }
}
