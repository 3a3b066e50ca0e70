//! Why a method is not accepted.

ghost use Rattle.std.specs.Prelude.{◌≡◌, Some};
ghost use Rattle.flow_verifier.specs.declared.answer.VerifyErr.TheVariants.{NoMemory as OutOfMemory};
ghost use Rattle.flow_verifier.specs.Reasons.{broken_rule_text, reason};

use jvm_base::NoMemory;
use std::fmt;
use thiserror::Error;

/// The first rule that a method breaks, at the address of an instruction. Its text is the one that
/// a report prints behind the method's name.
#[derive(Clone, Copy, Debug, PartialEq, Eq, Error)]
pub struct FlowErr {
    pub method: u32,
    pub rule: u8,
    pub at: u32,
}

impl fmt::Display for FlowErr {
    ghost output = { λ e. Some (broken_rule_text e) };

    fn fmt<W: fmt::Write>(&self, f: &mut fmt::Formatter<W>) -> fmt::Result {
        write!(f, "rule {} at {}", self.rule, self.at)
    }
}

/// Why a method is not accepted.
#[derive(Clone, Copy, Debug, PartialEq, Eq, Error)]
pub enum VerifyErr {
    /// It has no typing.
    Flow(FlowErr),
    /// Memory ran out.
    NoMemory,
}

impl fmt::Display for VerifyErr {
    ghost output = { λ e. Some (reason e) };

    fn fmt<W: fmt::Write>(&self, f: &mut fmt::Formatter<W>) -> fmt::Result {
        match self {
            VerifyErr::Flow(e) => write!(f, "{e}"),
            VerifyErr::NoMemory => write!(f, "want of memory"),
        }
    }
}

impl From<NoMemory> for VerifyErr {
    ghost from_gives = { λ _ e. e ≡ OutOfMemory };

    fn from(_error: NoMemory) -> VerifyErr {
        VerifyErr::NoMemory
    }
}
