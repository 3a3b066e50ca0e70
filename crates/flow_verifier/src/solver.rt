//! The least closed assignment.

ghost use Rattle.std.specs.Prelude.{◌≡◌, ◌+◌, ◌≤◌, IfOk};
ghost use Rattle.flow_types.specs.Tree.{superclasses, IsTree};
ghost use Rattle.flow_verifier.specs.Methods.{IsMethod};
ghost use Rattle.flow_verifier.specs.Typing.{IsLeast, most_steps};
ghost use Rattle.flow_verifier.specs.Worklist.Going.{IsKnown};

use crate::facts::Facts;
use crate::method::Method;
use crate::rising::Rising;
use crate::shared_frame::SharedFrame;
use flow_types::Steps;
use jvm_base::{List, NoMemory};
use program_image::Image;
use std::alloc::Global;
use std::sync::ledger::Ledger;

/// The least closed assignment.
pub(crate) fn solve<L: Ledger>(
    alloc: Global,
    image: &Image,
    m: &Method,
    facts: &Facts,
    steps: &mut Steps<L>,
) -> Result<List<Option<SharedFrame>>, NoMemory>
    requires tree { IsTree (superclasses image.now) }
    requires fine { IsMethod image.now m.now }
    requires known { IsKnown image.now m.now facts.now }
    ensures least { IfOk result (λ fs. IsLeast image.now m.now fs) }
    ensures cost { steps.new ≤ steps.old + most_steps image.now m.now }
{
    let mut rising = Rising::start(alloc, image, m)?;
    while let Some(at) = rising.pop() {
        rising.visit(alloc, image, m, facts, at, steps)?;
    }
    Ok(rising.frames)
}
