//! The types of a method's locals and stack at one instruction.

ghost use Rattle.std.specs.Prelude.{◌≡◌, ◌+◌, IfOk, false, length};
ghost use Rattle.flow_types.specs.Tree.{superclasses, IsTree};
ghost use Rattle.flow_types.specs.Frames.{clash_frame, frame_joined, frame_fits, IsJoin};

use crate::flow_list::{merge_locals, merge_stacks, raise_types, stacks_meet, types_fit};
use crate::flow_type::FlowType;
use crate::steps::Steps;
use jvm_base::{List, NoMemory};
use program_image::Image;
use std::alloc::Global;
use std::sync::ledger::Ledger;

/// The types at one instruction: of each local, and of the stack with the newest last. `fresh`
/// says that the receiver of an initialiser may still be uninitialised. `clash` marks the one
/// frame that comes from unlike stacks.
#[derive(Drop)]
pub struct FlowFrame {
    pub locals: List<FlowType>,
    pub stack: List<FlowType>,
    pub fresh: bool,
    pub clash: bool,
}

impl FlowFrame {
    /// The frame above every frame. It takes no memory.
    pub fn clash(alloc: Global) -> FlowFrame
        ensures { result ≡ clash_frame }
    {
        FlowFrame {
            locals: List::new(alloc),
            stack: List::new(alloc),
            fresh: false,
            clash: true,
        }
    }

    /// Whether a frame may flow to where this one stands. It takes no memory.
    #[tactic(auto, unfolding(crate::specs::Frames::frame_fits))]
    pub fn takes(&self, image: &Image, low: &FlowFrame) -> bool
        ensures { result ≡ frame_fits (superclasses image.now) low.now self.now }
    {
        if self.clash {
            return true;
        }
        if low.clash {
            return false;
        }
        types_fit(image, low.locals.as_slice(), self.locals.as_slice())
            && types_fit(image, low.stack.as_slice(), self.stack.as_slice())
            && (!low.fresh || self.fresh)
    }

    /// Makes this frame the least that it and another one fit, in place. It takes no memory.
    #[tactic(auto, using(crate::proofs::Lists::meet_joined, crate::proofs::Lists::meet_long), unfolding(crate::specs::Frames::frame_joined))]
    pub fn raise(&mut self, alloc: Global, image: &Image, low: &FlowFrame)
        requires tree { IsTree (superclasses image.now) }
        requires alike { self.old.clash ≡ false → low.now.clash ≡ false → length self.old.locals
            ≡ length low.now.locals }
        ensures { self.new ≡ frame_joined (superclasses image.now) self.old low.now }
    {
        if self.clash
            || low.clash
            || !stacks_meet(image, self.stack.as_slice(), low.stack.as_slice())
        {
            *self = FlowFrame::clash(alloc);
            return;
        }
        raise_types(image, &mut self.locals, low.locals.as_slice());
        raise_types(image, &mut self.stack, low.stack.as_slice());
        self.fresh = self.fresh || low.fresh;
    }
}

#[tactic(auto, unfolding(crate::specs::Frames::frame_joined))]
fn join(alloc: Global, image: &Image, a: &FlowFrame, b: &FlowFrame) -> Result<FlowFrame, NoMemory>
    requires tree { IsTree (superclasses image.now) }
    ensures { IfOk result (λ f. f ≡ frame_joined (superclasses image.now) a.now b.now) }
{
    if a.clash || b.clash {
        return Ok(FlowFrame::clash(alloc));
    }
    match merge_stacks(alloc, image, a.stack.as_slice(), b.stack.as_slice())? {
        None => Ok(FlowFrame::clash(alloc)),
        Some(stack) => {
            let locals = merge_locals(alloc, image, a.locals.as_slice(), b.locals.as_slice())?;
            Ok(FlowFrame {
                locals,
                stack,
                fresh: a.fresh || b.fresh,
                clash: false,
            })
        }
    }
}

/// The least frame that both fit.
#[tactic(auto, using(crate::proofs::FrameLaws::joined_ok))]
pub fn merge(
    alloc: Global,
    image: &Image,
    a: &FlowFrame,
    b: &FlowFrame,
) -> Result<FlowFrame, NoMemory>
    requires tree { IsTree (superclasses image.now) }
    ensures value { IfOk result (λ f. f ≡ frame_joined (superclasses image.now) a.now b.now) }
    ensures least { IfOk result (λ f. IsJoin (superclasses image.now) a.now b.now f) }
{
    join(alloc, image, a, b)
}

/// The least frame that both fit, counted as one step.
pub fn merge_counted<L: Ledger>(
    alloc: Global,
    image: &Image,
    a: &FlowFrame,
    b: &FlowFrame,
    steps: &mut Steps<L>,
) -> Result<FlowFrame, NoMemory>
    requires tree { IsTree (superclasses image.now) }
    ensures value { IfOk result (λ f. f ≡ frame_joined (superclasses image.now) a.now b.now) }
    ensures least { IfOk result (λ f. IsJoin (superclasses image.now) a.now b.now f) }
    ensures cost { steps.new ≡ steps.old + 1 }
{
    steps.tick();
    merge(alloc, image, a, b)
}
