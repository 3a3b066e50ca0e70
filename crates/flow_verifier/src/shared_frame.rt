//! A frame that shares with others what they have in common.

ghost use Rattle.std.specs.Prelude.{◌≡◌, ◌∷◌, [], length, true, false, IfOk, OnOk};
ghost use Rattle.flow_types.specs.Tree.{superclasses, IsTree};
ghost use Rattle.flow_types.specs.Frames.{clash_frame, frame_fits, frame_joined};
ghost use Rattle.flow_verifier.specs.Given.{work_of, frame_of_work};
ghost use Rattle.flow_verifier.specs.Typing.{entry_frame};
ghost use Rattle.flow_verifier.specs.Worklist.Catching.{without_operands};
ghost use Rattle.flow_verifier.specs.Worklist.Going.{IsCatcher, IsPut};

use crate::method::Method;
use flow_types::{FlowFrame, FlowType};
use instruction_table::{Stack, Work};
use jvm_base::{List, NoMemory};
use program_image::Image;
use shared_types::Types;
use std::alloc::Global;
use std::marker::Model;

/// The types at one instruction, as contracts see them in a `FlowFrame`. A copy takes no memory, and
/// a frame of which some types changed shares the others.
#[derive(Drop)]
pub struct SharedFrame {
    locals: Types,
    stack: Stack,
    fresh: bool,
    clash: bool,
}

impl Model for SharedFrame {
    ghost use Rattle.std.specs.Prelude.{reverse};
    ghost use Rattle.flow_types.specs.declared.flow_frame.FlowFrame.{FlowFrame};

    ghost Value = { FlowFrame };

    ghost view = { λ a. record {
      locals = a.locals;
      stack = reverse a.stack;
      fresh = a.fresh;
      clash = a.clash;
    } };
}

/// Whether a type is there, and a class's own.
fn is_class(t: Option<FlowType>, class: u32) -> bool
    ensures { result ≡ true → t ≡ Some (FlowType.Class class) }
{
    match t {
        Some(FlowType::Class(found)) => found == class,
        _ => false,
    }
}

impl SharedFrame {
    /// The frame above every frame. It takes no memory.
    pub(crate) fn clash() -> SharedFrame
        ensures { result ≡ clash_frame }
    {
        SharedFrame {
            locals: Types::new(0),
            stack: Stack::new(0),
            fresh: false,
            clash: true,
        }
    }

    /// The frame in which a method begins. It takes no memory.
    pub(crate) fn entry(m: &Method) -> Result<SharedFrame, NoMemory>
        ensures { IfOk result (λ f. f ≡ entry_frame m.now) }
    {
        Ok(SharedFrame {
            locals: m.entry.share()?,
            stack: Stack::new(m.max_stack as usize + 1),
            fresh: m.fresh,
            clash: false,
        })
    }

    /// The same frame once more. It takes no memory.
    pub(crate) fn share(&self) -> Result<SharedFrame, NoMemory>
        ensures { IfOk result (λ f. f ≡ self.now) }
    {
        Ok(SharedFrame {
            locals: self.locals.share()?,
            stack: self.stack.share()?,
            fresh: self.fresh,
            clash: self.clash,
        })
    }

    /// Whether it is the clash frame.
    pub(crate) fn is_clash(&self) -> bool
        ensures { result ≡ self.now.clash }
    {
        self.clash
    }

    /// The frame at work.
    #[tactic(auto, using(instruction_table::proofs::Stacks::reverse_twice))]
    pub(crate) fn work(&self) -> Result<Work, NoMemory>
        ensures { IfOk result (λ w. w ≡ work_of self.now) }
    {
        Ok(Work {
            locals: self.locals.share()?,
            stack: self.stack.share()?,
            fresh: self.fresh,
        })
    }

    /// The frame of one that was at work.
    pub(crate) fn of_work(work: Work) -> SharedFrame
        ensures { result ≡ frame_of_work work }
    {
        SharedFrame {
            locals: work.locals,
            stack: work.stack,
            fresh: work.fresh,
            clash: false,
        }
    }

    /// The locals of a frame, below no operand. It takes no memory.
    pub(crate) fn without_operands(&self) -> Result<SharedFrame, NoMemory>
        ensures { IfOk result (λ f. f ≡ without_operands self.now) }
    {
        if self.clash {
            return Ok(SharedFrame::clash());
        }
        Ok(SharedFrame {
            locals: self.locals.share()?,
            stack: Stack::new(0),
            fresh: self.fresh,
            clash: false,
        })
    }

    /// The locals of a frame, below an operand that stands for what is caught.
    pub(crate) fn catcher(&self, alloc: Global, m: &Method) -> Result<SharedFrame, NoMemory>
        ensures { IfOk result (λ c. IsCatcher self.now c) }
    {
        if self.clash {
            return Ok(SharedFrame::clash());
        }
        let mut stack = Stack::new(m.max_stack as usize + 1);
        stack.push(alloc, FlowType::Null)?;
        Ok(SharedFrame {
            locals: self.locals.share()?,
            stack,
            fresh: self.fresh,
            clash: false,
        })
    }

    /// Puts the class in place of the oldest operand. Where that is the class already, it takes no
    /// memory.
    #[tactic(auto, using(shared_types::proofs::Laws::set_same))]
    pub(crate) fn put_class(&mut self, alloc: Global, class: u32) -> Result<(), NoMemory>
        ensures { OnOk result (IsPut self.old self.new class) }
    {
        if is_class(self.stack.types().get(0), class) {
            return Ok(());
        }
        self.stack.set_oldest(alloc, FlowType::Class(class))
    }

    /// The frame with lists of its own.
    pub fn frame(&self, alloc: Global) -> Result<FlowFrame, NoMemory>
        ensures { IfOk result (λ f. f ≡ self.now) }
    {
        Ok(FlowFrame {
            locals: self.locals.to_list(alloc)?,
            stack: self.stack.types().to_list(alloc)?,
            fresh: self.fresh,
            clash: self.clash,
        })
    }

    /// A frame that shares nothing yet.
    fn of_frame(alloc: Global, f: &FlowFrame) -> Result<SharedFrame, NoMemory>
        ensures { IfOk result (λ s. s ≡ f.now) }
    {
        Ok(SharedFrame {
            locals: Types::from_list(alloc, f.locals.as_slice())?,
            stack: Stack::from_list(alloc, f.stack.as_slice())?,
            fresh: f.fresh,
            clash: f.clash,
        })
    }

    /// Whether a frame may flow to where this one stands.
    #[tactic(auto, unfolding(flow_types::specs::Frames::frame_fits))]
    pub(crate) fn takes(
        &self,
        alloc: Global,
        image: &Image,
        low: &SharedFrame,
    ) -> Result<bool, NoMemory>
        ensures { IfOk result (λ b. b ≡ frame_fits (superclasses image.now) low.now self.now) }
    {
        if self.clash {
            return Ok(true);
        }
        if low.clash {
            return Ok(false);
        }
        let locals = low.locals.fit(image, &self.locals);
        let stack = low.stack.types().fit(image, self.stack.types());
        match (locals, stack) {
            (Some(false), _) => Ok(false),
            (_, Some(false)) => Ok(false),
            (Some(true), Some(true)) => Ok(!low.fresh || self.fresh),
            _ => Ok(self.frame(alloc)?.takes(image, &low.frame(alloc)?)),
        }
    }

    /// The same as `raise`, by whole lists.
    fn raise_whole(
        &mut self,
        alloc: Global,
        image: &Image,
        low: &SharedFrame,
    ) -> Result<(), NoMemory>
        requires tree { IsTree (superclasses image.now) }
        requires alike { self.old.clash ≡ false → low.now.clash ≡ false → length self.old.locals
            ≡ length low.now.locals }
        ensures { OnOk result (self.new ≡ frame_joined (superclasses image.now) self.old low.now) }
    {
        let mut f = self.frame(alloc)?;
        f.raise(alloc, image, &low.frame(alloc)?);
        *self = SharedFrame::of_frame(alloc, &f)?;
        Ok(())
    }

    /// Makes this frame the least that it and another one fit. What doesn't rise is shared as before.
    #[tactic(auto, using(crate::proofs::Sharing::no_stack, crate::proofs::Sharing::some_stack, crate::proofs::Sharing::deep_unlike, instruction_table::proofs::Stacks::length_reverse), unfolding(flow_types::specs::Frames::frame_joined))]
    pub(crate) fn raise(
        &mut self,
        alloc: Global,
        image: &Image,
        low: &SharedFrame,
    ) -> Result<(), NoMemory>
        requires tree { IsTree (superclasses image.now) }
        requires alike { self.old.clash ≡ false → low.now.clash ≡ false → length self.old.locals
            ≡ length low.now.locals }
        ensures { OnOk result (self.new ≡ frame_joined (superclasses image.now) self.old low.now) }
    {
        if self.clash || low.clash || self.stack.depth() != low.stack.depth() {
            *self = SharedFrame::clash();
            return Ok(());
        }
        let mut stack = self.stack.share()?;
        if !stack.raise(alloc, image, &low.stack)? {
            return self.raise_whole(alloc, image, low);
        }
        if !stack.are_operands() {
            *self = SharedFrame::clash();
            return Ok(());
        }
        if !self.locals.raise(alloc, image, &low.locals)? {
            return self.raise_whole(alloc, image, low);
        }
        self.stack = stack;
        self.fresh = self.fresh || low.fresh;
        Ok(())
    }
}
