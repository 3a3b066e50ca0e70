//! What flows from one instruction.

ghost use Rattle.std.specs.Prelude.{◌≡◌, ◌+◌, ◌<◌, ◌≤◌, ◌∷◌, ◌++◌, [], length, OnOk, IfOk, MatchOption, ℕ, None};
ghost use Rattle.flow_types.specs.Tree.{superclasses, IsTree};
ghost use Rattle.flow_verifier.specs.Methods.{IsMethod};
ghost use Rattle.flow_verifier.specs.Given.{edges};
ghost use Rattle.flow_verifier.specs.Typing.{frame_at};
ghost use Rattle.flow_verifier.specs.Worklist.Leading.{successors, ways_caught};
ghost use Rattle.flow_verifier.specs.Worklist.Catching.{IsCatching};
ghost use Rattle.flow_verifier.specs.Worklist.Going.{IsKnown, IsMarked, IsGoing, IsTakenOff, IsFlowing, IsVisiting};
ghost use Rattle.flow_verifier.specs.Worklist.Potential.{potential};

use crate::facts::Facts;
use crate::given::given_next;
use crate::method::Method;
use crate::rising::{Rising, frame_at};
use crate::shared_frame::SharedFrame;
use crate::successors::successors_of;
use flow_types::Steps;
use jvm_base::{List, NoMemory};
use program_image::Image;
use std::alloc::Global;
use std::sync::ledger::Ledger;

/// What goes on with control from the instruction at a place, and to which places.
#[derive(Drop)]
pub(crate) struct Visit {
    pub at: u32,
    pub to: List<u32>,
    pub next: SharedFrame,
}

/// What goes on from the instruction at a place, which has the frame.
fn flowing(
    alloc: Global,
    image: &Image,
    m: &Method,
    facts: &Facts,
    at: u32,
    f: &SharedFrame,
) -> Result<Visit, NoMemory>
    requires fine { IsMethod image.now m.now }
    requires known { IsKnown image.now m.now facts.now }
    ensures at { IfOk result (λ v. v.at ≡ at) }
    ensures flowing { IfOk result (λ v. IsFlowing image.now m.now f.now v) }
{
    let next = given_next(alloc, image, m, facts, at as usize, f)?;
    let to = successors_of(alloc, image, m, at)?;
    Ok(Visit { at, to, next })
}

impl Rising {
    /// What goes on from a place, if it has a frame.
    fn visit_of(
        &self,
        alloc: Global,
        image: &Image,
        m: &Method,
        facts: &Facts,
        at: u32,
    ) -> Result<Option<Visit>, NoMemory>
        requires tree { IsTree (superclasses image.now) }
        requires fine { IsMethod image.now m.now }
        requires known { IsKnown image.now m.now facts.now }
        requires marked { IsMarked self.now }
        requires catching { IsCatching image.now m.now self.now.frames self.now.catches }
        requires off { IsTakenOff image.now m.now at (ways_caught image.now m.now at)
            self.now.frames self.now.todo }
        ensures at { IfOk result (λ o. MatchOption o (frame_at self.now.frames at ≡ None)
            (λ v. v.at ≡ at)) }
        ensures visiting { IfOk result
            (λ o. MatchOption o (IsGoing image.now m.now self.now.frames self.now.todo)
            (λ v. IsVisiting image.now m.now v 0 self.now)) }
    {
        match frame_at(&self.frames, at) {
            Some(f) => Ok(Some(flowing(alloc, image, m, facts, at, f)?)),
            None => Ok(None),
        }
    }

    /// Lets what goes on from an instruction flow to one of its successors.
    fn flow_along<L: Ledger>(
        &mut self,
        alloc: Global,
        image: &Image,
        m: &Method,
        visit: &Visit,
        k: usize,
        steps: &mut Steps<L>,
    ) -> Result<(), NoMemory>
        requires tree { IsTree (superclasses image.now) }
        requires fine { IsMethod image.now m.now }
        requires way { k < length visit.now.to }
        requires visiting { IsVisiting image.now m.now visit.now k self.old }
        ensures visiting { OnOk result (IsVisiting image.now m.now visit.now (k + 1) self.new) }
        ensures falls { OnOk result ((w : ℕ → ℕ)
            → potential image.now m.now w self.new.frames self.new.todo
            ≤ potential image.now m.now w self.old.frames self.old.todo) }
        ensures cost { steps.new ≤ steps.old + 1 }
    {
        self.flow(alloc, image, &visit.next, visit.to.as_slice()[k], steps)
    }

    /// Flows to where control goes on from an instruction.
    fn go_on<L: Ledger>(
        &mut self,
        alloc: Global,
        image: &Image,
        m: &Method,
        facts: &Facts,
        at: u32,
        steps: &mut Steps<L>,
    ) -> Result<(), NoMemory>
        requires tree { IsTree (superclasses image.now) }
        requires fine { IsMethod image.now m.now }
        requires known { IsKnown image.now m.now facts.now }
        requires marked { IsMarked self.old }
        requires catching { IsCatching image.now m.now self.old.frames self.old.catches }
        requires off { IsTakenOff image.now m.now at (ways_caught image.now m.now at)
            self.old.frames self.old.todo }
        ensures marked { OnOk result (IsMarked self.new) }
        ensures catching { OnOk result
            (IsCatching image.now m.now self.new.frames self.new.catches) }
        ensures going { OnOk result (IsGoing image.now m.now self.new.frames self.new.todo) }
        ensures falls { OnOk result ((w : ℕ → ℕ)
            → potential image.now m.now w self.new.frames self.new.todo
            ≤ potential image.now m.now w self.old.frames self.old.todo) }
        ensures cost { steps.new ≤ steps.old + length (successors image.now m.now at) }
    {
        let Some(visit) = self.visit_of(alloc, image, m, facts, at)? else {
            return Ok(());
        };
        for k in 0..visit.to.len() {
            self.flow_along(alloc, image, m, &visit, k, steps)?;
        }
        Ok(())
    }

    /// Flows from an instruction that was taken off the list: to its handlers, and then on.
    pub fn visit<L: Ledger>(
        &mut self,
        alloc: Global,
        image: &Image,
        m: &Method,
        facts: &Facts,
        at: u32,
        steps: &mut Steps<L>,
    ) -> Result<(), NoMemory>
        requires tree { IsTree (superclasses image.now) }
        requires fine { IsMethod image.now m.now }
        requires known { IsKnown image.now m.now facts.now }
        requires marked { IsMarked self.old }
        requires catching { IsCatching image.now m.now self.old.frames self.old.catches }
        requires going { IsGoing image.now m.now self.old.frames (self.old.todo ++ at ∷ []) }
        ensures marked { OnOk result (IsMarked self.new) }
        ensures catching { OnOk result
            (IsCatching image.now m.now self.new.frames self.new.catches) }
        ensures going { OnOk result (IsGoing image.now m.now self.new.frames self.new.todo) }
        ensures falls { OnOk result ((w : ℕ → ℕ)
            → potential image.now m.now w self.new.frames self.new.todo
            ≤ potential image.now m.now w self.old.frames self.old.todo) }
        ensures cost { steps.new ≤ steps.old + length (edges image.now m.now at) }
    {
        self.catch(alloc, image, m, facts, at, steps)?;
        self.go_on(alloc, image, m, facts, at, steps)
    }
}
