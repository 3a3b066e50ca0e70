//! What instructions throw to handlers.

ghost use Rattle.std.specs.Prelude.{◌≡◌, ◌+◌, ◌<◌, ◌≤◌, ◌∷◌, ◌++◌, [], ℕ, if◌then◌else◌, length, slice_get, slice_set, IfOk, IfSome, MatchOption, OnOk, Some};
ghost use Rattle.std.specs.List.{list_any};
ghost use Rattle.flow_types.specs.Tree.{superclasses, IsTree};
ghost use Rattle.flow_types.specs.Frames.{clash_frame, frame_joined};
ghost use Rattle.flow_verifier.specs.Methods.{IsMethod};
ghost use Rattle.flow_verifier.specs.Given.{covers};
ghost use Rattle.flow_verifier.specs.Typing.{frame_at, FitsPlace};
ghost use Rattle.flow_verifier.specs.Worklist.Flowing.{IsAlike, IsMore};
ghost use Rattle.flow_verifier.specs.Worklist.Ranges.{range_at};
ghost use Rattle.flow_verifier.specs.Worklist.Leading.{ways_caught};
ghost use Rattle.flow_verifier.specs.Worklist.HandlerTrees.{handlers_in, IsBounded};
ghost use Rattle.flow_verifier.specs.Worklist.Catching.{without_operands, IsCatching, IsUncaught};
ghost use Rattle.flow_verifier.specs.Worklist.Going.{IsKnown, IsMarked, IsGoing, IsTakenOff, IsThrowing};
ghost use Rattle.flow_verifier.specs.Worklist.Potential.{potential};

use crate::facts::Facts;
use crate::handler_tree::HandlerTree;
use crate::method::{Handler, Method, address_of};
use crate::ranges::Ranges;
use crate::rising::{Rising, frame_at, no_frames};
use crate::shared_frame::SharedFrame;
use flow_types::Steps;
use jvm_base::{List, NoMemory};
use program_image::Image;
use std::alloc::Global;
use std::sync::ledger::Ledger;

/// Ranges of places that the same handlers cover, and for each the least frame without operands
/// above those of its instructions that threw to its handlers. Only what lies above it flows to
/// them once more.
#[derive(Drop)]
pub(crate) struct Catches {
    pub ranges: Ranges,
    pub frames: List<Option<SharedFrame>>,
}

/// What flows to the handlers of a place: what its range has caught, the same below the class that
/// a handler takes, and the handlers that cover the place.
#[derive(Drop)]
pub(crate) struct Catch {
    pub at: u32,
    pub caught: SharedFrame,
    pub thrown: SharedFrame,
    pub handlers: List<Handler>,
}

impl Catches {
    /// The ranges of a method, of which none has caught anything.
    pub fn new(alloc: Global, image: &Image, m: &Method) -> Result<Catches, NoMemory>
        requires fine { IsMethod image.now m.now }
        ensures { IfOk result (λ s. IsUncaught image.now m.now s) }
    {
        let ranges = Ranges::new(alloc, image, m)?;
        let frames = no_frames(alloc, ranges.count)?;
        Ok(Catches { ranges, frames })
    }

    /// What the range of a place has caught.
    fn of(&self, at: u32) -> &Option<SharedFrame>
        requires place { at < length self.now.ranges.number }
        requires range { range_at self.now.ranges at < length self.now.frames }
        ensures { result.now ≡ frame_at self.now.frames (range_at self.now.ranges at) }
    {
        &self.frames.as_slice()[self.ranges.of(at) as usize]
    }

    /// Keeps what the range of a place has caught.
    fn keep(&mut self, at: u32, caught: SharedFrame)
        requires place { at < length self.old.ranges.number }
        requires range { range_at self.old.ranges at < length self.old.frames }
        ensures ranges { self.new.ranges ≡ self.old.ranges }
        ensures frames { self.new.frames
            ≡ slice_set self.old.frames (range_at self.old.ranges at) (Some caught) }
    {
        let range = self.ranges.of(at) as usize;
        self.frames.set(range, Some(caught));
    }
}

impl Catch {
    /// What the range has caught.
    fn caught(self) -> SharedFrame
        ensures { result ≡ self.caught }
    {
        self.caught
    }
}

/// What a range catches at first. Where no handler covers it, the clash frame, above which nothing
/// lies.
fn first_caught(
    handlers: &HandlerTree,
    address: u32,
    f: &SharedFrame,
) -> Result<SharedFrame, NoMemory>
    requires { IsBounded handlers.now }
    ensures { IfOk result (λ c. c ≡ (if list_any (covers address) (handlers_in handlers.now)
        then without_operands f.now else clash_frame)) }
{
    if handlers.any_covers(address) {
        f.without_operands()
    } else {
        Ok(SharedFrame::clash())
    }
}

/// The least frame without operands above one and another one's locals, if it isn't the first.
fn raised(
    alloc: Global,
    image: &Image,
    before: &SharedFrame,
    f: &SharedFrame,
) -> Result<Option<SharedFrame>, NoMemory>
    requires tree { IsTree (superclasses image.now) }
    requires alike { IsAlike (without_operands f.now) (Some before.now) }
    ensures { IfOk result (λ o. MatchOption o
        (FitsPlace (superclasses image.now) (without_operands f.now) (Some before.now))
        (λ c. c ≡ frame_joined (superclasses image.now) before.now (without_operands f.now))) }
{
    if before.is_clash() {
        return Ok(None);
    }
    let low = f.without_operands()?;
    if before.takes(alloc, image, &low)? {
        return Ok(None);
    }
    let mut caught = before.share()?;
    caught.raise(alloc, image, &low)?;
    Ok(Some(caught))
}

/// What a range has caught once it catches a frame more, if that is more than before.
fn more_caught(
    alloc: Global,
    image: &Image,
    handlers: &HandlerTree,
    address: u32,
    before: &Option<SharedFrame>,
    f: &SharedFrame,
) -> Result<Option<SharedFrame>, NoMemory>
    requires tree { IsTree (superclasses image.now) }
    requires bounded { IsBounded handlers.now }
    requires alike { IsAlike (without_operands f.now) before.now }
    ensures { IfOk result (λ o. MatchOption o
        (FitsPlace (superclasses image.now) (without_operands f.now) before.now)
        (λ c. IsMore (superclasses image.now)
        (list_any (covers address) (handlers_in handlers.now)) before.now f.now c)) }
{
    match before {
        Some(before) => raised(alloc, image, before, f),
        None => Ok(Some(first_caught(handlers, address, f)?)),
    }
}

impl Rising {
    /// What flows to the handlers of a place that was taken off the list, if its range has caught
    /// more with the place's frame than before.
    fn catch_of(
        &self,
        alloc: Global,
        image: &Image,
        m: &Method,
        facts: &Facts,
        at: u32,
    ) -> Result<Option<Catch>, NoMemory>
        requires tree { IsTree (superclasses image.now) }
        requires fine { IsMethod image.now m.now }
        requires known { IsKnown image.now m.now facts.now }
        requires marked { IsMarked self.now }
        requires catching { IsCatching image.now m.now self.now.frames self.now.catches }
        requires going { IsGoing image.now m.now self.now.frames (self.now.todo ++ at ∷ []) }
        ensures at { IfOk result (λ o. IfSome o (λ c. c.at ≡ at)) }
        ensures throwing { IfOk result (λ o. MatchOption o
            (IsTakenOff image.now m.now at (ways_caught image.now m.now at)
            self.now.frames self.now.todo)
            (λ c. IsThrowing image.now m.now c 0 self.now)) }
    {
        let Some(f) = frame_at(&self.frames, at) else {
            return Ok(None);
        };
        let address = address_of(image, m, at as usize);
        let before = self.catches.of(at);
        let Some(caught) = more_caught(alloc, image, &facts.handlers, address, before, f)? else {
            return Ok(None);
        };
        let thrown = caught.catcher(alloc, m)?;
        let handlers = facts.handlers.covering(alloc, address)?;
        Ok(Some(Catch {
            at,
            caught,
            thrown,
            handlers,
        }))
    }

    /// Lets what a range has caught flow to one of the handlers that cover the place.
    fn throw<L: Ledger>(
        &mut self,
        alloc: Global,
        image: &Image,
        m: &Method,
        catch: &mut Catch,
        k: usize,
        steps: &mut Steps<L>,
    ) -> Result<(), NoMemory>
        requires tree { IsTree (superclasses image.now) }
        requires fine { IsMethod image.now m.now }
        requires handler { k < length catch.old.handlers }
        requires throwing { IsThrowing image.now m.now catch.old k self.old }
        ensures at { catch.new.at ≡ catch.old.at }
        ensures handlers { catch.new.handlers ≡ catch.old.handlers }
        ensures throwing { OnOk result (IsThrowing image.now m.now catch.new (k + 1) self.new) }
        ensures falls { OnOk result ((w : ℕ → ℕ)
            → potential image.now m.now w self.new.frames self.new.todo
            ≤ potential image.now m.now w self.old.frames self.old.todo) }
        ensures cost { steps.new ≤ steps.old + 1 }
    {
        let handler = catch.handlers.as_slice()[k];
        catch.thrown.put_class(alloc, handler.class)?;
        self.flow(alloc, image, &catch.thrown, handler.to, steps)
    }

    /// Lets what a range has caught flow to each handler that covers the place.
    fn throw_to_all<L: Ledger>(
        &mut self,
        alloc: Global,
        image: &Image,
        m: &Method,
        catch: &mut Catch,
        steps: &mut Steps<L>,
    ) -> Result<(), NoMemory>
        requires tree { IsTree (superclasses image.now) }
        requires fine { IsMethod image.now m.now }
        requires throwing { IsThrowing image.now m.now catch.old 0 self.old }
        ensures at { catch.new.at ≡ catch.old.at }
        ensures throwing { OnOk result
            (IsThrowing image.now m.now catch.new (length catch.new.handlers) self.new) }
        ensures falls { OnOk result ((w : ℕ → ℕ)
            → potential image.now m.now w self.new.frames self.new.todo
            ≤ potential image.now m.now w self.old.frames self.old.todo) }
        ensures cost { steps.new ≤ steps.old + ways_caught image.now m.now catch.old.at }
    {
        for k in 0..catch.handlers.len() {
            self.throw(alloc, image, m, catch, k, steps)?;
        }
        Ok(())
    }

    /// Lets the handlers of a place that was taken off the list take what its range has caught with
    /// the place's frame, where they haven't taken it yet.
    pub fn catch<L: Ledger>(
        &mut self,
        alloc: Global,
        image: &Image,
        m: &Method,
        facts: &Facts,
        at: u32,
        steps: &mut Steps<L>,
    ) -> Result<(), NoMemory>
        requires tree { IsTree (superclasses image.now) }
        requires fine { IsMethod image.now m.now }
        requires known { IsKnown image.now m.now facts.now }
        requires marked { IsMarked self.old }
        requires catching { IsCatching image.now m.now self.old.frames self.old.catches }
        requires going { IsGoing image.now m.now self.old.frames (self.old.todo ++ at ∷ []) }
        ensures marked { OnOk result (IsMarked self.new) }
        ensures catching { OnOk result
            (IsCatching image.now m.now self.new.frames self.new.catches) }
        ensures off { OnOk result (IsTakenOff image.now m.now at (ways_caught image.now m.now at)
            self.new.frames self.new.todo) }
        ensures falls { OnOk result ((w : ℕ → ℕ)
            → potential image.now m.now w self.new.frames self.new.todo
            ≤ potential image.now m.now w self.old.frames self.old.todo) }
        ensures cost { steps.new ≤ steps.old + ways_caught image.now m.now at }
    {
        let Some(mut catch) = self.catch_of(alloc, image, m, facts, at)? else {
            return Ok(());
        };
        self.throw_to_all(alloc, image, m, &mut catch, steps)?;
        self.catches.keep(at, catch.caught());
        Ok(())
    }
}
