//! The frames so far, and the places whose frames rose.

ghost use Rattle.std.specs.Prelude.{◌≡◌, ◌+◌, ◌<◌, ◌≤◌, ◌↔◌, ◌∷◌, ◌++◌, ◌⊎◌, [], length, slice_get, slice_set, OnOk, IfOk, MatchOption, IsTrue, true, false, Some, None, ℕ};
ghost use Rattle.std.specs.Option.{option_copied};
ghost use Rattle.std.proofs.Math.ListN.{replicate};
ghost use Rattle.flow_types.specs.Tree.{superclasses, IsTree};
ghost use Rattle.flow_verifier.specs.Methods.{ops_of, IsMethod};
ghost use Rattle.flow_verifier.specs.Typing.{frame_at, entry_frame};
ghost use Rattle.flow_verifier.specs.Worklist.Flowing.{Flows, Rose, IsAlike};
ghost use Rattle.flow_verifier.specs.Worklist.Going.{In, IsFlagged, IsMarked, IsStart};

use crate::catches::Catches;
use crate::method::{Method, ops_of};
use crate::shared_frame::SharedFrame;
use flow_types::Steps;
use jvm_base::{List, NoMemory};
use program_image::Image;
use std::alloc::Global;
use std::sync::ledger::Ledger;

/// The frames so far, the places to visit since their frames rose, for each place whether it is
/// among these, and what handlers have taken.
#[derive(Drop)]
pub(crate) struct Rising {
    pub frames: List<Option<SharedFrame>>,
    pub todo: List<u32>,
    pub queued: List<bool>,
    pub catches: Catches,
}

/// Lets a frame flow to a place, and tells whether the place's frame rose.
fn rise(
    alloc: Global,
    image: &Image,
    place: &mut Option<SharedFrame>,
    g: &SharedFrame,
) -> Result<bool, NoMemory>
    requires tree { IsTree (superclasses image.now) }
    requires alike { IsAlike g.now place.old }
    ensures { IfOk result (λ rose. Rose (superclasses image.now) g.now place.old place.new rose) }
{
    match place {
        Some(f) => {
            if f.takes(alloc, image, g)? {
                return Ok(false);
            }
            f.raise(alloc, image, g)?;
        }
        None => *place = Some(g.share()?),
    }
    Ok(true)
}

/// No frame for each place.
pub(crate) fn no_frames(alloc: Global, count: usize) -> Result<List<Option<SharedFrame>>, NoMemory>
    ensures { IfOk result (λ fs. fs ≡ replicate count None) }
{
    let mut frames = List::new(alloc);
    for _ in 0..count {
        frames.push(None)?;
    }
    Ok(frames)
}

/// A flag for each place, none of them set.
pub(crate) fn no_flags(alloc: Global, count: usize) -> Result<List<bool>, NoMemory>
    ensures { IfOk result (λ qs. qs ≡ replicate count false) }
{
    let mut flags = List::new(alloc);
    for _ in 0..count {
        flags.push(false)?;
    }
    Ok(flags)
}

/// The frame of a place, if it has one.
pub(crate) fn frame_at(frames: &List<Option<SharedFrame>>, at: u32) -> Option<&SharedFrame>
    ensures { option_copied result ≡ frame_at frames.now at }
{
    match frames.get(at as usize) {
        Some(Some(f)) => Some(f),
        _ => None,
    }
}

fn clear(queued: &mut List<bool>, at: u32)
    ensures { queued.new ≡ slice_set queued.old at false }
{
    if (at as usize) < queued.len() {
        queued.set(at as usize, false);
    }
}

impl Rising {
    /// No frames but the entry's, which is to be visited.
    pub fn start(alloc: Global, image: &Image, m: &Method) -> Result<Rising, NoMemory>
        requires fine { IsMethod image.now m.now }
        ensures { IfOk result (λ s. IsStart image.now m.now s) }
    {
        let count = ops_of(image, m.number).len();
        let mut frames = no_frames(alloc, count)?;
        frames.set(0, Some(SharedFrame::entry(m)?));
        let queued = no_flags(alloc, count)?;
        let catches = Catches::new(alloc, image, m)?;
        let mut todo = List::new(alloc);
        todo.push(0)?;
        Ok(Rising {
            frames,
            todo,
            queued,
            catches,
        })
    }

    /// Takes a place off the list.
    pub fn pop(&mut self) -> Option<u32>
        requires marked { IsMarked self.old }
        ensures marked { IsMarked self.new }
        ensures frames { self.new.frames ≡ self.old.frames }
        ensures catches { self.new.catches ≡ self.old.catches }
        ensures todo { MatchOption result (self.old.todo ≡ []) (λ at. self.old.todo
            ≡ self.new.todo ++ at ∷ []) }
    {
        let at = self.todo.pop()?;
        clear(&mut self.queued, at);
        Some(at)
    }

    fn is_queued(&self, at: u32) -> bool
        ensures { IsTrue result ↔ (slice_get self.now.queued at ≡ Some true) }
    {
        match self.queued.get(at as usize) {
            Some(flag) => *flag,
            None => false,
        }
    }

    /// Puts a place on the list, where it doesn't stand there.
    fn mark(&mut self, to: u32) -> Result<(), NoMemory>
        requires marked { IsMarked self.old }
        requires within { to < length self.old.frames }
        ensures marked { OnOk result (IsMarked self.new) }
        ensures frames { self.new.frames ≡ self.old.frames }
        ensures catches { self.new.catches ≡ self.old.catches }
        ensures todo { OnOk result ((self.new.todo ≡ self.old.todo ++ to ∷ []) ⊎ ((self.new.todo
            ≡ self.old.todo) × In to self.old.todo)) }
    {
        if self.is_queued(to) {
            return Ok(());
        }
        self.queued.set(to as usize, true);
        self.todo.push(to)
    }

    /// Lets a frame flow to a place, which is one step.
    pub fn flow<L: Ledger>(
        &mut self,
        alloc: Global,
        image: &Image,
        g: &SharedFrame,
        to: u32,
        steps: &mut Steps<L>,
    ) -> Result<(), NoMemory>
        requires tree { IsTree (superclasses image.now) }
        requires marked { IsMarked self.old }
        requires within { to < length self.old.frames }
        requires alike { IsAlike g.now (frame_at self.old.frames to) }
        ensures marked { OnOk result (IsMarked self.new) }
        ensures flows { OnOk result (Flows (superclasses image.now) g.now to self.old.frames self.old.todo
            self.new.frames self.new.todo) }
        ensures catches { self.new.catches ≡ self.old.catches }
        ensures cost { steps.new ≤ steps.old + 1 }
    {
        steps.tick();
        let rose = match self.frames.get_mut(to as usize) {
            Some(place) => rise(alloc, image, place, g)?,
            None => unreachable!(),
        };
        if rose { self.mark(to) } else { Ok(()) }
    }
}
