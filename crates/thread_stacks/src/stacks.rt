//! The segments of a node.

ghost use Rattle.std.specs.Prelude.{◌≡◌, [], ◌∷◌, ◌++◌, ◌↔◌, ◌<◌, ◌≤◌, ◌+◌, ◌^◌, true, false, IsTrue, OnOk, OnErr, IfErr, IsOk, IsSome, IfSome, Some, MatchOption, length, drop};
ghost use Rattle.std.specs.List.{list_any};
ghost use Rattle.std.specs.Option.{option_copied};
ghost use Rattle.thread_stacks.specs.declared.error.StackErr.TheVariants.{TooDeep};
ghost use Rattle.std.specs.Borrow.{sem};
ghost use Rattle.thread_stacks.specs.Lending.{lends_top_level};
ghost use Rattle.thread_stacks.specs.Running.LastPlaces.{is_at, IsLastPlace, IsLastAt, HasNone};
ghost use Rattle.thread_stacks.specs.Segments.{begun, counted, with_level, without_top, is_init_of};
ghost use Rattle.thread_stacks.specs.Stacks.{is_of, has_one, last_of, last_changed, last_gone, top_level, pushes_too_deep, initialises, CanCount};

use crate::error::StackErr;
use crate::segment::Segment;
use jvm_base::{Level, Name, NoMemory};
use std::alloc::Global;
use std::marker::Model;

/// The segments that a node has, each of a thread, the newest last.
#[derive(Drop)]
pub struct Stacks {
    segments: Vec<Segment>,
}

impl Model for Stacks {
    ghost use Rattle.std.specs.Prelude.{◌-◌, vec_len, vec_capacity};
    ghost use Rattle.thread_stacks.specs.Stacks.{Seen};

    ghost Value = { Seen };

    ghost view = { λ a. record { items = a.segments.items; room = vec_capacity a.segments - vec_len a.segments } };
}

/// Whether a segment of the thread stands there.
fn is_at(segments: &[Segment], place: usize, thread: u32) -> bool
    ensures { result ≡ is_at thread segments.now place }
{
    match segments.get(place) {
        Some(segment) => segment.thread == thread,
        None => false,
    }
}

/// Where the thread's last segment stands. The search begins at the newest segment.
#[tactic(auto, using(crate::proofs::PlaceLaws::behind, crate::proofs::PlaceLaws::one_more, crate::proofs::PlaceLaws::none_past))]
fn find_last(segments: &[Segment], thread: u32) -> Option<usize>
    ensures { MatchOption result
        (has_one thread segments.now ≡ false) (IsLastPlace thread segments.now) }
{
    for newer in 0..segments.len() {
        let place = segments.len() - 1 - newer;
        if is_at(segments, place, thread) {
            return Some(place);
        }
    }
    None
}

/// The same, with what it says of the segments.
#[tactic(auto, using(crate::proofs::PlaceLaws::is_last_at, crate::proofs::PlaceLaws::has_none))]
fn last_place(segments: &[Segment], thread: u32) -> Option<usize>
    ensures { MatchOption result (HasNone thread segments.now) (IsLastAt thread segments.now) }
{
    find_last(segments, thread)
}

impl Stacks {
    /// No segments. It takes no memory.
    pub fn new(alloc: Global) -> Stacks
        ensures { result.items ≡ [] }
    {
        Stacks {
            segments: Vec::new(alloc),
        }
    }

    /// Adds a segment for a thread that begins here.
    pub fn begin(&mut self, alloc: Global, thread: u32, object: Name) -> Result<(), NoMemory>
        ensures ok { OnOk result (self.new.items ≡ self.old.items ++ begun thread object ∷ []) }
        ensures err { OnErr result (self.new.items ≡ self.old.items) }
        ensures succeeds { 0 < self.old.room → IsOk result }
        ensures room { self.old.room ≤ self.new.room + 1 }
    {
        match self.segments.push(Segment::begin(alloc, thread, object)) {
            Ok(()) => Ok(()),
            Err(_) => Err(NoMemory),
        }
    }

    /// The thread's last segment; `None` exactly where it has none here.
    pub fn last(&self, thread: u32) -> Option<&Segment>
        ensures { option_copied result ≡ last_of thread self.now.items }
    {
        let place = last_place(self.segments.as_slice(), thread)?;
        self.segments.get(place)
    }

    /// Counts a step of the thread.
    pub fn counted(&mut self, thread: u32)
        requires { CanCount thread self.old.items }
        ensures items { self.new.items ≡ last_changed counted thread self.old.items }
        ensures room { self.old.room ≤ self.new.room }
    {
        match last_place(self.segments.as_slice(), thread) {
            Some(place) => self.segments[place].tick(),
            None => unreachable!(),
        }
    }

    /// Takes the thread's last segment away.
    pub fn finish(&mut self, thread: u32)
        ensures items { self.new.items ≡ last_gone thread self.old.items }
        ensures room { self.old.room ≤ self.new.room }
    {
        if let Some(place) = last_place(self.segments.as_slice(), thread) {
            let _ = self.segments.remove(place);
        }
    }

    /// Pushes a level on the thread's last segment.
    pub fn push(&mut self, thread: u32, level: Level) -> Result<(), StackErr>
        requires { IsTrue (has_one thread self.old.items) }
        ensures ok { OnOk result
            (self.new.items ≡ last_changed (with_level level) thread self.old.items) }
        ensures err { OnErr result (self.new.items ≡ self.old.items) }
        ensures deep { IfErr result
            (λ e. e ≡ TooDeep ↔ IsTrue (pushes_too_deep thread level self.old.items)) }
        ensures shallow { OnOk result (pushes_too_deep thread level self.old.items ≡ false) }
        ensures room { self.old.room ≤ self.new.room }
    {
        let place = match last_place(self.segments.as_slice(), thread) {
            Some(place) => place,
            None => unreachable!(),
        };
        if self.segments[place].is_too_deep(&level) {
            return Err(StackErr::TooDeep);
        }
        self.segments[place].push(level)?;
        Ok(())
    }

    /// Takes the thread's top level here off; `None` exactly where its last segment has none, or it
    /// has no segment here.
    pub fn pop(&mut self, thread: u32) -> Option<Level>
        ensures level { result ≡ top_level thread self.old.items }
        ensures rest { self.new.items ≡ last_changed without_top thread self.old.items }
        ensures room { self.old.room ≤ self.new.room }
    {
        let place = last_place(self.segments.as_slice(), thread)?;
        self.segments[place].pop()
    }

    /// The thread's top level here, to be changed there; `None` exactly where `pop` would answer it.
    pub fn top(&mut self, thread: u32) -> Option<&mut Level>
        ensures* writes_back { sem 𝓛 (lends_top_level self.entry thread result) }
        ensures variant { IsSome result ↔ IsSome (top_level thread self.old.items) }
        ensures value { IfSome result (λ l. top_level thread self.old.items ≡ Some l.now) }
    {
        let place = last_place(self.segments.as_slice(), thread)?;
        self.segments[place].top()
    }

    /// Whether the thread initialises the class in a segment here.
    pub fn has_init(&self, thread: u32, class: u32) -> bool
        ensures { result ≡ initialises thread class self.now.items }
    {
        self.segments.as_slice().iter().any(|segment| segment.thread == thread
            && segment.initialises(class))
    }
}
