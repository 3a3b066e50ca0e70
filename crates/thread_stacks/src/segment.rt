//! A segment of a thread's stack.

ghost use Rattle.std.specs.Prelude.{◌≡◌, ◌<◌, ◌+◌, ◌^◌, ◌&&◌, OnOk, OnErr, IsSome, IfSome, Some, ◌↔◌, length, take, slice_set};
ghost use Rattle.std.specs.List.{list_any, count_by};
ghost use Rattle.std.specs.Option.{option_copied};
ghost use Rattle.std.specs.Borrow.{sem};
ghost use Rattle.thread_stacks.specs.Lending.{lends_top};
ghost use Rattle.thread_stacks.specs.Segments.{begun, counted, with_level, without_top, with_top, top_of, is_code, is_init_of, is_too_deep, depth};

use jvm_base::{Level, List, Name, NoMemory};
use std::alloc::Global;

/// The most frames that a thread has.
const DEPTH_LIMIT: u64 = 1024;

/// A part of a thread's stack that one node holds: of the thread with this Thread object, above
/// `base` of its frames, begun by a call from a node or by the thread itself. `levels` has the top
/// one last, and `count` is how many steps the thread took, as far as this segment knows.
#[derive(Drop)]
pub struct Segment {
    pub thread: u32,
    pub object: Name,
    pub base: u32,
    pub from: Option<u32>,
    pub levels: List<Level>,
    pub count: u64,
}

fn is_code(level: &Level) -> bool
    ensures { result ≡ is_code level.now }
{
    matches!(level, Level::Code(_))
}

fn is_init_of(level: &Level, class: u32) -> bool
    ensures { result ≡ is_init_of class level.now }
{
    match level {
        Level::Code(_) => false,
        Level::Init {
            class: of,
            begun: _,
        } => *of == class,
    }
}

/// How many of the levels are frames.
fn code_count(levels: &[Level]) -> usize
    ensures { result ≡ count_by is_code levels.now }
{
    let mut count = 0;
    for level in levels {
        if is_code(level) {
            count += 1;
        }
    }
    count
}

impl Segment {
    /// One that a thread begins with.
    pub(crate) fn begin(alloc: Global, thread: u32, object: Name) -> Segment
        ensures { result ≡ begun thread object }
    {
        Segment {
            thread,
            object,
            base: 0,
            from: None,
            levels: List::new(alloc),
            count: 0,
        }
    }

    /// Counts a step.
    pub(crate) fn tick(&mut self)
        requires { self.old.count + 1 < 2 ^ 64 }
        ensures { self.new ≡ counted self.old }
    {
        self.count += 1;
    }

    /// Whether a level initialises the class.
    pub(crate) fn initialises(&self, class: u32) -> bool
        ensures { result ≡ list_any (is_init_of class) self.now.levels }
    {
        self.levels
            .as_slice()
            .iter()
            .any(|level| is_init_of(level, class))
    }

    /// Whether the level would be a frame too many. The frames are counted only where the levels are
    /// many enough.
    pub(crate) fn is_too_deep(&self, level: &Level) -> bool
        ensures { result ≡ is_too_deep level.now self.now }
    {
        let base = u64::from(self.base);
        let most = base.saturating_add(self.levels.len() as u64);
        is_code(level)
            && most >= DEPTH_LIMIT
            && base.saturating_add(code_count(self.levels.as_slice()) as u64) >= DEPTH_LIMIT
    }

    /// Pushes a level.
    pub(crate) fn push(&mut self, level: Level) -> Result<(), NoMemory>
        ensures ok { OnOk result (self.new ≡ with_level level self.old) }
        ensures err { OnErr result (self.new ≡ self.old) }
    {
        self.levels.push(level)
    }

    /// Takes the top level off.
    pub(crate) fn pop(&mut self) -> Option<Level>
        ensures level { result ≡ top_of self.old.levels }
        ensures rest { self.new ≡ without_top self.old }
    {
        self.levels.pop()
    }

    /// The top level, to be changed there.
    pub(crate) fn top(&mut self) -> Option<&mut Level>
        ensures* writes_back { sem 𝓛 (lends_top self.entry result) }
        ensures variant { IsSome result ↔ IsSome (top_of self.old.levels) }
        ensures value { IfSome result (λ l. top_of self.old.levels ≡ Some l.now) }
    {
        let place = self.levels.len().saturating_sub(1);
        self.levels.get_mut(place)
    }
}
