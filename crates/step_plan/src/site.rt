//! Where a plan is made.

ghost use Rattle.std.specs.Prelude.{◌≡◌, ◌≤◌, ◌∷◌, [], reverse};
ghost use Rattle.machine_state.specs.Frames.{frames};
ghost use Rattle.step_plan.specs.Depth.{has_room, called};

use crate::plan::{Next, fault};
use jvm_base::{Level, List, Name, Value};
use program_image::Image;
use program_reads::{Tables, boot};

/// The most frames that a thread has.
const MAX_DEPTH: usize = 1024;

/// A thread at its levels, of which the last is the top one.
#[derive(Clone, Copy)]
pub(crate) struct Site<'a> {
    pub image: &'a Image,
    pub tables: &'a Tables,
    pub first: bool,
    pub object: Name,
    pub base: u32,
    pub levels: &'a [Level],
}

/// 1 for a frame, and 0 for another level.
fn frame_count(level: &Level) -> usize
    ensures count { result ≡ frames (level.now ∷ []) }
    ensures few { result ≤ 1 }
{
    match level {
        Level::Code(_) => 1,
        Level::Init { .. } => 0,
    }
}

/// How many of the levels are frames.
fn frames(levels: &[Level]) -> usize
    ensures { result ≡ frames (reverse levels.now) }
{
    let mut count = 0;
    for level in levels {
        count += frame_count(level);
    }
    count
}

/// Whether there is room for one more frame. Frames are counted only where the levels could be too
/// many.
#[tactic(auto, using(crate::proofs::DepthLaws::frames_few))]
fn has_room(base: u32, levels: &[Level]) -> bool
    ensures { result ≡ has_room base levels.now }
{
    let base = base as usize;
    if base >= MAX_DEPTH {
        return false;
    }
    let most = MAX_DEPTH - base;
    levels.len() < most || frames(levels) < most
}

/// A call of a method with code, unless there are too many frames.
pub(crate) fn calls(site: &Site<'_>, method: u32, values: List<Value>) -> Next
    ensures { result ≡ called (has_room site.now.base site.now.levels.now) method values }
{
    if has_room(site.base, site.levels) {
        Next::Calls(method, values)
    } else {
        fault(boot::STACK_OVERFLOW)
    }
}
