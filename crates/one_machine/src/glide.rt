//! Steps of one thread in a row that touch nothing but its own frame, done in one loop.

ghost use Rattle.std.specs.Prelude.{◌≡◌, ◌∷◌, map, reverse, slice_get, Some};
ghost use Rattle.machine_state.specs.declared.state.ThreadState.{ThreadState};
ghost use Rattle.program_reads.specs.Whole.{IsWhole};
ghost use Rattle.shared_state.specs.Parts.{thread_state};
ghost use Rattle.step_plan.specs.Condition.{CanPlan, CanPlanIn, CanPlanOn};
ghost use Rattle.one_machine.specs.Gliding.{Always, AreGlided, AreMoves, IsGlided, frame_move};
ghost use Rattle.one_machine.specs.InPlace.{level_next, levels_next, running_next};

use crate::in_place::move_frame;
use jvm_base::{Frame, Level};
use machine_state::Mode;
use program_image::Image;
use shared_state::Thread;

/// Moves a frame on, up to so many times, as long as its instructions touch nothing else.
fn glide_frame(image: &Image, frame: &mut Frame, most: u64) -> u64
    requires whole { IsWhole image.now }
    requires can { Always (frame_move image.now) frame.old (CanPlanIn image.now) }
    ensures { AreMoves (frame_move image.now) most result frame.old frame.new }
{
    let mut place = 0;
    for taken in 0..most {
        if !move_frame(image, frame, &mut place) {
            return taken;
        }
    }
    most
}

/// Moves a level on, where it is a frame.
fn glide_level(image: &Image, level: &mut Level, most: u64) -> u64
    requires whole { IsWhole image.now }
    requires can { Always (level_next image.now) level.old (λ l. CanPlanOn image.now (Some l)) }
    ensures { AreMoves (level_next image.now) most result level.old level.new }
{
    match level {
        Level::Code(frame) => glide_frame(image, frame, most),
        Level::Init { .. } => 0,
    }
}

/// Moves the top level on.
fn glide_top(image: &Image, levels: &mut Vec<Level>, most: u64) -> u64
    requires whole { IsWhole image.now }
    requires can { Always (levels_next image.now) (reverse levels.old.items) (CanPlan image.now) }
    ensures { AreMoves (levels_next image.now) most result
        (reverse levels.old.items) (reverse levels.new.items) }
{
    match levels.last_mut() {
        Some(top) => glide_level(image, top, most),
        None => 0,
    }
}

/// Takes steps of a thread that touch its frame alone: up to so many, and so many in all.
fn glide_thread(image: &Image, thread: &mut Thread, most: u64, limit: u64) -> u64
    requires whole { IsWhole image.now }
    requires can { Always (running_next image.now thread.old.mode)
        (reverse thread.old.levels.items) (CanPlan image.now) }
    ensures { IsGlided image.now most limit result
        (thread_state thread.old) (thread_state thread.new) }
{
    let Mode::Running = thread.mode else {
        return 0;
    };
    let room = most.min(limit.saturating_sub(thread.steps));
    let taken = glide_top(image, &mut thread.levels, room);
    thread.steps += taken;
    taken
}

/// Takes such steps of the thread of a number, if there is one, and tells how many.
pub(crate) fn glide(
    image: &Image,
    threads: &mut Vec<Thread>,
    thread: u32,
    most: u64,
    limit: u64,
) -> u64
    requires whole { IsWhole image.now }
    requires can { (th : ThreadState) → slice_get (map thread_state threads.old.items) thread ≡ Some th
        → Always (running_next image.now th.mode) th.levels (CanPlan image.now) }
    ensures { AreGlided image.now thread most limit result
        (map thread_state threads.old.items) (map thread_state threads.new.items)
        (slice_get (map thread_state threads.old.items) thread) }
{
    let at = thread as usize;
    if at >= threads.len() {
        return 0;
    }
    glide_thread(image, &mut threads[at], most, limit)
}
