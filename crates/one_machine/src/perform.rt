//! A step, done whole or not at all.

ghost use Rattle.std.specs.Prelude.{◌≡◌, ◌+◌, ◌<◌, length, map, filter, reverse, slice_get, vec_len, vec_capacity, Some, IsErr, IfOk, OnOk, OnErr};
ghost use Rattle.machine_state.specs.Changes.{changed, with_ended};
ghost use Rattle.machine_state.specs.Serving.{changes_of, effect_list};
ghost use Rattle.machine_state.specs.Step.{after as stepped};
ghost use Rattle.program_reads.specs.Whole.{IsWhole};
ghost use Rattle.shared_state.specs.Orderly.{IsOrderly, after_end, ended_in, lasting};
ghost use Rattle.shared_state.specs.Parts.{state_of, thread_state};
ghost use Rattle.shared_state.specs.declared.thread.Thread.{Thread as Running};
ghost use Rattle.step_after.specs.Going.{stand_of, CanGoOn};
ghost use Rattle.one_machine.specs.Doing.{is_made, IsNextState, IsPrepared};

use jvm_base::NoMemory;
use machine_state::{Answer, Effect, Effects, Mode};
use program_image::Image;
use shared_state::{Shared, Thread};
use std::alloc::Global;
use step_after::{After, go_on};
use step_attempt::Going;
use step_complete::reserve_level;

/// Whether the effect makes an object.
fn is_made(effect: &Effect) -> bool
    ensures { result ≡ is_made effect.now }
{
    matches!(effect, Effect::Made(_, _))
}

/// How many objects the effects make.
pub(crate) fn made(effects: &Effects) -> u64
    ensures { result ≡ length (filter is_made (effect_list effects.now)) }
{
    match effects {
        Effects::Nothing => 0,
        Effects::One(effect) => u64::from(is_made(effect)),
        Effects::Two(first, second) => u64::from(is_made(first)) + u64::from(is_made(second)),
        Effects::Many(effects) => made_among(effects.as_slice()),
    }
}

/// How many objects these effects make.
fn made_among(effects: &[Effect]) -> u64
    ensures { result ≡ length (filter is_made effects.now) }
{
    let mut count = 0;
    for effect in effects {
        if is_made(effect) {
            count += 1;
        }
    }
    count
}

/// Makes a thread ready for a step more: there is room for a level, and its steps can be counted. A
/// thread that took 2^64 steps would be want of memory.
fn make_ready(thread: &mut Thread) -> Result<u64, NoMemory>
    ensures steps { IfOk result (λ steps. steps ≡ thread.old.steps + 1) }
    ensures room { OnOk result (vec_len thread.new.levels < vec_capacity thread.new.levels) }
    ensures same { thread_state thread.new ≡ thread_state thread.old }
{
    let steps = thread.steps.checked_add(1).ok_or(NoMemory)?;
    reserve_level(&mut thread.levels)?;
    Ok(steps)
}

/// The thread goes on after its step. It takes no memory.
fn finish(image: &Image, thread: &mut Thread, after: After, answer: Answer, steps: u64)
    requires whole { IsWhole image.now }
    requires can { CanGoOn image.now after answer (reverse thread.old.levels.items) }
    requires room { vec_len thread.old.levels < vec_capacity thread.old.levels }
    requires steps { steps ≡ thread.old.steps + 1 }
    ensures { thread_state thread.new ≡ stepped (thread_state thread.old)
        (stand_of image.now after answer thread.old.mode (reverse thread.old.levels.items)) }
{
    go_on(image, after, answer, &mut thread.mode, &mut thread.levels);
    thread.steps = steps;
}

/// A thread has ended, if it is there.
fn end_thread(threads: &mut Vec<Thread>, thread: u32)
    ensures { map thread_state threads.new.items
        ≡ with_ended thread (map thread_state threads.old.items) }
{
    if (thread as usize) < threads.len() {
        threads[thread as usize].mode = Mode::Ended;
    }
}

/// A thread has ended, if one does by a step.
fn end(threads: &mut Vec<Thread>, ended: Option<u32>)
    ensures { map thread_state threads.new.items
        ≡ after_end ended (map thread_state threads.old.items) }
{
    if let Some(thread) = ended {
        end_thread(threads, thread);
    }
}

/// There is want of memory, and the effects aren't done.
fn give_up(_effects: Effects) -> Result<(u64, Option<u32>), NoMemory>
    ensures { IsErr result }
{
    Err(NoMemory)
}

/// Makes a thread ready for a step more and does the effects, or nothing. It answers how many steps the
/// thread has then, and which thread is still to end.
fn change(
    alloc: Global,
    shared: &mut Shared,
    threads: &mut Vec<Thread>,
    at: usize,
    effects: Effects,
) -> Result<(u64, Option<u32>), NoMemory>
    requires there { at < length threads.old.items }
    requires orderly { IsOrderly shared.old.heap (changes_of shared.old.heap effects) }
    ensures ok { OnOk result (state_of shared.new threads.new.items
        ≡ changed (lasting (changes_of shared.old.heap effects))
        (state_of shared.old threads.old.items)) }
    ensures ready { IfOk result (λ r. IsPrepared at r.0 threads.old.items threads.new.items) }
    ensures ended { IfOk result (λ r. r.1 ≡ ended_in (changes_of shared.old.heap effects)) }
    ensures err { OnErr result (state_of shared.new threads.new.items
        ≡ state_of shared.old threads.old.items) }
{
    let Ok(steps) = make_ready(&mut threads[at]) else {
        return give_up(effects);
    };
    let ended = shared.apply(alloc, threads, effects)?;
    Ok((steps, ended))
}

/// Does a step of a thread: its changes, the thread goes on, and it ends if that is among the changes.
/// Nothing is done where memory runs out.
pub(crate) fn perform(
    alloc: Global,
    image: &Image,
    shared: &mut Shared,
    threads: &mut Vec<Thread>,
    at: usize,
    going: Going,
) -> Result<(), NoMemory>
    requires whole { IsWhole image.now }
    requires there { at < length threads.old.items }
    requires can { (th : Running) → slice_get threads.old.items at ≡ Some th →
        CanGoOn image.now going.after going.served.answer (reverse th.levels.items) }
    requires orderly { IsOrderly shared.old.heap (changes_of shared.old.heap going.served.effects) }
    ensures ok { OnOk result (IsNextState image.now (state_of shared.old threads.old.items) at going
        (state_of shared.new threads.new.items)) }
    ensures err { OnErr result (state_of shared.new threads.new.items
        ≡ state_of shared.old threads.old.items) }
{
    let Going { served, after } = going;
    let answer = served.answer;
    let (steps, ended) = change(alloc, shared, threads, at, served.effects)?;
    finish(image, &mut threads[at], after, answer, steps);
    end(threads, ended);
    Ok(())
}
