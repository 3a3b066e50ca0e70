//! Which threads can take a step.

ghost use Rattle.std.specs.Prelude.{◌≡◌, is_some, slice_get, IfOk, IfSome};
ghost use Rattle.machine_state.specs.declared.served.Wish.TheVariants.{Exactly};
ghost use Rattle.machine_state.specs.Runs.{any_choice};
ghost use Rattle.step_attempt.specs.Going.{state_at};
ghost use Rattle.one_machine.specs.Ready.{able, IsAble, IsFirst, IsNext, IsReady, machine_at};

use crate::taking::thread_at;
use jvm_base::{Name, NoMemory};
use machine_state::{Choice, Wish};
use std::alloc::Global;
use step_attempt::{Going, Site, attempt};

/// The name of the choice of a step that makes nothing.
pub(crate) const NO_NAME: Name = Name {
    node: 0,
    class: 0,
    index: 0,
};

/// The choice of a thread that picks nobody and makes nothing: that of each step of
/// [`glide`](crate::Machine::glide).
pub fn any_choice(thread: u32) -> Choice
    ensures { result ≡ any_choice thread }
{
    Choice {
        thread,
        pick: 0,
        name: NO_NAME,
    }
}

/// Some step of a thread, which picks nobody and makes nothing.
pub(crate) fn any_step(thread: u32) -> Wish
    ensures { result ≡ Exactly (any_choice thread) }
{
    Wish::Exactly(any_choice(thread))
}

/// Whether there is a step that can be taken.
fn is_step(going: Option<Going>) -> bool
    ensures { result ≡ is_some going }
{
    going.is_some()
}

/// Whether a thread can take a step, with whatever pick and name.
fn can_step(alloc: Global, site: &Site<'_>, thread: u32) -> Result<bool, NoMemory>
    requires { IsReady site.now.image.now (machine_at site.now) }
    ensures { IfOk result (λ can. can ≡ able site.now.image.now (state_at site.now) thread
        (slice_get (state_at site.now).threads thread)) }
{
    let Some(it) = thread_at(site.threads, thread as usize) else {
        return Ok(false);
    };
    let site = Site {
        wish: any_step(thread),
        ..*site
    };
    Ok(is_step(attempt(alloc, &site, it)?))
}

/// The first thread from a number on that can take a step. One whose number had more than 32 bits
/// would be want of memory.
fn first_able(alloc: Global, site: &Site<'_>, from: u32) -> Result<Option<u32>, NoMemory>
    requires { IsReady site.now.image.now (machine_at site.now) }
    ensures able { IfOk result (IsAble site.now.image.now (state_at site.now) from) }
    ensures first { IfOk result (λ o. IfSome o (IsFirst site.now.image.now (state_at site.now) from)) }
{
    for at in from as usize..site.threads.len() {
        let Ok(thread) = u32::try_from(at) else {
            return Err(NoMemory);
        };
        if can_step(alloc, site, thread)? {
            return Ok(Some(thread));
        }
    }
    Ok(None)
}

/// A thread that can take a step: the first from a number on, or else the first of all.
pub(crate) fn next_able(alloc: Global, site: &Site<'_>, from: u32) -> Result<Option<u32>, NoMemory>
    requires { IsReady site.now.image.now (machine_at site.now) }
    ensures able { IfOk result (IsAble site.now.image.now (state_at site.now) 0) }
    ensures next { IfOk result (IsNext site.now.image.now (state_at site.now) from) }
{
    match first_able(alloc, site, from)? {
        Some(thread) => Ok(Some(thread)),
        None => first_able(alloc, site, 0),
    }
}
