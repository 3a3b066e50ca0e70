//! What comes of a wish for a step.

ghost use Rattle.std.specs.Prelude.{◌≡◌, map, option_map, slice_get, IfOk, OnErr};
ghost use Rattle.std.specs.List.{list_any};
ghost use Rattle.std.specs.Option.{option_copied};
ghost use Rattle.shared_state.specs.Parts.{state_of, thread_state};
ghost use Rattle.step_attempt.specs.Going.{state_at};
ghost use Rattle.one_machine.specs.Found.{IsFound};
ghost use Rattle.one_machine.specs.Going.{IsWent, is_full, is_started, judged, starts_one};
ghost use Rattle.one_machine.specs.Ready.{IsReady, machine_at};

use crate::perform::{made, perform};
use jvm_base::NoMemory;
use machine_state::{Choice, Effect, Effects, Mode, Reason, Wish};
use program_image::Image;
use program_reads::Tables;
use shared_state::{Shared, Thread};
use std::alloc::Global;
use step_attempt::{Going, Site, attempt, thread_in};
use step_serve::Blanks;

/// A step that was taken: its choice, and how many objects it made.
#[derive(Clone, Copy, Debug, PartialEq, Eq)]
pub struct Took {
    pub choice: Choice,
    pub made: u64,
}

/// A step was taken; or there was none, for a reason; or there are so many threads that no further one
/// may be started, which the step would do.
#[derive(Clone, Copy, Debug, PartialEq, Eq)]
pub enum Went {
    Steps(Took),
    Refused(Reason),
    Full,
}

/// Whether the effect starts a thread.
fn is_started(effect: &Effect) -> bool
    ensures { result ≡ is_started effect.now }
{
    matches!(effect, Effect::Started(_))
}

/// Whether one of these effects starts a thread.
fn is_any_started(effects: &[Effect]) -> bool
    ensures { result ≡ list_any is_started effects.now }
{
    for effect in effects {
        if is_started(effect) {
            return true;
        }
    }
    false
}

/// Whether a thread is started.
fn starts_one(effects: &Effects) -> bool
    ensures { result ≡ starts_one effects.now }
{
    match effects {
        Effects::Nothing => false,
        Effects::One(effect) => is_started(effect),
        Effects::Two(first, second) => is_started(first) || is_started(second),
        Effects::Many(effects) => is_any_started(effects.as_slice()),
    }
}

/// Whether there are so many threads that none may be started.
fn is_full(threads: usize, most: Option<u32>) -> bool
    ensures { result ≡ is_full threads most }
{
    match most {
        Some(most) => threads >= most as usize,
        None => false,
    }
}

/// A step that could be taken and may be; or why it may not: for its pick, its name, or the number of
/// threads.
fn judge(going: Going, threads: usize, most: Option<u32>) -> Result<Going, Went>
    ensures { result ≡ judged going threads most }
{
    if !going.served.pick_fits {
        Err(Went::Refused(Reason::BadPick))
    } else if !going.served.name_fits {
        Err(Went::Refused(Reason::BadName))
    } else if is_full(threads, most) && starts_one(&going.served.effects) {
        Err(Went::Full)
    } else {
        Ok(going)
    }
}

/// The thread at a place.
pub(crate) fn thread_at(threads: &[Thread], at: usize) -> Option<&Thread>
    ensures { option_map thread_state (option_copied result)
        ≡ slice_get (map thread_state threads.now) at }
{
    threads.get(at)
}

/// The step that is wished, where it can be taken and may be; else why not. There may be so many
/// threads at most.
fn find(alloc: Global, site: &Site<'_>, most: Option<u32>) -> Result<Result<Going, Went>, NoMemory>
    requires { IsReady site.now.image.now (machine_at site.now) }
    ensures { IfOk result (IsFound site.now.image.now (state_at site.now) site.now.wish most) }
{
    let Some(thread) = thread_at(site.threads, thread_in(site.wish) as usize) else {
        return Ok(Err(Went::Refused(Reason::NoThread)));
    };
    if let Mode::Ended = thread.mode {
        return Ok(Err(Went::Refused(Reason::Over)));
    }
    match attempt(alloc, site, thread)? {
        None => Ok(Err(Went::Refused(Reason::Blocked))),
        Some(going) => Ok(judge(going, site.threads.len(), most)),
    }
}

/// Takes the step that is wished, or says why not. There may be so many threads at most.
pub(crate) fn take(
    alloc: Global,
    image: &Image,
    tables: &Tables,
    blanks: &Blanks,
    shared: &mut Shared,
    threads: &mut Vec<Thread>,
    wish: Wish,
    most: Option<u32>,
) -> Result<Went, NoMemory>
    requires ready { IsReady image.now
        (record {
          state = state_of shared.old threads.old.items;
          tables = tables.now;
          blanks = blanks.now;
        }) }
    ensures went { IfOk result (λ went. IsWent image.now
        (state_of shared.old threads.old.items) wish most went
        (state_of shared.new threads.new.items)) }
    ensures err { OnErr result (state_of shared.new threads.new.items
        ≡ state_of shared.old threads.old.items) }
{
    let site = Site {
        image,
        tables,
        blanks,
        shared,
        threads,
        wish,
    };
    let going = match find(alloc, &site, most)? {
        Err(went) => return Ok(went),
        Ok(going) => going,
    };
    let took = Took {
        choice: going.served.choice,
        made: made(&going.served.effects),
    };
    let at = thread_in(wish) as usize;
    perform(alloc, image, shared, threads, at, going)?;
    Ok(Went::Steps(took))
}
