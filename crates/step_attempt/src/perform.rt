//! What comes next, done as far as its answer.

ghost use Rattle.std.specs.Prelude.{reverse, IfOk};
ghost use Rattle.machine_state.specs.Next.{Calls};
ghost use Rattle.step_after.specs.Conditions.{LevelsAsk};
ghost use Rattle.step_plan.specs.Ways.{GoesBy};
ghost use Rattle.step_serve.specs.Blank.{AreBlanks};
ghost use Rattle.step_attempt.specs.Going.{IsToldAt, CanAskAt, next_at, performs_at, serves_at, top_of};

use crate::going::{Going, alone, going_on};
use crate::site::Site;
use jvm_base::{NoMemory, Value};
use machine_state::Request;
use shared_state::Thread;
use std::alloc::Global;
use step_after::After;
use step_complete::{Turn, asked_of, new_frame};
use step_plan::Next;
use step_serve::{Server, serve};

/// A request is served at its cell, and its answer completes the thread.
pub(crate) fn ask(
    alloc: Global,
    site: &Site<'_>,
    thread: &Thread,
    request: Request,
) -> Result<Option<Going>, NoMemory>
    requires blanks { AreBlanks site.now.image.now site.now.blanks.now }
    requires asks { LevelsAsk site.now.image.now request (reverse thread.now.levels.items) }
    ensures { IfOk result (IsToldAt site.now thread.now (serves_at site.now thread.now request)) }
{
    let asked = asked_of(&request);
    let place = site.cell(&request);
    let server = Server {
        image: site.image,
        blanks: site.blanks,
        names: site.shared,
        wish: site.wish,
    };
    let served = serve(alloc, &server, request, place)?;
    Ok(going_on(served, After::Completes(asked)))
}

/// A method is called, where it has code.
fn call(
    alloc: Global,
    site: &Site<'_>,
    thread: &Thread,
    method: u32,
    values: &[Value],
) -> Result<Option<Going>, NoMemory>
    ensures { IfOk result (IsToldAt site.now thread.now
        (performs_at site.now thread.now (Calls method values.now))) }
{
    let _ = thread;
    match new_frame(alloc, site.image, method, values)? {
        None => Ok(None),
        Some(frame) => Ok(Some(alone(site.wish, After::Calls(frame)))),
    }
}

/// What comes next is done as far as its answer.
pub(crate) fn perform(
    alloc: Global,
    site: &Site<'_>,
    thread: &Thread,
    next: Next,
) -> Result<Option<Going>, NoMemory>
    requires blanks { AreBlanks site.now.image.now site.now.blanks.now }
    requires goes { GoesBy site.now.image.now (top_of thread.now) next }
    requires asks { CanAskAt site.now thread.now next }
    ensures { IfOk result (IsToldAt site.now thread.now
        (performs_at site.now thread.now (next_at site.now thread.now next))) }
{
    let wish = site.wish;
    match next {
        Next::Moves(given) => Ok(Some(alone(wish, After::Turns(Turn::Moves(given))))),
        Next::Answered(value) => Ok(Some(alone(wish, After::Turns(Turn::Answers(value))))),
        Next::Caught { exception, at } => {
            let turn = Turn::Catches { exception, at };
            Ok(Some(alone(wish, After::Turns(turn))))
        }
        Next::Throws(exception) => Ok(Some(alone(wish, After::Throws(exception)))),
        Next::Calls(method, values) => call(alloc, site, thread, method, values.as_slice()),
        Next::Leaves(value) => Ok(Some(alone(wish, After::Leaves(value)))),
        Next::Drops => Ok(Some(alone(wish, After::Drops))),
        Next::Needs(request) => ask(alloc, site, thread, request),
        Next::Wants(_) | Next::Stuck => Ok(None),
    }
}
