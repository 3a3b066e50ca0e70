//! Threads, and the output.

ghost use Rattle.std.specs.Prelude.{◌≡◌, [], ◌∷◌, ◌++◌, None, IfOk, OnOk};
ghost use Rattle.machine_state.specs.Changes.{Printed};
ghost use Rattle.machine_state.specs.Deeds.{changing};
ghost use Rattle.machine_state.specs.Serve.{starts, joins, ends, printed, printed_unit};
ghost use Rattle.machine_state.specs.State.{Heap};
ghost use Rattle.step_serve.specs.Blank.{AreBlanks};
ghost use Rattle.step_serve.specs.Telling.{Tells, TellsOf};

use crate::boot::THREAD_STATE;
use crate::faults::{Server, fault};
use crate::names::Names;
use crate::telling::{changing, plain, quiet};
use jvm_base::{List, Name, NoMemory, Uncaught};
use machine_state::{Answer, Effect, Effects, Served, Wish};
use std::alloc::Global;

/// A Thread object is started once.
pub(crate) fn start<N: Names>(
    alloc: Global,
    server: &Server<N>,
    object: Name,
    ended: Option<bool>,
) -> Result<Served, NoMemory>
    requires { AreBlanks server.now.image.now server.now.blanks.now }
    ensures { IfOk result (λ s. Tells (N.heap server.now.names.now) server.now.wish
        (starts server.now.image.now s.choice.name object ended) s) }
{
    match ended {
        None => Ok(changing(server.wish, Effect::Started(object))),
        Some(_) => fault(alloc, server, THREAD_STATE),
    }
}

/// A thread is waited for until it has ended; one that was never started isn't.
pub(crate) fn join(wish: Wish, ended: Option<bool>) -> Option<Served>
    ensures { (heap : Heap) → TellsOf heap wish (λ c. joins ended) result }
{
    match ended {
        Some(false) => None,
        Some(true) => Some(quiet(wish, None)),
        None => Some(quiet(wish, None)),
    }
}

/// A thread ends, with the exception that it raised, if any.
pub(crate) fn end(wish: Wish, thread: u32, exception: Option<Name>) -> Served
    ensures { (heap : Heap) → Tells heap wish (ends thread exception) result }
{
    match exception {
        None => changing(wish, Effect::Finished(thread)),
        Some(exception) => {
            let uncaught = Uncaught {
                thread,
                class: exception.class,
            };
            let effects = Effects::Two(Effect::Lost(uncaught), Effect::Finished(thread));
            plain(wish, effects, Answer::Gives(None))
        }
    }
}

/// Adds the bytes of a unit: those of modified UTF-8, but unit 0 is one zero byte.
fn push_unit(bytes: &mut List<u8>, unit: u16) -> Result<(), NoMemory>
    ensures { OnOk result (bytes.new ≡ bytes.old ++ printed_unit unit) }
{
    if unit < 128 {
        bytes.push(unit as u8)?;
    } else if unit < 2048 {
        bytes.push(192 + (unit / 64) as u8)?;
        bytes.push(128 + (unit % 64) as u8)?;
    } else {
        bytes.push(224 + (unit / 4096) as u8)?;
        bytes.push(128 + (unit / 64 % 64) as u8)?;
        bytes.push(128 + (unit % 64) as u8)?;
    }
    Ok(())
}

/// The bytes of a text.
fn printed(alloc: Global, units: &[u16]) -> Result<List<u8>, NoMemory>
    ensures { IfOk result (λ bytes. bytes ≡ printed units.now) }
{
    let mut bytes = List::new(alloc);
    for unit in units {
        push_unit(&mut bytes, *unit)?;
    }
    Ok(bytes)
}

/// A text is printed.
pub(crate) fn print(alloc: Global, wish: Wish, units: &[u16]) -> Result<Served, NoMemory>
    ensures { IfOk result
        (λ s. (heap : Heap) → Tells heap wish (changing (Printed (printed units.now) ∷ []) None) s) }
{
    let bytes = printed(alloc, units)?;
    Ok(changing(wish, Effect::Printed(bytes)))
}
