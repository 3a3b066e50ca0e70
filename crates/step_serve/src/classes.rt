//! The initialisation of classes (JVMS2 2.17.5).

ghost use Rattle.std.specs.Prelude.{◌≡◌, [], ◌∷◌, Some, None, if◌then◌else◌, IfOk};
ghost use Rattle.machine_state.specs.Changes.{Becomes};
ghost use Rattle.machine_state.specs.Deeds.{Deed, changing};
ghost use Rattle.machine_state.specs.Serve.{begins, by_runner, fails};
ghost use Rattle.machine_state.specs.State.{Heap};
ghost use Rattle.machine_state.specs.declared.state.ClassState.TheVariants as class_state;
ghost use Rattle.step_serve.specs.Blank.{AreBlanks};
ghost use Rattle.step_serve.specs.Telling.{Tells, TellsOf};

use crate::boot::INITIALIZER_ERROR;
use crate::faults::{Server, fault_with};
use crate::names::Names;
use crate::telling::changing;
use jvm_base::NoMemory;
use machine_state::{ClassState, Effect, Served, Wish};
use std::alloc::Global;

/// A class is begun once.
pub(crate) fn begin(
    wish: Wish,
    thread: u32,
    class: u32,
    state: Option<ClassState>,
) -> Option<Served>
    ensures { (heap : Heap) → TellsOf heap wish (λ c. begins thread class state) result }
{
    match state {
        Some(state) => match state {
            ClassState::Untouched => {
                Some(changing(wish, Effect::Becomes(class, ClassState::Running(thread))))
            }
            _ => None,
        },
        None => None,
    }
}

/// Whether the thread began the class's initialisation.
fn is_runner(thread: u32, state: Option<ClassState>) -> bool
    ensures { (d : Deed) → by_runner thread state d ≡ (if result then Some d else None) }
{
    match state {
        Some(ClassState::Running(runner)) => runner == thread,
        _ => false,
    }
}

/// An initialisation is done, by the thread that began it.
pub(crate) fn finish(
    wish: Wish,
    thread: u32,
    class: u32,
    state: Option<ClassState>,
) -> Option<Served>
    ensures { (heap : Heap) → TellsOf heap wish
        (λ c. by_runner thread state (changing (Becomes class class_state.Done ∷ []) None)) result }
{
    if is_runner(thread, state) {
        Some(changing(wish, Effect::Becomes(class, ClassState::Done)))
    } else {
        None
    }
}

/// An initialisation has failed, with a new exception in place of one that is no Error.
fn failed<N: Names>(
    alloc: Global,
    server: &Server<N>,
    class: u32,
    made: bool,
) -> Result<Served, NoMemory>
    requires { AreBlanks server.now.image.now server.now.blanks.now }
    ensures { IfOk result (λ s. Tells (N.heap server.now.names.now) server.now.wish
        (fails server.now.image.now s.choice.name class made) s) }
{
    let effect = Effect::Becomes(class, ClassState::Failed);
    if made {
        fault_with(alloc, server, INITIALIZER_ERROR, Some(effect))
    } else {
        Ok(changing(server.wish, effect))
    }
}

/// An initialisation fails, by the thread that began it.
pub(crate) fn fail<N: Names>(
    alloc: Global,
    server: &Server<N>,
    thread: u32,
    class: u32,
    made: bool,
    state: Option<ClassState>,
) -> Result<Option<Served>, NoMemory>
    requires { AreBlanks server.now.image.now server.now.blanks.now }
    ensures { IfOk result (λ served. TellsOf (N.heap server.now.names.now) server.now.wish
        (λ c. by_runner thread state (fails server.now.image.now c.name class made)) served) }
{
    if is_runner(thread, state) {
        Ok(Some(failed(alloc, server, class, made)?))
    } else {
        Ok(None)
    }
}
