//! A request served from its cell.

ghost use Rattle.std.specs.Prelude.{◌≡◌, ℕ, Bool, List, IfOk, option_map};
ghost use Rattle.jvm_base.specs.declared.name.Name.{Name as Named};
ghost use Rattle.jvm_base.specs.declared.value.Uncaught.{Uncaught as AnyUncaught};
ghost use Rattle.machine_state.specs.Requests.{NoCell, Body, Lock, Class, Threads, Console, Nowhere, OfLock, OfClass, OfConsole, cell, key_of};
ghost use Rattle.machine_state.specs.Serve.{serve};
ghost use Rattle.machine_state.specs.Serving.{IsServing};
ghost use Rattle.machine_state.specs.State.{State, waiters_of};
ghost use Rattle.step_serve.specs.Blank.{AreBlanks};
ghost use Rattle.step_serve.specs.Cells.{IsCell, IsBodyOf, IsEnded, lent_body, wish_thread};
ghost use Rattle.step_serve.specs.Telling.{TellsOf};

use crate::bodies::{get, len, load, put, store};
use crate::buffers::buffer;
use crate::cell::{BodyRef, Cell};
use crate::classes::{begin, fail, finish};
use crate::faults::{Server, fault, text};
use crate::locks::{enter, exit, notify, notify_all, wait};
use crate::makes::make;
use crate::names::Names;
use crate::threads::{end, join, print, start};
use jvm_base::NoMemory;
use machine_state::{ClassState, MonitorState, Request, Served, Waiter, Wish};
use std::alloc::Global;

/// The thread of a wish.
fn thread_of(wish: Wish) -> u32
    ensures { result ≡ wish_thread wish }
{
    match wish {
        Wish::Exactly(choice) => choice.thread,
        Wish::Fresh {
            thread,
            node: _,
            index: _,
        } => thread,
    }
}

/// What is asked of nothing that is there: it makes an object.
#[tactic(auto, unfolding(machine_state::specs::Serve::serve))]
fn serve_making<N: Names>(
    alloc: Global,
    server: &Server<N>,
    request: Request,
) -> Result<Option<Served>, NoMemory>
    requires { AreBlanks server.now.image.now server.now.blanks.now }
    ensures { IfOk result
        (λ served. key_of request ≡ Nowhere → TellsOf (N.heap server.now.names.now) server.now.wish
        (λ c. serve server.now.image.now (wish_thread server.now.wish) c request NoCell) served) }
{
    match request {
        Request::Make(class, sizes) => { Ok(Some(make(alloc, server, class, sizes.as_slice())?)) }
        Request::MakeText(units) => Ok(Some(text(server, units))),
        Request::Fault(class) => Ok(Some(fault(alloc, server, class)?)),
        _ => Ok(None),
    }
}

/// What is asked of a body.
#[tactic(auto, unfolding(machine_state::specs::Serve::serve))]
fn serve_body<N: Names>(
    alloc: Global,
    server: &Server<N>,
    request: Request,
    body: Option<BodyRef<'_>>,
) -> Result<Option<Served>, NoMemory>
    requires { AreBlanks server.now.image.now server.now.blanks.now }
    ensures { IfOk result
        (λ served. IsBodyOf (N.heap server.now.names.now) request (option_map lent_body body.entry)
        → TellsOf (N.heap server.now.names.now) server.now.wish
        (λ c. serve server.now.image.now (wish_thread server.now.wish) c request (Body (option_map lent_body body.entry))) served) }
{
    let wish = server.wish;
    match request {
        Request::Get(_, place) => Ok(get(wish, place, body)),
        Request::Put(name, place, value) => Ok(put(wish, name, place, value, body)),
        Request::Load(_, index) => load(alloc, server, index, body),
        Request::Store(name, index, value) => store(alloc, server, name, index, value, body),
        Request::Len(_) => Ok(len(wish, body)),
        Request::Buffer(name, method, units) => { buffer(alloc, server, name, method, units, body) }
        _ => Ok(None),
    }
}

/// What is asked of a lock.
#[tactic(auto, unfolding(machine_state::specs::Serve::serve))]
fn serve_lock<N: Names>(
    alloc: Global,
    server: &Server<N>,
    request: &Request,
    owner: Option<MonitorState>,
    waiting: &[Waiter],
) -> Result<Option<Served>, NoMemory>
    requires { AreBlanks server.now.image.now server.now.blanks.now }
    ensures { IfOk result
        (λ served. (n : Named) → key_of request.now ≡ OfLock n
        → TellsOf (N.heap server.now.names.now) server.now.wish
        (λ c. serve server.now.image.now (wish_thread server.now.wish) c request.now (Lock owner (waiters_of n waiting.now))) served) }
{
    let wish = server.wish;
    let thread = thread_of(wish);
    match request {
        Request::Enter(lock) => enter(wish, thread, *lock, owner),
        Request::Exit(lock, raising) => {
            Ok(Some(exit(alloc, server, thread, *lock, *raising, owner)?))
        }
        Request::Wait(lock) => Ok(Some(wait(alloc, server, thread, *lock, owner)?)),
        Request::Notify(lock) => { Ok(Some(notify(alloc, server, thread, *lock, owner, waiting)?)) }
        Request::NotifyAll(lock) => { Ok(Some(notify_all(alloc, server, thread, *lock, owner)?)) }
        _ => Ok(None),
    }
}

/// What is asked of a class.
#[tactic(auto, unfolding(machine_state::specs::Serve::serve))]
fn serve_class<N: Names>(
    alloc: Global,
    server: &Server<N>,
    request: &Request,
    state: Option<ClassState>,
) -> Result<Option<Served>, NoMemory>
    requires { AreBlanks server.now.image.now server.now.blanks.now }
    ensures { IfOk result
        (λ served. (k : ℕ) → key_of request.now ≡ OfClass k
        → TellsOf (N.heap server.now.names.now) server.now.wish
        (λ c. serve server.now.image.now (wish_thread server.now.wish) c request.now (Class state)) served) }
{
    let wish = server.wish;
    let thread = thread_of(wish);
    match request {
        Request::Begin(class) => Ok(begin(wish, thread, *class, state)),
        Request::InitDone(class) => Ok(finish(wish, thread, *class, state)),
        Request::InitFail(class, made) => fail(alloc, server, thread, *class, *made, state),
        _ => Ok(None),
    }
}

/// What is asked of the threads.
#[tactic(auto, unfolding(machine_state::specs::Serve::serve))]
fn serve_thread<N: Names>(
    alloc: Global,
    server: &Server<N>,
    request: &Request,
    ended: Option<bool>,
) -> Result<Option<Served>, NoMemory>
    requires { AreBlanks server.now.image.now server.now.blanks.now }
    ensures { IfOk result
        (λ served. (ts : List (Named × Bool)) (us : List AnyUncaught) → IsEnded ts request.now ended
        → TellsOf (N.heap server.now.names.now) server.now.wish
        (λ c. serve server.now.image.now (wish_thread server.now.wish) c request.now (Threads ts us)) served) }
{
    let wish = server.wish;
    match request {
        Request::Start(object) => Ok(Some(start(alloc, server, *object, ended)?)),
        Request::Join(_) => Ok(join(wish, ended)),
        Request::Finish(exception) => Ok(Some(end(wish, thread_of(wish), *exception))),
        _ => Ok(None),
    }
}

/// What is asked of the output.
#[tactic(auto, unfolding(machine_state::specs::Serve::serve))]
fn serve_console<N: Names>(
    alloc: Global,
    server: &Server<N>,
    request: &Request,
) -> Result<Option<Served>, NoMemory>
    ensures { IfOk result
        (λ served. (bytes : List ℕ) → key_of request.now ≡ OfConsole
        → TellsOf (N.heap server.now.names.now) server.now.wish
        (λ c. serve server.now.image.now (wish_thread server.now.wish) c request.now (Console bytes)) served) }
{
    match request {
        Request::Print(units) => Ok(Some(print(alloc, server.wish, units.as_slice())?)),
        _ => Ok(None),
    }
}

/// What a request does: which choice it follows, whether the choice's pick and name are those that it
/// wants, what changes, and the answer; `None` exactly where it isn't enabled. Nothing is changed.
pub fn serve<N: Names>(
    alloc: Global,
    server: &Server<N>,
    request: Request,
    place: Cell<'_>,
) -> Result<Option<Served>, NoMemory>
    requires { AreBlanks server.now.image.now server.now.blanks.now }
    ensures { IfOk result
        (λ served. (m : State) → m.heap ≡ N.heap server.now.names.now → IsCell m request place.entry
        → IsServing m server.now.wish
        (λ c. serve server.now.image.now (wish_thread server.now.wish) c request (cell m (key_of request))) served) }
{
    match place {
        Cell::Nowhere => serve_making(alloc, server, request),
        Cell::Body(body) => serve_body(alloc, server, request, body),
        Cell::Lock { owner, waiting } => serve_lock(alloc, server, &request, owner, waiting),
        Cell::Class(state) => serve_class(alloc, server, &request, state),
        Cell::Thread(ended) => serve_thread(alloc, server, &request, ended),
        Cell::Console => serve_console(alloc, server, &request),
    }
}
