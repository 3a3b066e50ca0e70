//! Locks (JVMS2 8.5, 8.14).

ghost use Rattle.std.specs.Prelude.{◌≡◌, List, [], None, if◌then◌else◌, slice_get, IfOk};
ghost use Rattle.hierarchy.specs.Walks.{has};
ghost use Rattle.machine_state.specs.Deeds.{Deed, quiet, faulted};
ghost use Rattle.machine_state.specs.Locks.{enter, by_owner, leaves, sleeps, notifies, notifies_all, owned, retakes, released};
ghost use Rattle.machine_state.specs.declared.request.Answer.TheVariants.{Gives};
ghost use Rattle.machine_state.specs.declared.served.Effect.TheVariants as effect;
ghost use Rattle.machine_state.specs.declared.served.Effects.TheVariants.{One};
ghost use Rattle.machine_state.specs.Serving.{Meets, change_of, first_pick};
ghost use Rattle.machine_state.specs.State.{Heap, waiters_of};
ghost use Rattle.machine_state.specs.declared.state.MonitorState.{MonitorState as Monitor};
ghost use Rattle.machine_state.specs.BootClasses.{monitor_state};
ghost use Rattle.jvm_base.specs.Words.{from};
ghost use Rattle.step_serve.specs.Blank.{AreBlanks};
ghost use Rattle.step_serve.specs.Telling.{IsPlain, Tells, TellsOf};

use crate::boot::MONITOR_STATE;
use crate::faults::{Server, fault};
use crate::names::{NO_NAME, Names, is_name};
use crate::telling::{changing, plain, quiet};
use jvm_base::{Name, NoMemory};
use machine_state::{Answer, Choice, Effect, Effects, MonitorState, Served, Waiter, Wish};
use std::alloc::Global;

/// A lock is owned so many times.
fn own(wish: Wish, thread: u32, lock: Name, count: u32) -> Served
    ensures { (heap : Heap) (d : Deed)
        → IsPlain heap (One (effect.Owned lock (owned thread count))) (Gives None) d
        → Tells heap wish d result }
{
    let held = MonitorState {
        owner: thread,
        count,
    };
    changing(wish, Effect::Owned(lock, held))
}

/// A lock is entered where nobody or the thread itself owns it. A count that has no number would be
/// want of memory.
pub(crate) fn enter(
    wish: Wish,
    thread: u32,
    lock: Name,
    owner: Option<MonitorState>,
) -> Result<Option<Served>, NoMemory>
    ensures { IfOk result
        (λ served. (heap : Heap) → TellsOf heap wish (λ c. enter thread lock owner) served) }
{
    match owner {
        None => Ok(Some(own(wish, thread, lock, 1))),
        Some(held) if held.owner != thread => Ok(None),
        Some(held) if held.count < u32::MAX => { Ok(Some(own(wish, thread, lock, held.count + 1))) }
        Some(_) => Err(NoMemory),
    }
}

/// How often the thread owns the lock, if it does.
fn owned_by(thread: u32, owner: Option<MonitorState>) -> Option<MonitorState>
    ensures { (otherwise : Deed) (f : Monitor → Deed) → by_owner thread owner otherwise f
        ≡ from otherwise f result }
{
    match owner {
        Some(held) if held.owner == thread => Some(held),
        _ => None,
    }
}

/// Owned once less, or free.
fn released(lock: Name, held: MonitorState) -> Effect
    ensures { (heap : Heap) → change_of heap result ≡ released lock held }
{
    if held.count == 1 {
        Effect::Freed(lock)
    } else {
        Effect::Owned(
            lock,
            MonitorState {
                owner: held.owner,
                count: held.count.saturating_sub(1),
            },
        )
    }
}

/// What comes of leaving a lock that the thread doesn't own: nothing, where an exception passes.
fn unowned<N: Names>(alloc: Global, server: &Server<N>, raising: bool) -> Result<Served, NoMemory>
    requires { AreBlanks server.now.image.now server.now.blanks.now }
    ensures { IfOk result (λ s. Tells (N.heap server.now.names.now) server.now.wish
        (if raising then quiet None else faulted server.now.image.now s.choice.name monitor_state) s) }
{
    if raising {
        Ok(quiet(server.wish, None))
    } else {
        fault(alloc, server, MONITOR_STATE)
    }
}

/// A lock is left; one that the thread doesn't own raises, unless an exception passes.
pub(crate) fn exit<N: Names>(
    alloc: Global,
    server: &Server<N>,
    thread: u32,
    lock: Name,
    raising: bool,
    owner: Option<MonitorState>,
) -> Result<Served, NoMemory>
    requires { AreBlanks server.now.image.now server.now.blanks.now }
    ensures { IfOk result (λ s. Tells (N.heap server.now.names.now) server.now.wish
        (by_owner thread owner (if raising then quiet None else faulted server.now.image.now s.choice.name monitor_state) (leaves lock)) s) }
{
    match owned_by(thread, owner) {
        Some(held) => Ok(changing(server.wish, released(lock, held))),
        None => unowned(alloc, server, raising),
    }
}

/// Its owner leaves a lock wholly and sleeps.
pub(crate) fn wait<N: Names>(
    alloc: Global,
    server: &Server<N>,
    thread: u32,
    lock: Name,
    owner: Option<MonitorState>,
) -> Result<Served, NoMemory>
    requires { AreBlanks server.now.image.now server.now.blanks.now }
    ensures { IfOk result (λ s. Tells (N.heap server.now.names.now) server.now.wish
        (by_owner thread owner (faulted server.now.image.now s.choice.name monitor_state) (sleeps thread lock)) s) }
{
    match owned_by(thread, owner) {
        Some(held) => {
            let effects = Effects::Two(Effect::Freed(lock), Effect::Sleeps(lock, thread));
            Ok(plain(server.wish, effects, Answer::Slept(held.count)))
        }
        None => fault(alloc, server, MONITOR_STATE),
    }
}

/// The first of those who sleep on a lock.
fn first_waiter(lock: Name, waiting: &[Waiter]) -> Option<u32>
    ensures { result ≡ slice_get (waiters_of lock waiting.now) 0 }
{
    for waiter in waiting {
        if is_name(waiter.lock, lock) {
            return Some(waiter.thread);
        }
    }
    None
}

/// Whether a thread sleeps on a lock.
fn is_waiter(lock: Name, thread: u32, waiting: &[Waiter]) -> bool
    ensures { result ≡ has (waiters_of lock waiting.now) thread }
{
    for waiter in waiting {
        if is_name(waiter.lock, lock) && waiter.thread == thread {
            return true;
        }
    }
    false
}

/// The choice for a deed that picks one of the waiters.
fn picking_choice(wish: Wish, first: u32) -> Choice
    ensures { (d : Deed) → d.makes ≡ [] → first_pick d.waiters ≡ first → Meets wish d result }
{
    match wish {
        Wish::Exactly(choice) => choice,
        Wish::Fresh {
            thread,
            node: _,
            index: _,
        } => Choice {
            thread,
            pick: first,
            name: NO_NAME,
        },
    }
}

/// The waiter that is picked wakes, if there is one.
fn wake_one(wish: Wish, lock: Name, waiting: &[Waiter]) -> Served
    ensures { (heap : Heap)
        → Tells heap wish (notifies lock result.choice.pick (waiters_of lock waiting.now)) result }
{
    let first = match first_waiter(lock, waiting) {
        Some(first) => first,
        None => return quiet(wish, None),
    };
    let choice = picking_choice(wish, first);
    Served {
        choice,
        pick_fits: is_waiter(lock, choice.pick, waiting),
        name_fits: is_name(choice.name, NO_NAME),
        effects: Effects::One(Effect::Moved(lock, choice.pick)),
        answer: Answer::Gives(None),
    }
}

/// One waiter wakes, by the lock's owner.
pub(crate) fn notify<N: Names>(
    alloc: Global,
    server: &Server<N>,
    thread: u32,
    lock: Name,
    owner: Option<MonitorState>,
    waiting: &[Waiter],
) -> Result<Served, NoMemory>
    requires { AreBlanks server.now.image.now server.now.blanks.now }
    ensures { IfOk result (λ s. Tells (N.heap server.now.names.now) server.now.wish
        (by_owner thread owner (faulted server.now.image.now s.choice.name monitor_state)
        (λ o. notifies lock s.choice.pick (waiters_of lock waiting.now))) s) }
{
    match owned_by(thread, owner) {
        Some(_) => Ok(wake_one(server.wish, lock, waiting)),
        None => fault(alloc, server, MONITOR_STATE),
    }
}

/// All waiters wake, by the lock's owner.
pub(crate) fn notify_all<N: Names>(
    alloc: Global,
    server: &Server<N>,
    thread: u32,
    lock: Name,
    owner: Option<MonitorState>,
) -> Result<Served, NoMemory>
    requires { AreBlanks server.now.image.now server.now.blanks.now }
    ensures { IfOk result (λ s. Tells (N.heap server.now.names.now) server.now.wish
        (by_owner thread owner (faulted server.now.image.now s.choice.name monitor_state) (λ o. notifies_all lock)) s) }
{
    match owned_by(thread, owner) {
        Some(_) => Ok(changing(server.wish, Effect::MovedAll(lock))),
        None => fault(alloc, server, MONITOR_STATE),
    }
}

/// A thread that woke takes its lock again, as often as it held it, where nobody owns it.
pub fn retake(
    wish: Wish,
    thread: u32,
    lock: Name,
    count: u32,
    owner: Option<MonitorState>,
    waiting: &[Waiter],
) -> Option<Served>
    ensures { (heap : Heap) → TellsOf heap wish
        (λ c. retakes thread lock count owner (waiters_of lock waiting.now)) result }
{
    if owner.is_some() || is_waiter(lock, thread, waiting) {
        return None;
    }
    Some(own(wish, thread, lock, count))
}
