//! The locks that are owned, and who sleeps on one.

ghost use Rattle.std.specs.Prelude.{◌≡◌, [], OnOk, OnErr};
ghost use Rattle.std.specs.List.{list_any};
ghost use Rattle.jvm_base.specs.Names.{name_cmp};
ghost use Rattle.jvm_base.specs.Maps.{put};
ghost use Rattle.hierarchy.specs.Walks.{has};
ghost use Rattle.machine_state.specs.State.{owner_at, waiters_of};
ghost use Rattle.machine_state.specs.Changes.{without_owner, without_waiter, without_waiters};
ghost use Rattle.shared_state.specs.Looks.{is_waiter};

use jvm_base::{Name, NoMemory};
use machine_state::{MonitorState, Waiter};
use std::alloc::Global;
use std::collections::BTreeMap;
use std::marker::Model;

/// The owners of all locks that are owned.
#[derive(Drop)]
pub(crate) struct Owners {
    locks: BTreeMap<Name, MonitorState>,
}

impl Model for Owners {
    ghost use Rattle.std.specs.Prelude.{List as Items};
    ghost use Rattle.jvm_base.specs.declared.name.Name.{Name};
    ghost use Rattle.machine_state.specs.declared.state.MonitorState.{MonitorState};

    ghost Value = { Items (Name × MonitorState) };

    ghost view = { λ a. a.locks.entries };
}

impl Owners {
    /// No lock is owned. It takes no memory.
    pub fn new(alloc: Global) -> Owners
        ensures { result ≡ [] }
    {
        Owners {
            locks: BTreeMap::new(alloc),
        }
    }

    /// The owner of a lock; `None` exactly where nobody owns it.
    pub fn owner(&self, lock: Name) -> Option<MonitorState>
        ensures { result ≡ owner_at self.now lock }
    {
        self.locks.get(&lock).copied()
    }

    /// The lock is owned so.
    pub fn own(&mut self, lock: Name, owner: MonitorState) -> Result<(), NoMemory>
        ensures ok { OnOk result (self.new ≡ put name_cmp lock owner self.old) }
        ensures err { OnErr result (self.new ≡ self.old) }
    {
        self.locks.insert(lock, owner)?;
        Ok(())
    }

    /// Nobody owns the lock. It takes no memory.
    pub fn free(&mut self, lock: Name)
        ensures { self.new ≡ without_owner lock self.old }
    {
        let _ = self.locks.remove(&lock);
    }
}

/// One thread sleeps on the lock no longer.
pub(crate) fn wake(waiting: &mut Vec<Waiter>, lock: Name, thread: u32)
    ensures { waiting.new.items ≡ without_waiter lock thread waiting.old.items }
{
    waiting.retain(|waiter| !(waiter.lock == lock && waiter.thread == thread));
}

/// Nobody sleeps on the lock any longer.
pub(crate) fn wake_all(waiting: &mut Vec<Waiter>, lock: Name)
    ensures { waiting.new.items ≡ without_waiters lock waiting.old.items }
{
    waiting.retain(|waiter| waiter.lock != lock);
}

/// Whether one of the waiters is that thread on that lock.
fn is_among(waiting: &[Waiter], lock: Name, thread: u32) -> bool
    ensures { result ≡ list_any (is_waiter lock thread) waiting.now }
{
    waiting
        .iter()
        .any(|waiter| waiter.lock == lock && waiter.thread == thread)
}

/// Whether a thread sleeps on the lock.
#[tactic(auto, using(crate::proofs::WaiterLaws::among_waiters))]
pub(crate) fn waits(waiting: &[Waiter], lock: Name, thread: u32) -> bool
    ensures { result ≡ has (waiters_of lock waiting.now) thread }
{
    is_among(waiting, lock, thread)
}
