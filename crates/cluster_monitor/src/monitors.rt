//! Who owns which monitor, and who is queued for one.

ghost use Rattle.std.specs.Prelude.{◌≡◌, [], ◌∷◌, ◌++◌, ◌↔◌, ◌<◌, ◌≤◌, ◌+◌, true, false, IsTrue, OnOk, OnErr, IfOk, IsOk, IsSome, IfSome, OnSome, Some, None, option_map, is_ok, is_some, MatchOption, length, slice_get};
ghost use Rattle.std.specs.List.{remove, position};
ghost use Rattle.std.specs.Option.{option_copied};
ghost use Rattle.jvm_base.specs.Names.{name_eq};
ghost use Rattle.cluster_monitor.specs.Monitors.{owner_at, owned, is_owner, is_others, count_of, entered, left, request, is_for, first_for, without_first, next_for, IsFirstAt, IsOwnedBy, Enters, CanCount};

use indexmap::IndexMap;
use jvm_base::{Name, NoMemory};
use std::alloc::Global;
use std::marker::Model;
use thiserror::Error;

/// What came of entering a monitor: the thread owns it, or is queued for it.
#[derive(Clone, Copy, Debug, PartialEq, Eq)]
pub enum Entered {
    Entered,
    Queued,
}

/// The thread doesn't own the monitor.
#[derive(Clone, Copy, Debug, PartialEq, Eq, Error)]
#[error("the thread doesn't own the monitor")]
pub struct NotOwner;

/// Who owns a monitor, and how often.
#[derive(Clone, Copy, Debug, PartialEq, Eq)]
pub struct Held {
    pub owner: u32,
    pub count: u64,
}

/// A thread that is to own a monitor, so many times, once nobody else does.
#[derive(Clone, Copy, Debug, PartialEq, Eq)]
pub struct Request {
    pub name: Name,
    pub thread: u32,
    pub count: u64,
}

/// The monitors of a node that are owned, and the requests for them. Each request keeps a place
/// among the owners, so that it can be performed without memory.
#[derive(Drop)]
pub struct Monitors {
    owners: IndexMap<Name, Held>,
    queue: Vec<Request>,
}

impl Model for Monitors {
    ghost use Rattle.std.specs.Prelude.{◌-◌, ◌≤◌, min, vec_len, vec_capacity};
    ghost use Rattle.indexmap.specs.IndexMap.{spare};
    ghost use Rattle.cluster_monitor.specs.Monitors.{Seen};

    ghost Value = { Seen };

    ghost view = { λ a. record {
      items = record { owners = a.owners.entries; queue = a.queue.items };
      room = min (spare a.owners - vec_len a.queue) (vec_capacity a.queue - vec_len a.queue);
    } };

    ghost invariant = { λ a. vec_len a.queue ≤ spare a.owners };
}

/// The place of the first of the requests for the monitor.
fn place_of(queue: &[Request], name: Name) -> Option<usize>
    ensures { result ≡ position (is_for name) queue.now }
{
    queue.iter().position(|request| request.name == name)
}

/// Where the first of the requests for the monitor stands; `None` exactly where there is none.
#[tactic(auto, using(crate::proofs::QueueLaws::is_first_at, crate::proofs::QueueLaws::has_none))]
pub fn first_place(queue: &[Request], name: Name) -> Option<usize>
    ensures { MatchOption result (first_for name queue.now ≡ None) (IsFirstAt name queue.now) }
{
    place_of(queue, name)
}

impl Monitors {
    /// No owners and no requests. It takes no memory.
    pub fn new(alloc: Global) -> Monitors
        ensures owners { result.items.owners ≡ [] }
        ensures queue { result.items.queue ≡ [] }
    {
        Monitors {
            owners: IndexMap::new(alloc),
            queue: Vec::new(alloc),
        }
    }

    /// Makes room for so many owners and requests more.
    pub fn reserve(&mut self, more: u64) -> Result<(), NoMemory>
        ensures items { self.new.items ≡ self.old.items }
        ensures ok { OnOk result (more ≤ self.new.room) }
        ensures succeeds { more ≤ self.old.room → IsOk result }
        ensures room { self.old.room ≤ self.new.room }
    {
        let more = more as usize;
        let kept = self.queue.len().checked_add(more).ok_or(NoMemory)?;
        self.owners.reserve(kept)?;
        self.queue.reserve(more)?;
        Ok(())
    }

    /// Who owns the monitor, and how often.
    pub fn owner(&self, name: Name) -> Option<Held>
        ensures { result ≡ owner_at self.now.items.owners name }
    {
        self.owners.get(&name).copied()
    }

    /// The thread owns the monitor once more, unless another thread owns it: then it is queued.
    pub fn enter(&mut self, name: Name, thread: u32) -> Result<Entered, NoMemory>
        ensures ok { IfOk result (Enters thread name self.old.items self.new.items) }
        ensures err { OnErr result (self.new.items ≡ self.old.items) }
        ensures succeeds { 0 < self.old.room →
            CanCount thread (owner_at self.old.items.owners name) → IsOk result }
        ensures room { self.old.room ≤ self.new.room + 1 }
        ensures again { IsTrue (is_owner thread (owner_at self.old.items.owners name)) →
            self.old.room ≤ self.new.room }
    {
        let Some(held) = self.owner(name) else {
            self.begin(name, thread)?;
            return Ok(Entered::Entered);
        };
        if held.owner != thread {
            self.request(Request {
                name,
                thread,
                count: 1,
            })?;
            return Ok(Entered::Queued);
        }
        let count = held.count.checked_add(1).ok_or(NoMemory)?;
        self.recount(name, thread, count);
        Ok(Entered::Entered)
    }

    /// A thread owns a monitor that nobody owned.
    fn begin(&mut self, name: Name, thread: u32) -> Result<(), NoMemory>
        ensures owners { OnOk result (IsOwnedBy name (Some (owned thread 1))
            self.old.items.owners self.new.items.owners) }
        ensures queue { self.new.items.queue ≡ self.old.items.queue }
        ensures err { OnErr result (self.new.items.owners ≡ self.old.items.owners) }
        ensures succeeds { 0 < self.old.room → IsOk result }
        ensures room { self.old.room ≤ self.new.room + 1 }
    {
        self.reserve(1)?;
        self.owners.insert(
            name,
            Held {
                owner: thread,
                count: 1,
            },
        )?;
        Ok(())
    }

    /// The thread owns the monitor so many times, which was owned already.
    fn recount(&mut self, name: Name, thread: u32, count: u64)
        requires { IsSome (owner_at self.old.items.owners name) }
        ensures owners { IsOwnedBy name (Some (owned thread count))
            self.old.items.owners self.new.items.owners }
        ensures queue { self.new.items.queue ≡ self.old.items.queue }
        ensures room { self.new.room ≡ self.old.room }
    {
        if let Some(held) = self.owners.get_mut(&name) {
            *held = Held {
                owner: thread,
                count,
            };
        }
    }

    /// Adds a request as the last one.
    pub fn request(&mut self, request: Request) -> Result<(), NoMemory>
        ensures owners { self.new.items.owners ≡ self.old.items.owners }
        ensures ok { OnOk result
            (self.new.items.queue ≡ self.old.items.queue ++ request ∷ []) }
        ensures err { OnErr result (self.new.items.queue ≡ self.old.items.queue) }
        ensures succeeds { 0 < self.old.room → IsOk result }
        ensures room { self.old.room ≤ self.new.room + 1 }
    {
        self.reserve(1)?;
        self.queue.push(request)?;
        Ok(())
    }

    /// The thread owns the monitor once less, or nobody owns it.
    pub fn exit(&mut self, name: Name, thread: u32) -> Result<(), NotOwner>
        ensures owns { is_ok result ≡ is_owner thread (owner_at self.old.items.owners name) }
        ensures owners { OnOk result (IsOwnedBy name
            (left thread (owner_at self.old.items.owners name))
            self.old.items.owners self.new.items.owners) }
        ensures queue { self.new.items.queue ≡ self.old.items.queue }
        ensures err { OnErr result (self.new.items ≡ self.old.items) }
        ensures room { self.old.room ≤ self.new.room }
    {
        let count = self.count(name, thread)?;
        if count <= 1 {
            self.free(name);
        } else {
            self.recount(name, thread, count - 1);
        }
        Ok(())
    }

    /// How often the thread owns the monitor.
    pub fn count(&self, name: Name, thread: u32) -> Result<u64, NotOwner>
        ensures owns { is_ok result ≡ is_owner thread (owner_at self.now.items.owners name) }
        ensures count { IfOk result
            (λ k. owner_at self.now.items.owners name ≡ Some (owned thread k)) }
    {
        match self.owner(name) {
            Some(held) if held.owner == thread => Ok(held.count),
            _ => Err(NotOwner),
        }
    }

    /// Nobody owns the monitor.
    pub fn free(&mut self, name: Name)
        ensures owners { IsOwnedBy name None self.old.items.owners self.new.items.owners }
        ensures queue { self.new.items.queue ≡ self.old.items.queue }
        ensures room { self.old.room ≤ self.new.room }
    {
        let _ = self.owners.swap_remove(&name);
    }

    /// The first request for the monitor is performed, unless it is owned: the thread owns it, as
    /// often as it asked for. It takes no memory.
    pub fn wake_first(&mut self, name: Name) -> Option<u32>
        ensures thread { result ≡ option_map (λ q. q.thread) (next_for name self.old.items) }
        ensures none { result ≡ None → self.new.items ≡ self.old.items }
        ensures owners { IfSome (next_for name self.old.items) (λ q. IsOwnedBy name
            (Some (owned q.thread q.count)) self.old.items.owners self.new.items.owners) }
        ensures queue { OnSome result
            (self.new.items.queue ≡ without_first name self.old.items.queue) }
        ensures room { self.old.room ≤ self.new.room }
    {
        if self.owner(name).is_some() {
            return None;
        }
        let place = first_place(&self.queue, name)?;
        Some(self.perform(name, place))
    }

    /// The thread of the request there owns the monitor. The request's place among the owners was
    /// kept.
    fn perform(&mut self, name: Name, place: usize) -> u32
        requires { place < length self.old.items.queue }
        ensures thread { option_map (λ q. q.thread) (slice_get self.old.items.queue place)
            ≡ Some result }
        ensures owners { IfSome (slice_get self.old.items.queue place) (λ q. IsOwnedBy name
            (Some (owned q.thread q.count)) self.old.items.owners self.new.items.owners) }
        ensures queue { self.new.items.queue ≡ remove self.old.items.queue place }
        ensures room { self.old.room ≤ self.new.room }
    {
        let request = self.queue.remove(place);
        let held = Held {
            owner: request.thread,
            count: request.count,
        };
        match self.owners.insert(name, held) {
            Ok(_) => request.thread,
            Err(_) => unreachable!(),
        }
    }
}
