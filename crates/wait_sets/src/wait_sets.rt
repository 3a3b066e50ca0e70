//! Who waits for which monitor.

ghost use Rattle.std.specs.Prelude.{◌≡◌, [], ◌∷◌, ◌++◌, ◌<◌, ◌≤◌, ◌+◌, OnOk, OnErr, IsOk, length};
ghost use Rattle.cluster_monitor.specs.Monitors.{first_for, without_first};
ghost use Rattle.wait_sets.specs.WaitSets.{all_for, without_all};

use cluster_monitor::{Request, first_place};
use jvm_base::{Name, NoMemory};
use std::alloc::Global;
use std::marker::Model;

/// The threads of a node that wait, each with the request that it has once it is notified.
#[derive(Drop)]
pub struct WaitSets {
    waiting: Vec<Request>,
}

impl Model for WaitSets {
    ghost use Rattle.std.specs.Prelude.{◌-◌, vec_len, vec_capacity};
    ghost use Rattle.wait_sets.specs.WaitSets.{Seen};

    ghost Value = { Seen };

    ghost view = { λ a. record {
      items = a.waiting.items;
      room = vec_capacity a.waiting - vec_len a.waiting;
    } };
}

impl WaitSets {
    /// Nobody waits. It takes no memory.
    pub fn new(alloc: Global) -> WaitSets
        ensures { result.items ≡ [] }
    {
        WaitSets {
            waiting: Vec::new(alloc),
        }
    }

    /// Who waits, in the order in which they came.
    pub fn as_slice(&self) -> &[Request]
        ensures { result.now ≡ self.now.items }
    {
        self.waiting.as_slice()
    }

    /// A thread waits, as the last one.
    pub(crate) fn push(&mut self, waiter: Request) -> Result<(), NoMemory>
        ensures ok { OnOk result (self.new.items ≡ self.old.items ++ waiter ∷ []) }
        ensures err { OnErr result (self.new.items ≡ self.old.items) }
        ensures succeeds { 0 < self.old.room → IsOk result }
        ensures room { self.old.room ≤ self.new.room + 1 }
    {
        self.waiting.push(waiter)?;
        Ok(())
    }

    /// The first who waits for the monitor.
    pub(crate) fn first(&self, name: Name) -> Option<Request>
        ensures { result ≡ first_for name self.now.items }
    {
        let place = first_place(&self.waiting, name)?;
        self.waiting.get(place).copied()
    }

    /// That one waits no longer.
    #[tactic(auto, using(crate::proofs::WaitLaws::none_is_gone))]
    pub(crate) fn remove_first(&mut self, name: Name)
        ensures items { self.new.items ≡ without_first name self.old.items }
        ensures room { self.old.room ≤ self.new.room }
    {
        if let Some(place) = first_place(&self.waiting, name) {
            let _ = self.waiting.remove(place);
        }
    }

    /// How many wait for the monitor.
    pub(crate) fn count(&self, name: Name) -> usize
        ensures { result ≡ length (all_for name self.now.items) }
    {
        let mut count = 0;
        for waiter in &self.waiting {
            if waiter.name == name {
                count += 1;
            }
        }
        count
    }

    /// Nobody waits for the monitor any longer.
    pub(crate) fn remove_all(&mut self, name: Name)
        ensures items { self.new.items ≡ without_all name self.old.items }
        ensures room { self.old.room ≤ self.new.room }
    {
        self.waiting.retain(|waiter| waiter.name != name);
    }
}
