//! What threads share.

ghost use Rattle.std.specs.Prelude.{◌≡◌, slice_get, option_map};
ghost use Rattle.std.specs.Option.{option_copied};
ghost use Rattle.hierarchy.specs.Walks.{has};
ghost use Rattle.machine_state.specs.State.{body_at, owner_at, waiters_of};
ghost use Rattle.machine_state.specs.Step.{text_in};
ghost use Rattle.step_serve.specs.Cells.{lent_body};

use crate::heap::Heap;
use crate::owners::{Owners, waits};
use jvm_base::{Name, Uncaught};
use machine_state::{ClassState, MonitorState, Waiter};
use std::marker::Model;
use step_serve::{BodyRef, Names};

/// What the threads of the one machine share, but for their table: the objects, the owners of locks
/// and who sleeps on one, how far each class is initialised, what was written, and the exceptions
/// that nothing caught. Look-ups by name take a time that grows with the logarithm of the number of
/// objects, or of locks that are owned.
#[derive(Drop)]
pub struct Shared {
    pub(crate) heap: Heap,
    pub(crate) owners: Owners,
    pub(crate) waiting: Vec<Waiter>,
    pub(crate) classes: Vec<ClassState>,
    pub(crate) output: Vec<u8>,
    pub(crate) uncaught: Vec<Uncaught>,
}

impl Model for Shared {
    ghost use Rattle.shared_state.specs.Parts.{Parts};

    ghost Value = { Parts };

    ghost view = { λ a. record {
      heap = a.heap;
      monitors = a.owners;
      waiting = a.waiting.items;
      classes = a.classes.items;
      output = a.output.items;
      uncaught = a.uncaught.items;
    } };
}

impl Names for Shared {
    ghost heap = { λ a. a.heap };

    fn has(&self, name: Name) -> bool {
        self.heap.has(name)
    }
}

impl Shared {
    /// The body of a name, lent; `None` exactly where there is no such object.
    pub fn body(&self, name: Name) -> Option<BodyRef<'_>>
        ensures { option_map lent_body result ≡ body_at self.now.heap name }
    {
        self.heap.body(name)
    }

    /// The content of the String or buffer of a name; `None` exactly where there is no such one.
    pub fn text(&self, name: Name) -> Option<&[u16]>
        ensures { option_copied result ≡ text_in (body_at self.now.heap name) }
    {
        self.heap.text(name)
    }

    /// The owner of a lock; `None` exactly where nobody owns it.
    pub fn owner(&self, lock: Name) -> Option<MonitorState>
        ensures { result ≡ owner_at self.now.monitors lock }
    {
        self.owners.owner(lock)
    }

    /// All that sleep on a lock, the first one first.
    pub fn waiting(&self) -> &[Waiter]
        ensures { result.now ≡ self.now.waiting }
    {
        &self.waiting
    }

    /// Whether the thread sleeps on the lock.
    pub fn waits(&self, lock: Name, thread: u32) -> bool
        ensures { result ≡ has (waiters_of lock self.now.waiting) thread }
    {
        waits(&self.waiting, lock, thread)
    }

    /// How far a class is initialised; `None` exactly where there is no such class.
    pub fn class(&self, class: u32) -> Option<ClassState>
        ensures { result ≡ slice_get self.now.classes class }
    {
        self.classes.get(class as usize).copied()
    }

    /// The bytes that were written.
    pub fn output(&self) -> &[u8]
        ensures { result.now ≡ self.now.output }
    {
        &self.output
    }

    /// The exceptions that nothing caught.
    pub fn uncaught(&self) -> &[Uncaught]
        ensures { result.now ≡ self.now.uncaught }
    {
        &self.uncaught
    }
}
