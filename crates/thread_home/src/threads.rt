//! Which threads were made, which have ended, and who waits for an end.

ghost use Rattle.std.specs.Prelude.{◌≡◌, [], ◌∷◌, ◌++◌, ◌↔◌, ◌<◌, ◌≤◌, ◌+◌, true, false, IsTrue, OnOk, OnErr, IfOk, IfErr, IsOk, OnSome, None, MatchOption, option_map, length};
ghost use Rattle.std.specs.List.{find, position};
ghost use Rattle.thread_home.specs.ThreadTable.{started, is_going, is_of, IsThreadAt, end_of, is_started, is_awaited, is_full, HasEnded, joining, is_for, first_for, without_first, IsFirstAt, next_for, Joins};
ghost use Rattle.thread_home.specs.declared.error.StartErr.TheVariants.{ThreadsFull, StartedBefore};

use crate::error::StartErr;
use jvm_base::{Name, NoMemory};
use std::alloc::Global;
use std::marker::Model;

/// How many threads may be made.
const LIMIT: usize = 64;

/// What came of a join: there is nothing to wait for, or the thread waits.
#[derive(Clone, Copy, Debug, PartialEq, Eq)]
pub enum Joined {
    Joined,
    Queued,
}

/// A thread that was made, by its Thread object.
#[derive(Clone, Copy, Debug, PartialEq, Eq)]
pub struct Thread {
    pub object: Name,
    pub has_ended: bool,
}

/// A thread that waits until the thread of the object has ended.
#[derive(Clone, Copy, Debug, PartialEq, Eq)]
pub struct Joining {
    pub object: Name,
    pub thread: u32,
}

/// The threads, each at its number, and those that wait for an end.
#[derive(Drop)]
pub struct Threads64 {
    threads: Vec<Thread>,
    queue: Vec<Joining>,
}

impl Model for Threads64 {
    ghost use Rattle.std.specs.Prelude.{◌-◌, min, vec_len, vec_capacity};
    ghost use Rattle.thread_home.specs.ThreadTable.{Seen};

    ghost Value = { Seen };

    ghost view = { λ a. record {
      items = record { threads = a.threads.items; queue = a.queue.items };
      room = min (vec_capacity a.threads - vec_len a.threads)
          (vec_capacity a.queue - vec_len a.queue);
    } };
}

/// The number of the object's thread.
fn number_of(threads: &[Thread], object: Name) -> Option<usize>
    ensures { result ≡ position (is_of object) threads.now }
{
    threads.iter().position(|thread| thread.object == object)
}

/// Where the object's thread stands; `None` exactly where the object wasn't started.
#[tactic(auto, using(crate::proofs::TableLaws::is_thread_at, crate::proofs::TableLaws::has_no_thread))]
fn thread_place(threads: &[Thread], object: Name) -> Option<usize>
    ensures { MatchOption result (find (is_of object) threads.now ≡ None)
        (IsThreadAt object threads.now) }
{
    number_of(threads, object)
}

/// The object's thread.
fn thread_in(threads: &[Thread], object: Name) -> Option<Thread>
    ensures { result ≡ find (is_of object) threads.now }
{
    let place = thread_place(threads, object)?;
    threads.get(place).copied()
}

/// Whether the object's thread has ended.
#[tactic(auto, using(crate::proofs::TableLaws::end_found))]
fn end_in(threads: &[Thread], object: Name) -> Option<bool>
    ensures { result ≡ end_of object threads.now }
{
    let thread = thread_in(threads, object)?;
    Some(thread.has_ended)
}

/// The place of the first that waits for the object's thread.
fn place_of(queue: &[Joining], object: Name) -> Option<usize>
    ensures { result ≡ position (is_for object) queue.now }
{
    queue.iter().position(|waiting| waiting.object == object)
}

/// Where the first that waits for the object's thread stands; `None` exactly where nobody does.
#[tactic(auto, using(crate::proofs::TableLaws::is_first_at, crate::proofs::TableLaws::has_none))]
fn first_place(queue: &[Joining], object: Name) -> Option<usize>
    ensures { MatchOption result (first_for object queue.now ≡ None)
        (IsFirstAt object queue.now) }
{
    place_of(queue, object)
}

impl Threads64 {
    /// Thread 0 alone, which goes on; nobody waits.
    pub fn new(alloc: Global, object: Name) -> Result<Threads64, NoMemory>
        ensures threads { IfOk result (λ a. a.items.threads ≡ started object ∷ []) }
        ensures queue { IfOk result (λ a. a.items.queue ≡ []) }
    {
        let mut threads = Vec::new(alloc);
        threads.push(Thread {
            object,
            has_ended: false,
        })?;
        Ok(Threads64 {
            threads,
            queue: Vec::new(alloc),
        })
    }

    /// Makes room for so many threads and waiting ones more.
    pub fn reserve(&mut self, more: u64) -> Result<(), NoMemory>
        ensures items { self.new.items ≡ self.old.items }
        ensures ok { OnOk result (more ≤ self.new.room) }
        ensures succeeds { more ≤ self.old.room → IsOk result }
        ensures room { self.old.room ≤ self.new.room }
    {
        self.threads.reserve(more as usize)?;
        self.queue.reserve(more as usize)?;
        Ok(())
    }

    /// Starts the object's thread, and answers its number: how many were made before it.
    pub fn start(&mut self, object: Name) -> Result<u32, StartErr>
        ensures ok { OnOk result ((is_started object self.old.items.threads ≡ false)
            × (is_full self.old.items.threads ≡ false)) }
        ensures before { IfErr result
            (λ e. e ≡ StartedBefore ↔ is_started object self.old.items.threads ≡ true) }
        ensures full { IfErr result
            (λ e. e ≡ ThreadsFull ↔ (is_started object self.old.items.threads ≡ false)
            × (is_full self.old.items.threads ≡ true)) }
        ensures number { IfOk result (λ k. k ≡ length self.old.items.threads) }
        ensures threads { OnOk result
            (self.new.items.threads ≡ self.old.items.threads ++ started object ∷ []) }
        ensures queue { self.new.items.queue ≡ self.old.items.queue }
        ensures err { OnErr result (self.new.items ≡ self.old.items) }
        ensures succeeds { 0 < self.old.room →
            is_started object self.old.items.threads ≡ false →
            is_full self.old.items.threads ≡ false → IsOk result }
        ensures room { self.old.room ≤ self.new.room + 1 }
    {
        if end_in(&self.threads, object).is_some() {
            return Err(StartErr::StartedBefore);
        }
        let count = self.threads.len();
        if count >= LIMIT {
            return Err(StartErr::ThreadsFull);
        }
        self.add(object)?;
        Ok(count as u32)
    }

    /// One thread more, as the last one.
    fn add(&mut self, object: Name) -> Result<(), NoMemory>
        ensures threads { OnOk result
            (self.new.items.threads ≡ self.old.items.threads ++ started object ∷ []) }
        ensures queue { self.new.items.queue ≡ self.old.items.queue }
        ensures err { OnErr result (self.new.items ≡ self.old.items) }
        ensures succeeds { 0 < self.old.room → IsOk result }
        ensures room { self.old.room ≤ self.new.room + 1 }
    {
        self.threads.push(Thread {
            object,
            has_ended: false,
        })?;
        Ok(())
    }

    /// The thread waits until the object's thread has ended. Where it has, or was never started,
    /// there is nothing to wait for, and no memory is taken.
    pub fn join(&mut self, object: Name, thread: u32) -> Result<Joined, NoMemory>
        ensures threads { self.new.items.threads ≡ self.old.items.threads }
        ensures ok { IfOk result (Joins thread object self.old.items self.new.items) }
        ensures err { OnErr result (self.new.items ≡ self.old.items) }
        ensures succeeds { 0 < self.old.room → IsOk result }
        ensures goes_on { is_awaited object self.old.items.threads ≡ false → IsOk result }
        ensures room { self.old.room ≤ self.new.room + 1 }
        ensures kept { is_awaited object self.old.items.threads ≡ false →
            self.old.room ≤ self.new.room }
    {
        if !self.is_awaited(object) {
            return Ok(Joined::Joined);
        }
        self.queue.push(Joining { object, thread })?;
        Ok(Joined::Queued)
    }

    /// Whether the object was started and its thread goes on.
    fn is_awaited(&self, object: Name) -> bool
        ensures { result ≡ is_awaited object self.now.items.threads }
    {
        end_in(&self.threads, object) == Some(false)
    }

    /// Whether the thread was made and hasn't ended.
    pub fn is_going(&self, thread: u32) -> bool
        ensures { result ≡ is_going thread self.now.items.threads }
    {
        match self.threads.get(thread as usize) {
            Some(made) => !made.has_ended,
            None => false,
        }
    }

    /// The thread has ended. Those that wait for it stay queued, and `wake_first` takes them out.
    pub fn ended(&mut self, thread: u32)
        requires { IsTrue (is_going thread self.old.items.threads) }
        ensures threads { HasEnded thread self.old.items.threads self.new.items.threads }
        ensures queue { self.new.items.queue ≡ self.old.items.queue }
        ensures room { self.new.room ≡ self.old.room }
    {
        self.threads[thread as usize].has_ended = true;
    }

    /// The first that waits for the object's thread waits no longer, once that thread has ended.
    pub fn wake_first(&mut self, object: Name) -> Option<u32>
        ensures thread { result ≡ option_map (λ q. q.thread) (next_for object self.old.items) }
        ensures none { result ≡ None → self.new.items ≡ self.old.items }
        ensures threads { self.new.items.threads ≡ self.old.items.threads }
        ensures queue { OnSome result
            (self.new.items.queue ≡ without_first object self.old.items.queue) }
        ensures room { self.old.room ≤ self.new.room }
    {
        if self.is_awaited(object) {
            return None;
        }
        let place = first_place(&self.queue, object)?;
        Some(self.queue.remove(place).thread)
    }
}
