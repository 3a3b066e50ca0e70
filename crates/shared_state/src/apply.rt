//! How a step's changes are done: all of them, or none where memory runs out. The end of a thread is
//! left to whoever has the thread go on.

ghost use Rattle.std.specs.Prelude.{◌≡◌, [], ◌∷◌, ◌++◌, IfOk, OnOk, OnErr, map, slice_set};
ghost use Rattle.jvm_base.specs.Maps.{put};
ghost use Rattle.jvm_base.specs.Names.{name_cmp};
ghost use Rattle.machine_state.specs.Changes.{changed, new_thread, waiter, without_owner};
ghost use Rattle.machine_state.specs.Serving.{change_of, changes_of};
ghost use Rattle.shared_state.specs.Parts.{state_of, thread_state, HasFirst};
ghost use Rattle.shared_state.specs.Orderly.{IsOrderly, ArePair, ended_in, lasting};

use crate::made::{make_all, make_two};
use crate::owners::{wake, wake_all};
use crate::shared::Shared;
use crate::thread::Thread;
use jvm_base::{List, Name, NoMemory, ObjectBody};
use machine_state::{ClassState, Effect, Effects, Mode, Waiter};
use std::alloc::Global;

/// A thread is started on an object, as the last one.
pub(crate) fn start_thread(
    alloc: Global,
    threads: &mut Vec<Thread>,
    object: Name,
) -> Result<(), NoMemory>
    ensures ok { OnOk result (map thread_state threads.new.items
        ≡ map thread_state threads.old.items ++ new_thread object ∷ []) }
    ensures first { HasFirst threads.old.items threads.new.items }
    ensures err { OnErr result (threads.new.items ≡ threads.old.items) }
{
    threads.push(Thread {
        object,
        mode: Mode::Entry,
        levels: Vec::new(alloc),
        steps: 0,
    })?;
    Ok(())
}

/// A class is in a state, if there is such a class. It takes no memory.
fn set_class(classes: &mut [ClassState], class: u32, state: ClassState)
    ensures { classes.new ≡ slice_set classes.old class state }
{
    if (class as usize) < classes.len() {
        classes[class as usize] = state;
    }
}

impl Shared {
    /// One change is done, or none; or a thread ends.
    fn perform(
        &mut self,
        alloc: Global,
        threads: &mut Vec<Thread>,
        effect: Effect,
    ) -> Result<Option<u32>, NoMemory>
        ensures ok { OnOk result (state_of self.new threads.new.items
            ≡ changed (lasting (change_of self.old.heap effect ∷ []))
            (state_of self.old threads.old.items)) }
        ensures ended { IfOk result
            (λ ended. ended ≡ ended_in (change_of self.old.heap effect ∷ [])) }
        ensures first { HasFirst threads.old.items threads.new.items }
        ensures err { OnErr result (self.new ≡ self.old) }
        ensures err_threads { OnErr result (threads.new.items ≡ threads.old.items) }
    {
        match effect {
            Effect::Made(name, body) => self.heap.make(alloc, name, body)?,
            Effect::SetsField(name, place, value) => self.heap.set_field(name, place, value),
            Effect::SetsElement(name, place, value) => self.heap.set_element(name, place, value),
            Effect::Appends(name, units) => self.heap.append(name, units.as_slice())?,
            Effect::Owned(lock, owner) => self.owners.own(lock, owner)?,
            Effect::Freed(lock) => self.owners.free(lock),
            Effect::Sleeps(lock, thread) => self.waiting.push(Waiter { lock, thread })?,
            Effect::Moved(lock, thread) => wake(&mut self.waiting, lock, thread),
            Effect::MovedAll(lock) => wake_all(&mut self.waiting, lock),
            Effect::Becomes(class, state) => set_class(&mut self.classes, class, state),
            Effect::Started(object) => start_thread(alloc, threads, object)?,
            Effect::Finished(thread) => return Ok(Some(thread)),
            Effect::Lost(exception) => self.uncaught.push(exception)?,
            Effect::Printed(bytes) => self.output.extend_from_slice(bytes.as_slice())?,
        }
        Ok(None)
    }

    /// A thread frees a lock and sleeps on one, or nothing is done.
    fn fall_asleep(&mut self, freed: Name, lock: Name, thread: u32) -> Result<(), NoMemory>
        ensures ok { OnOk result (self.new ≡ record self.old {
          monitors = without_owner freed self.old.monitors;
          waiting = self.old.waiting ++ waiter lock thread ∷ [];
        }) }
        ensures err { OnErr result (self.new ≡ self.old) }
    {
        self.waiting.push(Waiter { lock, thread })?;
        self.owners.free(freed);
        Ok(())
    }

    /// An object is made and a class is in a state, or nothing is done.
    fn make_and_set(
        &mut self,
        alloc: Global,
        name: Name,
        body: ObjectBody,
        class: u32,
        state: ClassState,
    ) -> Result<(), NoMemory>
        ensures ok { OnOk result (self.new ≡ record self.old {
          heap = put name_cmp name body self.old.heap;
          classes = slice_set self.old.classes class state;
        }) }
        ensures err { OnErr result (self.new ≡ self.old) }
    {
        self.heap.make(alloc, name, body)?;
        set_class(&mut self.classes, class, state);
        Ok(())
    }

    /// Two changes are done, or none; the second may be the end of a thread.
    fn perform_two(
        &mut self,
        alloc: Global,
        threads: &mut Vec<Thread>,
        first: Effect,
        second: Effect,
    ) -> Result<Option<u32>, NoMemory>
        requires { ArePair self.old.heap
            (change_of self.old.heap first) (change_of self.old.heap second) }
        ensures ok { OnOk result (state_of self.new threads.new.items
            ≡ changed (lasting (change_of self.old.heap first
            ∷ change_of self.old.heap second ∷ [])) (state_of self.old threads.old.items)) }
        ensures ended { IfOk result (λ ended. ended ≡ ended_in
            (change_of self.old.heap first ∷ change_of self.old.heap second ∷ [])) }
        ensures first { HasFirst threads.old.items threads.new.items }
        ensures err { OnErr result (self.new ≡ self.old) }
        ensures err_threads { OnErr result (threads.new.items ≡ threads.old.items) }
    {
        match (first, second) {
            (Effect::Made(name, body), Effect::Becomes(class, state)) => {
                self.make_and_set(alloc, name, body, class, state)?;
                Ok(None)
            }
            (Effect::Freed(freed), Effect::Sleeps(lock, thread)) => {
                self.fall_asleep(freed, lock, thread)?;
                Ok(None)
            }
            (Effect::Lost(exception), Effect::Finished(thread)) => {
                self.uncaught.push(exception)?;
                Ok(Some(thread))
            }
            (Effect::Made(name, body), Effect::Made(other, other_body)) => {
                make_two(alloc, &mut self.heap, name, body, other, other_body)?;
                Ok(None)
            }
            _ => unreachable!(),
        }
    }

    /// The changes of a list are done, or none, but for the end of a thread.
    fn perform_all(
        &mut self,
        alloc: Global,
        threads: &mut Vec<Thread>,
        mut effects: List<Effect>,
    ) -> Result<Option<u32>, NoMemory>
        requires { IsOrderly self.old.heap (map (change_of self.old.heap) effects) }
        ensures ok { OnOk result (state_of self.new threads.new.items
            ≡ changed (lasting (map (change_of self.old.heap) effects))
            (state_of self.old threads.old.items)) }
        ensures ended { IfOk result
            (λ ended. ended ≡ ended_in (map (change_of self.old.heap) effects)) }
        ensures first { HasFirst threads.old.items threads.new.items }
        ensures err { OnErr result (self.new ≡ self.old) }
        ensures err_threads { OnErr result (threads.new.items ≡ threads.old.items) }
    {
        if effects.len() > 2 {
            make_all(alloc, &mut self.heap, &mut effects)?;
            return Ok(None);
        }
        let Some(last) = effects.pop() else {
            return Ok(None);
        };
        match effects.pop() {
            Some(first) => self.perform_two(alloc, threads, first, last),
            None => self.perform(alloc, threads, last),
        }
    }

    /// Does a step's changes: all of them, or none where memory runs out. It answers which thread ends
    /// by them, if one does, and leaves that to be done. What is put behind a buffer's content or
    /// behind the output takes an amortised constant time for each unit.
    pub fn apply(
        &mut self,
        alloc: Global,
        threads: &mut Vec<Thread>,
        effects: Effects,
    ) -> Result<Option<u32>, NoMemory>
        requires { IsOrderly self.old.heap (changes_of self.old.heap effects) }
        ensures ok { OnOk result (state_of self.new threads.new.items
            ≡ changed (lasting (changes_of self.old.heap effects))
            (state_of self.old threads.old.items)) }
        ensures ended { IfOk result
            (λ ended. ended ≡ ended_in (changes_of self.old.heap effects)) }
        ensures first { HasFirst threads.old.items threads.new.items }
        ensures err { OnErr result (self.new ≡ self.old) }
        ensures err_threads { OnErr result (threads.new.items ≡ threads.old.items) }
    {
        match effects {
            Effects::Nothing => Ok(None),
            Effects::One(effect) => self.perform(alloc, threads, effect),
            Effects::Two(first, second) => self.perform_two(alloc, threads, first, second),
            Effects::Many(effects) => self.perform_all(alloc, threads, effects),
        }
    }
}
