//! The states of classes, and who is queued for one.

ghost use Rattle.std.specs.Prelude.{◌≡◌, [], ◌∷◌, ◌++◌, ◌<◌, ◌≤◌, ◌+◌, IsTrue, OnOk, OnErr, IfOk, IsOk, Some, None, option_map, MatchOption, length, slice_get, slice_set, replicate};
ghost use Rattle.std.specs.List.{remove, position};
ghost use Rattle.std.specs.Option.{option_copied};
ghost use Rattle.machine_state.specs.declared.state.ClassState.TheVariants as state;
ghost use Rattle.class_init.specs.declared.classes.Asked.TheVariants as answer;
ghost use Rattle.class_init.specs.Classes.{state_of, becomes, is_running, is_run_by, first_states, request, is_for, first_for, without_first, next_for, woken, answer_to, told, asked, places};
ghost use Rattle.class_init.specs.Running.FirstPlaces.{IsFirstAt, HasNone};

use jvm_base::NoMemory;
use machine_state::ClassState;
use std::alloc::Global;
use std::marker::Model;

/// What a thread is told that asks for a class: it may go on; it is to run the initialiser; the
/// class failed; another thread runs the initialiser, and this one is queued until that has ended.
#[derive(Clone, Copy, Debug, PartialEq, Eq)]
pub enum Asked {
    Proceed,
    Run,
    Failed,
    Queued,
}

/// A thread that is queued for a class.
#[derive(Clone, Copy, Debug, PartialEq, Eq)]
pub struct ClassRequest {
    pub class: u32,
    pub thread: u32,
}

/// How far each class is initialised, by its number, and the threads that are queued.
#[derive(Drop)]
pub struct Classes {
    states: Vec<ClassState>,
    queue: Vec<ClassRequest>,
}

impl Model for Classes {
    ghost use Rattle.std.specs.Prelude.{◌-◌, vec_len, vec_capacity};
    ghost use Rattle.class_init.specs.Classes.{Seen};

    ghost Value = { Seen };

    ghost view = { λ a. record {
      items = record { states = a.states.items; queue = a.queue.items };
      room = vec_capacity a.queue - vec_len a.queue;
    } };
}

/// Adds so many classes in the state.
fn push_all(states: &mut Vec<ClassState>, count: u32, state: ClassState) -> Result<(), NoMemory>
    ensures { OnOk result (states.new.items ≡ states.old.items ++ replicate count state) }
{
    for _ in 0..count {
        states.push(state)?;
    }
    Ok(())
}

/// What the thread is told of a class in the state.
fn answer_to(state: ClassState, thread: u32) -> Asked
    ensures { result ≡ answer_to thread state }
{
    match state {
        ClassState::Untouched => Asked::Run,
        ClassState::Running(runner) if runner != thread => Asked::Queued,
        ClassState::Running(_) | ClassState::Done => Asked::Proceed,
        ClassState::Failed => Asked::Failed,
    }
}

/// The place of the first thread that is queued for the class.
fn place_of(queue: &[ClassRequest], class: u32) -> Option<usize>
    ensures { result ≡ position (is_for class) queue.now }
{
    queue.iter().position(|request| request.class == class)
}

/// The same, with what it says of the queue.
#[tactic(auto, using(crate::proofs::QueueLaws::is_first_at, crate::proofs::QueueLaws::has_none))]
fn first_place(queue: &[ClassRequest], class: u32) -> Option<usize>
    ensures { MatchOption result (HasNone class queue.now) (IsFirstAt class queue.now) }
{
    place_of(queue, class)
}

impl Classes {
    /// So many classes, of which those below `done` are done and the others untouched.
    pub fn new(alloc: Global, classes: u32, done: u32) -> Result<Classes, NoMemory>
        ensures states { IfOk result (λ m. m.items.states ≡ first_states classes done) }
        ensures queue { IfOk result (λ m. m.items.queue ≡ []) }
    {
        let mut states = Vec::new(alloc);
        push_all(&mut states, classes.min(done), ClassState::Done)?;
        push_all(
            &mut states,
            classes.saturating_sub(done),
            ClassState::Untouched,
        )?;
        Ok(Classes {
            states,
            queue: Vec::new(alloc),
        })
    }

    /// How far the class is initialised; `None` exactly where there is no such class.
    pub fn state(&self, class: u32) -> Option<ClassState>
        ensures { result ≡ state_of class self.now.items }
    {
        self.states.get(class as usize).copied()
    }

    /// The thread asks for the class: it is to run the initialiser where the class is untouched,
    /// and is queued where another thread runs it. Memory can run out only where it is queued.
    pub fn ask(&mut self, class: u32, thread: u32) -> Result<Asked, NoMemory>
        requires { class < length self.old.items.states }
        ensures answer { IfOk result (λ a. told thread class self.old.items ≡ Some a) }
        ensures items { IfOk result
            (λ a. self.new.items ≡ asked thread class self.old.items a) }
        ensures err { OnErr result (self.new.items ≡ self.old.items) }
        ensures cause { OnErr result
            (told thread class self.old.items ≡ Some answer.Queued) }
        ensures succeeds { 0 < self.old.room → IsOk result }
        ensures room { IfOk result (λ a. self.old.room ≤ self.new.room + places a) }
    {
        let asked = answer_to(self.states[class as usize], thread);
        match asked {
            Asked::Run => self.set(class, ClassState::Running(thread)),
            Asked::Queued => self.request(ClassRequest { class, thread })?,
            Asked::Proceed | Asked::Failed => {}
        }
        Ok(asked)
    }

    /// The class is so far now.
    fn set(&mut self, class: u32, state: ClassState)
        requires { class < length self.old.items.states }
        ensures items { self.new.items ≡ becomes class state self.old.items }
        ensures room { self.new.room ≡ self.old.room }
    {
        self.states[class as usize] = state;
    }

    /// Queues a thread as the last one.
    fn request(&mut self, request: ClassRequest) -> Result<(), NoMemory>
        ensures states { self.new.items.states ≡ self.old.items.states }
        ensures ok { OnOk result
            (self.new.items.queue ≡ self.old.items.queue ++ request ∷ []) }
        ensures err { OnErr result (self.new.items.queue ≡ self.old.items.queue) }
        ensures succeeds { 0 < self.old.room → IsOk result }
        ensures room { self.old.room ≤ self.new.room + 1 }
    {
        self.queue.push(request)?;
        Ok(())
    }

    /// Whether the thread runs the class's initialiser.
    pub fn is_running(&self, class: u32, thread: u32) -> bool
        ensures { result ≡ is_run_by thread (state_of class self.now.items) }
    {
        match self.state(class) {
            Some(ClassState::Running(runner)) => runner == thread,
            _ => false,
        }
    }

    /// Whether some thread does.
    fn has_runner(&self, class: u32) -> bool
        ensures { result ≡ is_running (state_of class self.now.items) }
    {
        matches!(self.state(class), Some(ClassState::Running(_)))
    }

    /// The initialiser ended well. It takes no memory.
    pub fn done(&mut self, class: u32)
        requires { IsTrue (is_running (state_of class self.old.items)) }
        ensures items { self.new.items ≡ becomes class state.Done self.old.items }
        ensures room { self.old.room ≤ self.new.room }
    {
        self.set(class, ClassState::Done);
    }

    /// The initialiser failed. It takes no memory.
    pub fn fail(&mut self, class: u32)
        requires { IsTrue (is_running (state_of class self.old.items)) }
        ensures items { self.new.items ≡ becomes class state.Failed self.old.items }
        ensures room { self.old.room ≤ self.new.room }
    {
        self.set(class, ClassState::Failed);
    }

    /// The first thread that is queued for the class leaves the queue, unless a thread runs the
    /// class's initialiser. It takes no memory.
    pub fn wake_first(&mut self, class: u32) -> Option<u32>
        ensures thread { result
            ≡ option_map (λ q. q.thread) (next_for class self.old.items) }
        ensures items { self.new.items ≡ woken class self.old.items }
        ensures room { self.old.room ≤ self.new.room }
    {
        if self.has_runner(class) {
            return None;
        }
        let place = first_place(&self.queue, class)?;
        Some(self.queue.remove(place).thread)
    }
}
