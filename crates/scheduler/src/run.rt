//! A run on the one machine.

ghost use Rattle.std.specs.Prelude.{◌≡◌, ◌≤◌, ℕ, [], ◌∷◌, ◌++◌, length, true, false, replicate, slice_get, take, Some, IfOk, OnOk, OnErr, MatchOption};
ghost use Rattle.machine_state.specs.declared.state.ThreadState.{ThreadState as ThreadIs};
ghost use Rattle.machine_state.specs.Runs.{any_choice, some_can};
ghost use Rattle.machine_state.specs.Start.{start};
ghost use Rattle.one_machine.specs.Ready.{CanRun, IsReady};
ghost use Rattle.scheduler.specs.Running.{IsRun, LeadsOn, GoesOn, IsStop, IsTurn, IsAtLimit, at_limit};
ghost use Rattle.scheduler.specs.Progress.{IsProgress};

use jvm_base::{NoMemory, Uncaught, Units};
use machine_state::{Choice, Order, Reason};
use one_machine::{Machine, Took, Went, any_choice};
use program_image::Image;
use std::alloc::Global;
use std::marker::Model;

/// How many steps a thread takes before another one's turn.
const TURN: u32 = 64;

/// How many steps that do more than move on their frame are taken before what was printed may be
/// written.
const BURST: u32 = 4096;

/// How many threads there may be.
const MAX_THREADS: u32 = 64;

/// How a run ended: all threads have ended, with or without exceptions that nothing caught; a
/// thread has taken as many steps as it may; none of those that haven't ended can take a step; or a
/// thread would start one more than there may be.
#[derive(Clone, Copy, Debug, PartialEq, Eq)]
pub enum Stop {
    Done,
    Uncaught,
    StepLimit { thread: u32 },
    Deadlock,
    ThreadsFull { thread: u32 },
}

/// What came of a thread in its turn: a step; none, since it can't take one; or the end of the run.
#[derive(Clone, Copy, Debug, PartialEq, Eq)]
enum Progress {
    Stepped,
    Passed,
    Stops(Stop),
}

/// A run so far. Threads take turns by their numbers, 64 steps each, and one that can't take a step
/// is passed over. A notify wakes the first waiter. New objects are named by a counter. `printed`
/// is how many bytes the steps of the order wrote: where memory runs out for the order, the machine
/// may have written more.
#[derive(Drop)]
pub struct Run {
    machine: Machine,
    order: Order,
    printed: usize,
    limit: u64,
    thread: u32,
    left: u32,
    next: u64,
}

impl Model for Run {
    ghost use Rattle.scheduler.specs.Running.{Run as Kept};

    ghost Value = { Kept };

    ghost view = { λ a. record {
      machine = a.machine;
      order = a.order;
      printed = a.printed;
      limit = a.limit;
    } };
}

impl Run {
    /// A program before its first step, with its arguments, and how many steps each thread may
    /// take.
    pub fn new(alloc: Global, image: &Image, args: &[Units], limit: u64) -> Result<Run, NoMemory>
        requires { CanRun image.now }
        ensures run { IfOk result (λ r. IsRun image.now r) }
        ensures start { IfOk result (λ r. r.machine.state ≡ start image.now args.now) }
        ensures order { IfOk result (λ r. r.order ≡ []) }
        ensures limit { IfOk result (λ r. r.limit ≡ limit) }
    {
        Ok(Run {
            machine: Machine::new(alloc, image, args)?,
            order: Order::new(alloc),
            printed: 0,
            limit,
            thread: 0,
            left: TURN,
            next: 0,
        })
    }

    /// Whether a thread hasn't ended and has taken as many steps as it may.
    fn is_spent(&self, thread: usize) -> bool
        ensures { result ≡ at_limit self.now.limit
            (slice_get self.now.machine.state.threads thread) }
    {
        match self.machine.thread(thread) {
            Some((ended, steps)) => !ended && steps >= self.limit,
            None => false,
        }
    }

    /// The first thread that has taken as many steps as it may; `None` exactly where none has.
    fn first_spent(&self) -> Option<usize>
        ensures { MatchOption result
            ((t : ℕ) → at_limit self.now.limit (slice_get self.now.machine.state.threads t) ≡ false)
            (λ t. IsAtLimit self.now.limit self.now.machine.state t) }
    {
        for thread in 0..self.machine.threads() {
            if self.is_spent(thread) {
                return Some(thread);
            }
        }
        None
    }

    /// Why the run ends where no thread can take a step. A thread whose number had more than 32
    /// bits would be want of memory.
    fn standstill(&self, image: &Image) -> Result<Stop, NoMemory>
        requires { some_can image.now self.now.machine.state 0
            self.now.machine.state.threads ≡ false }
        ensures { IfOk result (IsStop image.now self.now.limit self.now.machine.state) }
    {
        let _ = image;
        if self.machine.all_ended() {
            return Ok(if self.machine.uncaught().is_empty() {
                Stop::Done
            } else {
                Stop::Uncaught
            });
        }
        match self.first_spent() {
            Some(thread) => {
                let thread = u32::try_from(thread).map_err(|_| NoMemory)?;
                Ok(Stop::StepLimit { thread })
            }
            None => Ok(Stop::Deadlock),
        }
    }

    /// Keeps a step in the order, and counts the names that it used and what it wrote.
    fn keep(&mut self, took: Took) -> Result<(), NoMemory>
        ensures ok { OnOk result (self.new.order ≡ self.old.order ++ took.choice ∷ []) }
        ensures printed { OnOk result
            (self.new.printed ≡ length self.old.machine.state.output) }
        ensures err { OnErr result (self.new.order ≡ self.old.order) }
        ensures unprinted { OnErr result (self.new.printed ≡ self.old.printed) }
        ensures machine { self.new.machine ≡ self.old.machine }
        ensures limit { self.new.limit ≡ self.old.limit }
    {
        self.order.push(took.choice)?;
        self.printed = self.machine.output().len();
        self.next = self.next.saturating_add(took.made);
        self.left = self.left.saturating_sub(1);
        Ok(())
    }

    /// Takes the next step of a thread, if it can take one. There is want of memory too where no
    /// name is left for what it makes.
    fn advance(&mut self, alloc: Global, image: &Image, thread: u32) -> Result<Progress, NoMemory>
        requires run { IsRun image.now self.old }
        requires unspent { at_limit self.old.limit
            (slice_get self.old.machine.state.threads thread) ≡ false }
        ensures progress { IfOk result (IsProgress image.now self.old thread self.new) }
        ensures run { OnOk result (IsRun image.now self.new) }
        ensures limit { self.new.limit ≡ self.old.limit }
        ensures err { OnErr result
            (GoesOn image.now self.old.machine.state self.old.order self.new) }
    {
        // Where no name is left this one is in use, which is refused.
        let index = u32::try_from(self.next).unwrap_or(u32::MAX);
        match self
            .machine
            .advance(alloc, image, thread, index, MAX_THREADS)?
        {
            Went::Steps(took) => {
                self.keep(took)?;
                Ok(Progress::Stepped)
            }
            Went::Full => Ok(Progress::Stops(Stop::ThreadsFull { thread })),
            Went::Refused(reason) => match reason {
                Reason::BadName => Err(NoMemory),
                _ => Ok(Progress::Passed),
            },
        }
    }

    /// How many steps are left of the turn. Where there is one thread its next turn begins as soon as
    /// one has ended, since nobody else is to be looked for.
    fn left_of_turn(&self) -> u32 {
        if self.left == 0 && self.machine.threads() == 1 {
            TURN
        } else {
            self.left
        }
    }

    /// Takes steps of the thread in turn that touch its frame alone, in a row: as many as are left of
    /// its turn and of its steps, up to the first that does more.
    fn glide(&mut self, image: &Image) -> Result<(), NoMemory>
        requires { IsRun image.now self.old }
        ensures run { OnOk result (IsRun image.now self.new) }
        ensures later { OnOk result (LeadsOn image.now self.old.machine.state self.old.order
            self.new.order self.new.machine.state) }
        ensures limit { self.new.limit ≡ self.old.limit }
        ensures err { OnErr result
            (GoesOn image.now self.old.machine.state self.old.order self.new) }
    {
        let left = self.left_of_turn();
        let most = u64::from(left);
        let taken = self.machine.glide(image, self.thread, most, self.limit);
        self.left = left - taken as u32;
        self.order.push_many(any_choice(self.thread), taken)?;
        Ok(())
    }

    /// The turn of the next thread that can take a step, from a number on: it takes its first one.
    /// One that has taken as many as it may ends the run.
    fn change_turn(
        &mut self,
        alloc: Global,
        image: &Image,
        from: u32,
    ) -> Result<Option<Stop>, NoMemory>
        requires { IsRun image.now self.old }
        ensures run { OnOk result (IsRun image.now self.new) }
        ensures later { OnOk result (LeadsOn image.now self.old.machine.state self.old.order
            self.new.order self.new.machine.state) }
        ensures turn { IfOk result
            (λ o. IsTurn image.now self.old.limit self.old.order self.new o) }
        ensures limit { self.new.limit ≡ self.old.limit }
        ensures err { OnErr result
            (GoesOn image.now self.old.machine.state self.old.order self.new) }
    {
        let Some(next) = self.machine.next_able(alloc, image, from)? else {
            return Ok(Some(self.standstill(image)?));
        };
        if self.is_spent(next as usize) {
            return Ok(Some(Stop::StepLimit { thread: next }));
        }
        self.thread = next;
        self.left = TURN;
        match self.advance(alloc, image, next)? {
            Progress::Stepped => Ok(None),
            Progress::Stops(stop) => Ok(Some(stop)),
            Progress::Passed => unreachable!(),
        }
    }

    /// Takes one step: of the thread in turn, or of the next one that can. A thread in turn that has
    /// taken as many as it may is asked first whether it can take one more, since that ends the run.
    fn take_one(&mut self, alloc: Global, image: &Image) -> Result<Option<Stop>, NoMemory>
        requires { IsRun image.now self.old }
        ensures run { OnOk result (IsRun image.now self.new) }
        ensures later { OnOk result (LeadsOn image.now self.old.machine.state self.old.order
            self.new.order self.new.machine.state) }
        ensures turn { IfOk result
            (λ o. IsTurn image.now self.old.limit self.old.order self.new o) }
        ensures limit { self.new.limit ≡ self.old.limit }
        ensures err { OnErr result
            (GoesOn image.now self.old.machine.state self.old.order self.new) }
    {
        let thread = self.thread;
        if self.left == 0 {
            return self.change_turn(alloc, image, thread.saturating_add(1));
        }
        if self.is_spent(thread as usize) {
            return self.change_turn(alloc, image, thread);
        }
        match self.advance(alloc, image, thread)? {
            Progress::Stepped => Ok(None),
            Progress::Stops(stop) => Ok(Some(stop)),
            Progress::Passed => self.change_turn(alloc, image, thread.saturating_add(1)),
        }
    }

    /// Takes steps: those of the thread in turn that touch its frame alone, and then one more.
    fn step(&mut self, alloc: Global, image: &Image) -> Result<Option<Stop>, NoMemory>
        requires { IsRun image.now self.old }
        ensures run { OnOk result (IsRun image.now self.new) }
        ensures later { OnOk result (LeadsOn image.now self.old.machine.state self.old.order
            self.new.order self.new.machine.state) }
        ensures turn { IfOk result
            (λ o. IsTurn image.now self.old.limit self.old.order self.new o) }
        ensures limit { self.new.limit ≡ self.old.limit }
        ensures err { OnErr result
            (GoesOn image.now self.old.machine.state self.old.order self.new) }
    {
        self.glide(image)?;
        self.take_one(alloc, image)
    }

    /// Takes steps: up to 4,096 of any kind, and before each of them as many as its thread's turn has
    /// that touch their frame alone. `Some` where the run is at its end. Where memory runs out the
    /// order is that of steps that were taken, the output is theirs, and the run can't go on.
    pub fn burst(&mut self, alloc: Global, image: &Image) -> Result<Option<Stop>, NoMemory>
        requires { IsRun image.now self.old }
        ensures run { OnOk result (IsRun image.now self.new) }
        ensures later { OnOk result (LeadsOn image.now self.old.machine.state self.old.order
            self.new.order self.new.machine.state) }
        ensures turn { IfOk result
            (λ o. IsTurn image.now self.old.limit self.old.order self.new o) }
        ensures limit { self.new.limit ≡ self.old.limit }
        ensures err { OnErr result
            (GoesOn image.now self.old.machine.state self.old.order self.new) }
    {
        for _ in 0..BURST {
            if let Some(stop) = self.step(alloc, image)? {
                return Ok(Some(stop));
            }
        }
        Ok(None)
    }

    /// The order of all steps so far.
    pub fn order(&self) -> &Order
        ensures { result.now ≡ self.now.order }
    {
        &self.order
    }

    /// The order of all steps; the run is over.
    pub fn into_order(self) -> Order
        ensures { result ≡ self.order }
    {
        self.order
    }

    /// The bytes that the steps of the order wrote.
    pub fn output(&self) -> &[u8]
        ensures { result.now ≡ take self.now.printed self.now.machine.state.output }
    {
        let output = self.machine.output();
        &output[..self.printed.min(output.len())]
    }

    /// The exceptions that nothing caught so far, in order.
    pub fn uncaught(&self) -> &[Uncaught]
        ensures { result.now ≡ self.now.machine.state.uncaught }
    {
        self.machine.uncaught()
    }
}
