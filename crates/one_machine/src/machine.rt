//! The one machine and its steps.

ghost use Rattle.std.specs.Prelude.{◌≡◌, ◌≤◌, true, false, length, map, option_map, slice_get, Some, IfOk, IfErr, OnOk, OnErr};
ghost use Rattle.std.specs.List.{list_all};
ghost use Rattle.machine_state.specs.Reasons.{reason};
ghost use Rattle.machine_state.specs.declared.served.Wish.TheVariants.{Fresh};
ghost use Rattle.machine_state.specs.Runs.{any_choice, end_of};
ghost use Rattle.machine_state.specs.Start.{start};
ghost use Rattle.machine_state.specs.State.{is_ended};
ghost use Rattle.machine_state.specs.Step.{step};
ghost use Rattle.program_reads.specs.Kept.{IsKept};
ghost use Rattle.shared_state.specs.First.{IsOpening};
ghost use Rattle.shared_state.specs.Parts.{thread_state};
ghost use Rattle.step_serve.specs.Blank.{AreBlanks};
ghost use Rattle.one_machine.specs.Gliding.{Glides};
ghost use Rattle.one_machine.specs.Going.{IsWent, IsReason};
ghost use Rattle.one_machine.specs.Ready.{CanRun, IsAble, IsNext, IsReady, machine_at};
ghost use Rattle.step_attempt.specs.Going.{state_at};

use crate::able::{NO_NAME, any_step, next_able};
use crate::glide::glide;
use crate::taking::{Went, take};
use jvm_base::{NoMemory, Uncaught, Units};
use machine_state::{Choice, End, Mode, Reason, Wish};
use program_image::Image;
use program_reads::{Tables, boot};
use shared_state::{Opening, Shared, Thread};
use std::alloc::Global;
use std::marker::Model;
use step_attempt::Site;
use step_serve::Blanks;
use thiserror::Error;

/// Why a choice wasn't taken. The machine is as it was.
#[derive(Clone, Copy, Debug, PartialEq, Eq, Error)]
pub enum StepErr {
    #[error("{0}")]
    NotEnabled(Reason),
    #[error("want of memory")]
    NoMemory,
}

/// A machine of a whole program. All its threads and objects lie in one heap.
#[derive(Drop)]
pub struct Machine {
    shared: Shared,
    threads: Vec<Thread>,
    tables: Tables,
    blanks: Blanks,
}

impl Model for Machine {
    ghost use Rattle.one_machine.specs.Ready.{Machine as Kept};
    ghost use Rattle.shared_state.specs.Parts.{state_of};

    ghost Value = { Kept };

    ghost view = { λ a. record {
      state = state_of a.shared a.threads.items;
      tables = a.tables;
      blanks = a.blanks;
    } };
}

/// What the program says of the objects that are there before the first step.
fn opening(
    alloc: Global,
    image: &Image,
    tables: &Tables,
    blanks: &Blanks,
) -> Result<Opening, NoMemory>
    requires kept { IsKept image.now tables.now }
    requires blanks { AreBlanks image.now blanks.now }
    ensures { IfOk result (λ o. IsOpening image.now o) }
{
    Ok(Opening {
        array: tables.arguments(),
        stream: blanks.zeros(alloc, image, boot::PRINT_STREAM)?,
        thread: blanks.zeros(alloc, image, boot::THREAD)?,
    })
}

/// Whether a choice picks nobody and names nothing.
fn is_quiet(choice: Choice) -> bool
    ensures { result ≡ true → any_choice choice.thread ≡ choice }
{
    choice.pick == 0 && choice.name == NO_NAME
}

/// Whether all threads have ended.
fn all_ended(threads: &[Thread]) -> bool
    ensures { result ≡ list_all (λ th. is_ended th.mode) (map thread_state threads.now) }
{
    for thread in threads {
        if !matches!(thread.mode, Mode::Ended) {
            return false;
        }
    }
    true
}

impl Machine {
    /// The machine before its first step, which calls `main` with the arguments.
    pub fn new(alloc: Global, image: &Image, args: &[Units]) -> Result<Machine, NoMemory>
        requires { CanRun image.now }
        ensures start { IfOk result (λ machine. machine.state ≡ start image.now args.now) }
        ensures ready { IfOk result (λ machine. IsReady image.now machine) }
    {
        let tables = Tables::new(alloc, image)?;
        let blanks = Blanks::new(alloc, image)?;
        let opening = opening(alloc, image, &tables, &blanks)?;
        let (shared, threads) = Shared::new(alloc, image, args, opening)?;
        Ok(Machine {
            shared,
            threads,
            tables,
            blanks,
        })
    }

    /// Takes the step that is wished; with so many threads at most, none further is started.
    fn take(
        &mut self,
        alloc: Global,
        image: &Image,
        wish: Wish,
        most: Option<u32>,
    ) -> Result<Went, NoMemory>
        requires { IsReady image.now self.old }
        ensures went { IfOk result
            (λ went. IsWent image.now self.old.state wish most went self.new.state) }
        ensures err { OnErr result (self.new ≡ self.old) }
        ensures ready { IsReady image.now self.new }
        ensures tables { self.new.tables ≡ self.old.tables }
        ensures blanks { self.new.blanks ≡ self.old.blanks }
    {
        take(
            alloc,
            image,
            &self.tables,
            &self.blanks,
            &mut self.shared,
            &mut self.threads,
            wish,
            most,
        )
    }

    /// Takes steps of a thread in a row that touch its frame alone: up to so many, and until the
    /// thread has taken so many in all. It stops before the first step that does more, and answers
    /// how many it took. The choice of each picks nobody and names nothing.
    pub fn glide(&mut self, image: &Image, thread: u32, most: u64, limit: u64) -> u64
        requires { IsReady image.now self.old }
        ensures glides { Glides image.now self.old.state thread most limit result self.new.state }
        ensures few { result ≤ most }
        ensures ready { IsReady image.now self.new }
        ensures tables { self.new.tables ≡ self.old.tables }
        ensures blanks { self.new.blanks ≡ self.old.blanks }
    {
        glide(image, &mut self.threads, thread, most, limit)
    }

    /// Takes the step of a choice, if it touches its thread's frame alone. Else the machine is as
    /// before.
    fn step_in_place(&mut self, image: &Image, choice: Choice) -> bool
        requires { IsReady image.now self.old }
        ensures stepped { result ≡ true
            → step image.now self.old.state choice ≡ Some self.new.state }
        ensures kept { result ≡ false → self.new ≡ self.old }
        ensures ready { IsReady image.now self.new }
    {
        if !is_quiet(choice) {
            return false;
        }
        self.glide(image, choice.thread, 1, u64::MAX) == 1
    }

    /// Takes the step of a choice, or says the first reason why it is none.
    pub fn step(&mut self, alloc: Global, image: &Image, choice: Choice) -> Result<(), StepErr>
        requires { IsReady image.now self.old }
        ensures ok { OnOk result (step image.now self.old.state choice ≡ Some self.new.state) }
        ensures refused { IfErr result (λ e. IsReason (reason image.now self.old.state choice) e) }
        ensures err { OnErr result (self.new ≡ self.old) }
        ensures ready { IsReady image.now self.new }
    {
        if self.step_in_place(image, choice) {
            return Ok(());
        }
        match self.take(alloc, image, Wish::Exactly(choice), None) {
            Ok(Went::Steps(_)) => Ok(()),
            Ok(Went::Refused(reason)) => Err(StepErr::NotEnabled(reason)),
            Ok(Went::Full) => unreachable!(),
            Err(NoMemory) => Err(StepErr::NoMemory),
        }
    }

    /// Takes the next step of a thread, if there is one: a notify picks the first waiter, and what is
    /// made has names of node 0 with indices from this one on. With so many threads as may be, none
    /// further is started.
    pub fn advance(
        &mut self,
        alloc: Global,
        image: &Image,
        thread: u32,
        index: u32,
        most: u32,
    ) -> Result<Went, NoMemory>
        requires { IsReady image.now self.old }
        ensures went { IfOk result (λ went. IsWent image.now self.old.state
            (Fresh thread 0 index) (Some most) went self.new.state) }
        ensures err { OnErr result (self.new ≡ self.old) }
        ensures ready { IsReady image.now self.new }
    {
        let wish = Wish::Fresh {
            thread,
            node: 0,
            index,
        };
        self.take(alloc, image, wish, Some(most))
    }

    /// The machine as its steps look at it. Which choice is wished is of no account.
    fn site<'a>(&'a self, image: &'a Image) -> Site<'a>
        requires { IsReady image.now self.now }
        ensures state { state_at result ≡ self.now.state }
        ensures image { result.image.now ≡ image.now }
        ensures ready { IsReady image.now (machine_at result) }
    {
        Site {
            image,
            tables: &self.tables,
            blanks: &self.blanks,
            shared: &self.shared,
            threads: &self.threads,
            wish: any_step(0),
        }
    }

    /// A thread that can take a step: the first from a number on, or else the first of all; `None`
    /// exactly where none can.
    pub fn next_able(
        &self,
        alloc: Global,
        image: &Image,
        from: u32,
    ) -> Result<Option<u32>, NoMemory>
        requires { IsReady image.now self.now }
        ensures able { IfOk result (IsAble image.now self.now.state 0) }
        ensures next { IfOk result (IsNext image.now self.now.state from) }
    {
        next_able(alloc, &self.site(image), from)
    }

    /// Whether all threads have ended.
    pub fn all_ended(&self) -> bool
        ensures { result ≡ list_all (λ th. is_ended th.mode) self.now.state.threads }
    {
        all_ended(&self.threads)
    }

    /// How the machine stands: all threads have ended, one can step, or none can.
    #[tactic(auto, unfolding(machine_state::specs::Runs::end_of))]
    pub fn end_of(&self, alloc: Global, image: &Image) -> Result<End, NoMemory>
        requires { IsReady image.now self.now }
        ensures { IfOk result (λ end. end ≡ end_of image.now self.now.state) }
    {
        if self.all_ended() {
            return Ok(End::AllEnded);
        }
        Ok(match self.next_able(alloc, image, 0)? {
            Some(_) => End::Going,
            None => End::Dead,
        })
    }

    /// The bytes that were written.
    pub fn output(&self) -> &[u8]
        ensures { result.now ≡ self.now.state.output }
    {
        self.shared.output()
    }

    /// The exceptions that nothing caught, in order.
    pub fn uncaught(&self) -> &[Uncaught]
        ensures { result.now ≡ self.now.state.uncaught }
    {
        self.shared.uncaught()
    }

    /// How many threads were made.
    pub fn threads(&self) -> usize
        ensures { result ≡ length self.now.state.threads }
    {
        self.threads.len()
    }

    /// Whether the thread of a number has ended, and how many steps it took; `None` exactly where there is
    /// none.
    pub fn thread(&self, thread: usize) -> Option<(bool, u64)>
        ensures { result ≡ option_map (λ th. (is_ended th.mode, th.steps))
            (slice_get self.now.state.threads thread) }
    {
        let it = self.threads.get(thread)?;
        Some((matches!(it.mode, Mode::Ended), it.steps))
    }
}
