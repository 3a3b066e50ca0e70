//! The steps of an order on the one machine.

ghost use Rattle.std.specs.Prelude.{◌≡◌, ◌≤◌, ◌+◌, length, slice_get, Some, IfOk, MatchOption};
ghost use Rattle.machine_state.specs.Start.{start};
ghost use Rattle.one_machine.specs.Ready.{CanRun, IsReady};
ghost use Rattle.order_replay.specs.Replaying.{StandsAs, TakesOn, IsTaken};

use jvm_base::{NoMemory, Uncaught, Units};
use machine_state::{Choice, End, Order};
use one_machine::{Machine, StepErr};
use program_image::Image;
use std::alloc::Global;
use std::marker::Model;

/// How many steps are taken before what was printed may be written.
const BURST: u32 = 4096;

/// How the taking of an order ended: all its steps were taken, and all threads have ended, with or
/// without exceptions that nothing caught; or none of those that haven't ended can take a step; or
/// one can, so that the order ended early; or a step, counted from 1, couldn't be taken.
#[derive(Clone, Copy, Debug, PartialEq, Eq)]
pub enum Ending {
    Done,
    Uncaught,
    Deadlock,
    Early,
    NotEnabled { step: u64 },
}

/// An order's steps so far. The order is the caller's, and stays the same from burst to burst; `row` is
/// where its next choice is looked for first.
#[derive(Drop)]
pub struct Replay {
    machine: Machine,
    taken: u64,
    row: usize,
}

impl Model for Replay {
    ghost use Rattle.order_replay.specs.Replaying.{Replay as Kept};

    ghost Value = { Kept };

    ghost view = { λ a. record { machine = a.machine; taken = a.taken } };
}

/// The number of the step after those that were taken, counted from 1, and its choice; `None`
/// exactly where all were taken.
fn next_step(order: &Order, taken: u64, row: &mut usize) -> Option<(u64, Choice)>
    requires { taken ≤ length order.now }
    ensures { MatchOption result (taken ≡ length order.now)
        (λ next. (next.0 ≡ taken + 1) × (slice_get order.now taken ≡ Some next.1)) }
{
    if taken >= order.len() {
        return None;
    }
    Some((taken + 1, order.get_near(taken, row)?))
}

/// How a machine stands that has taken all steps.
fn ending_of(alloc: Global, image: &Image, machine: &Machine) -> Result<Ending, NoMemory>
    requires { IsReady image.now machine.now }
    ensures { IfOk result (StandsAs image.now machine.now.state) }
{
    Ok(match machine.end_of(alloc, image)? {
        End::AllEnded => {
            if machine.uncaught().is_empty() {
                Ending::Done
            } else {
                Ending::Uncaught
            }
        }
        End::Dead => Ending::Deadlock,
        End::Going => Ending::Early,
    })
}

impl Replay {
    /// A program before its first step, with its arguments.
    pub fn new(alloc: Global, image: &Image, args: &[Units]) -> Result<Replay, NoMemory>
        requires { CanRun image.now }
        ensures ready { IfOk result (λ r. IsReady image.now r.machine) }
        ensures start { IfOk result (λ r. r.machine.state ≡ start image.now args.now) }
        ensures taken { IfOk result (λ r. r.taken ≡ 0) }
    {
        Ok(Replay {
            machine: Machine::new(alloc, image, args)?,
            taken: 0,
            row: 0,
        })
    }

    /// Takes the next step of the order; `Some` where there is none, or where it can't be taken.
    fn step(
        &mut self,
        alloc: Global,
        image: &Image,
        order: &Order,
    ) -> Result<Option<Ending>, NoMemory>
        requires ready { IsReady image.now self.old.machine }
        requires few { self.old.taken ≤ length order.now }
        ensures ready { IsReady image.now self.new.machine }
        ensures later { TakesOn image.now order.now self.old self.new }
        ensures turn { IfOk result (IsTaken image.now order.now self.old self.new) }
    {
        let Some((step, choice)) = next_step(order, self.taken, &mut self.row) else {
            return Ok(Some(ending_of(alloc, image, &self.machine)?));
        };
        match self.machine.step(alloc, image, choice) {
            Ok(()) => {
                self.taken = step;
                Ok(None)
            }
            Err(StepErr::NotEnabled(_)) => Ok(Some(Ending::NotEnabled { step })),
            Err(StepErr::NoMemory) => Err(NoMemory),
        }
    }

    /// Takes steps of the order from where it stands, up to 4,096; `Some` where the replay is at
    /// its end. Where memory runs out it stands as after the last step that was taken.
    pub fn burst(
        &mut self,
        alloc: Global,
        image: &Image,
        order: &Order,
    ) -> Result<Option<Ending>, NoMemory>
        requires ready { IsReady image.now self.old.machine }
        requires few { self.old.taken ≤ length order.now }
        ensures ready { IsReady image.now self.new.machine }
        ensures later { TakesOn image.now order.now self.old self.new }
        ensures turn { IfOk result (IsTaken image.now order.now self.old self.new) }
    {
        for _ in 0..BURST {
            if let Some(ending) = self.step(alloc, image, order)? {
                return Ok(Some(ending));
            }
        }
        Ok(None)
    }

    /// The bytes that were written so far.
    pub fn output(&self) -> &[u8]
        ensures { result.now ≡ self.now.machine.state.output }
    {
        self.machine.output()
    }

    /// The exceptions that nothing caught so far, in order.
    pub fn uncaught(&self) -> &[Uncaught]
        ensures { result.now ≡ self.now.machine.state.uncaught }
    {
        self.machine.uncaught()
    }
}
