//! A run of a program on the one machine.

ghost use Rattle.std.specs.Prelude.{◌≡◌, ◌≤◌, ℕ, List, [], length, IfOk};
ghost use Rattle.std.specs.Result.{IsOk};
ghost use Rattle.one_machine.specs.Ready.{CanRun};
ghost use Rattle.cjvm_io.specs.Sinks.{shown};
ghost use Rattle.one_jvm.specs.Outcomes.{ending_text};
ghost use Rattle.one_jvm.specs.Runs.{RanTo, job_of};
ghost use Rattle.one_jvm.specs.Steps.Parts.{asked_by};
ghost use Rattle.one_jvm.specs.Steps.RunSteps.{stop_at, stop_of, TellsWhole};

use crate::ending::ending_text;
use crate::outcome::Stop;
use crate::words::Request;
use cjvm_io::{Sink, write_all};
use jvm_base::NoMemory;
use machine_state::Order;
use program_image::Image;
use scheduler::{Run, Stop as End};
use std::alloc::Global;
use thiserror::Error;

/// So long an order is not gone on with.
const ORDER_LIMIT: u64 = 4_294_967_296;

/// Why a run goes no further.
#[derive(Clone, Copy, Debug, PartialEq, Eq, Error)]
pub(crate) enum Broken {
    #[error("write fault")]
    WriteFault,
    #[error("want of memory")]
    NoMemory,
}

/// A run so far, and how much of its output was written.
#[derive(Drop)]
struct Turns {
    run: Run,
    written: usize,
}

/// The end of a run in this crate's words.
fn stop_of(end: End) -> Stop
    ensures { result ≡ stop_of end }
{
    match end {
        End::Done => Stop::Done,
        End::Uncaught => Stop::Uncaught,
        End::StepLimit { thread } => Stop::StepLimit { thread },
        End::Deadlock => Stop::Deadlock,
        End::ThreadsFull { thread } => Stop::ThreadsFull { thread },
    }
}

/// What came of steps: an end in this crate's words, none, or want of memory.
fn stop_at(end: Result<Option<End>, NoMemory>) -> Result<Option<Stop>, Broken>
    ensures { result ≡ stop_at end }
{
    match end {
        Ok(Some(end)) => Ok(Some(stop_of(end))),
        Ok(None) => Ok(None),
        Err(_) => Err(Broken::NoMemory),
    }
}

/// What a run left: the order of its steps, how it ended, and what that tells, unless memory ran out
/// for it.
#[derive(Drop)]
pub(crate) struct RunEnd {
    pub(crate) order: Order,
    pub(crate) stop: Stop,
    pub(crate) text: Result<Vec<u8>, NoMemory>,
}

/// A run that a fault cut off.
fn cut_off(alloc: Global, order: Order, stop: Stop) -> RunEnd
    ensures order { result.order ≡ order }
    ensures stop { result.stop ≡ stop }
    ensures text { IsOk result.text }
{
    RunEnd {
        order,
        stop,
        text: Ok(Vec::new(alloc)),
    }
}

/// A run that came to its end.
fn end_run(alloc: Global, image: &Image, run: Run, stop: Stop) -> RunEnd
    ensures order { result.order ≡ run.order }
    ensures stop { result.stop ≡ stop }
    ensures told { IfOk result.text
        (λ v. v.items ≡ ending_text image.now stop run.machine.state.uncaught) }
    ensures quiet { stop ≡ Stop.Done → run.machine.state.uncaught ≡ [] → IsOk result.text }
{
    let text = ending_text(alloc, image, stop, run.uncaught());
    RunEnd {
        order: run.into_order(),
        stop,
        text,
    }
}

impl Turns {
    ghost use Rattle.scheduler.specs.Running.{IsRun};
    ghost use Rattle.one_jvm.specs.Runs.{job};
    ghost use Rattle.one_jvm.specs.Steps.RunSteps.{IsRunOf, Turned};

    /// Takes steps, and writes what they printed, whatever the program's arguments were. That is
    /// written too where memory runs out.
    fn turn<O: Sink>(
        &mut self,
        alloc: Global,
        image: &Image,
        out: &mut O,
    ) -> Result<Option<Stop>, Broken>
        requires run { IsRun image.now self.old.run }
        requires written { self.old.written ≡ length self.old.run.machine.state.output }
        ensures turned { (args : List (List ℕ)) (steps : ℕ)
            → IsRunOf (job image.now args steps) self.old
            → Turned (job image.now args steps) self.old self.new (shown O.held O.faults out.old)
            (shown O.held O.faults out.new) result }
        ensures later { O.faults out.old ≤ O.faults out.new }
    {
        let end = self.run.burst(alloc, image);
        let output = self.run.output();
        match write_all(out, &output[self.written..]) {
            Ok(()) => {
                self.written = output.len();
                stop_at(end)
            }
            Err(_) => Err(Broken::WriteFault),
        }
    }
}

/// Runs a program to its end, as it is asked, and writes its output while it runs.
pub(crate) fn run_program<O: Sink>(
    alloc: Global,
    image: &Image,
    request: &Request<'_>,
    out: &mut O,
) -> RunEnd
    requires { CanRun image.now }
    ensures ran { RanTo (job_of image.now (asked_by request.now)) result.order
        (shown O.held O.faults out.old) (shown O.held O.faults out.new) result.stop }
    ensures told { TellsWhole (job_of image.now (asked_by request.now)) result.order result.stop
        result.text }
    ensures quiet { result.stop ≡ Stop.Done → IsOk result.text }
    ensures later { O.faults out.old ≤ O.faults out.new }
{
    let Ok(run) = Run::new(alloc, image, request.strings(), request.steps()) else {
        return cut_off(alloc, Order::new(alloc), Stop::NoMemory);
    };
    let mut turns = Turns { run, written: 0 };
    'turns: while turns.run.order().len() < ORDER_LIMIT {
        match turns.turn(alloc, image, out) {
            Ok(None) => {}
            Ok(Some(stop)) => return end_run(alloc, image, turns.run, stop),
            Err(Broken::WriteFault) => {
                return cut_off(alloc, turns.run.into_order(), Stop::WriteFault);
            }
            Err(Broken::NoMemory) => {
                return cut_off(alloc, turns.run.into_order(), Stop::NoMemory);
            }
        }
    }
    cut_off(alloc, turns.run.into_order(), Stop::NoMemory)
}
