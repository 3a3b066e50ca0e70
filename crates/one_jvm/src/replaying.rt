//! An order taken again on the one machine.

ghost use Rattle.std.specs.Prelude.{◌≡◌, ◌≤◌, ℕ, List, length, Some};
ghost use Rattle.cjvm_io.specs.Sinks.{shown};
ghost use Rattle.one_machine.specs.Ready.{CanRun};
ghost use Rattle.one_jvm.specs.Answers.{ComesFirst};
ghost use Rattle.one_jvm.specs.Steps.Loading.{replay_of};
ghost use Rattle.one_jvm.specs.Steps.Parts.{asked_by};
ghost use Rattle.one_jvm.specs.Steps.ReplaySteps.{ending_at, tape, IsEndTold, IsEndFor, refusal_by, TapeComesTo, ReplayComesTo};

use crate::ending::ending_text;
use crate::outcome::{Refusal, Stop};
use crate::running::Broken;
use crate::words::Request;
use cjvm_io::{Sink, write_all};
use jvm_base::{NoMemory, Units};
use machine_state::Order;
use order_replay::{Ending, Replay};
use order_text::{OrderErr, read_order};
use program_image::Image;
use std::alloc::Global;

/// A replay so far, and how much of its output was written.
#[derive(Drop)]
struct Takes {
    replay: Replay,
    written: usize,
}

/// What a replay comes to: how it ended, where all steps were taken and no more could be; why it is
/// refused, where it is; and what its end tells.
#[derive(Drop)]
pub(crate) struct ReplayEnd {
    pub(crate) end: Option<Stop>,
    pub(crate) refusal: Option<Refusal>,
    pub(crate) text: Vec<u8>,
}

/// A replay that is refused.
fn refused(alloc: Global, refusal: Refusal) -> ReplayEnd
    ensures { result.refusal ≡ Some refusal }
{
    ReplayEnd {
        end: None,
        refusal: Some(refusal),
        text: Vec::new(alloc),
    }
}

/// The refusal of a replay that a fault cut off.
fn refusal_by(broken: Broken) -> Refusal
    ensures { result ≡ refusal_by broken }
{
    match broken {
        Broken::WriteFault => Refusal::WriteFault,
        Broken::NoMemory => Refusal::NoMemory,
    }
}

/// A replay that came to this end.
fn ended(alloc: Global, image: &Image, replay: &Replay, stop: Stop) -> ReplayEnd
    ensures { IsEndTold image.now replay.now.machine.state.uncaught stop result.end result.refusal
        result.text.items }
{
    match ending_text(alloc, image, stop, replay.uncaught()) {
        Ok(text) => ReplayEnd {
            end: Some(stop),
            refusal: None,
            text,
        },
        Err(_) => refused(alloc, Refusal::NoMemory),
    }
}

/// A replay that goes no further.
fn end_of(alloc: Global, image: &Image, replay: &Replay, ending: Ending) -> ReplayEnd
    ensures { IsEndFor image.now replay.now.machine.state.uncaught ending result.end result.refusal
        result.text.items }
{
    match ending {
        Ending::Done => ended(alloc, image, replay, Stop::Done),
        Ending::Uncaught => ended(alloc, image, replay, Stop::Uncaught),
        Ending::Deadlock => ended(alloc, image, replay, Stop::Deadlock),
        Ending::Early => refused(alloc, Refusal::EarlyOrder),
        Ending::NotEnabled { step } => refused(alloc, Refusal::NotEnabled(step)),
    }
}

/// What came of steps: an end, none, or want of memory.
fn ending_at(end: Result<Option<Ending>, NoMemory>) -> Result<Option<Ending>, Broken>
    ensures { result ≡ ending_at end }
{
    match end {
        Ok(end) => Ok(end),
        Err(_) => Err(Broken::NoMemory),
    }
}

impl Takes {
    ghost use Rattle.one_machine.specs.Ready.{IsReady};
    ghost use Rattle.one_jvm.specs.Steps.ReplaySteps.{IsTakesOf, Turned};

    /// Takes steps, and writes what they printed, whatever the program's arguments were. That is
    /// written too where memory runs out.
    fn turn<O: Sink>(
        &mut self,
        alloc: Global,
        image: &Image,
        order: &Order,
        out: &mut O,
    ) -> Result<Option<Ending>, Broken>
        requires ready { IsReady image.now self.old.replay.machine }
        requires few { self.old.replay.taken ≤ length order.now }
        requires written { self.old.written ≡ length self.old.replay.machine.state.output }
        ensures turned { (args : List (List ℕ)) → IsTakesOf (tape image.now args order.now) self.old
            → Turned (tape image.now args order.now) self.old self.new
            (shown O.held O.faults out.old) (shown O.held O.faults out.new) result }
        ensures later { O.faults out.old ≤ O.faults out.new }
    {
        let end = self.replay.burst(alloc, image, order);
        let output = self.replay.output();
        match write_all(out, &output[self.written..]) {
            Ok(()) => {
                self.written = output.len();
                ending_at(end)
            }
            Err(_) => Err(Broken::WriteFault),
        }
    }
}

/// Takes the steps of an order as far as they are enabled, and writes their output meanwhile.
fn take_order<O: Sink>(
    alloc: Global,
    image: &Image,
    args: &[Units],
    order: &Order,
    out: &mut O,
) -> ReplayEnd
    requires { CanRun image.now }
    ensures came { TapeComesTo (tape image.now args.now order.now) (shown O.held O.faults out.old)
        (shown O.held O.faults out.new) result.end result.refusal result.text.items }
    ensures later { O.faults out.old ≤ O.faults out.new }
{
    let Ok(replay) = Replay::new(alloc, image, args) else {
        return refused(alloc, Refusal::NoMemory);
    };
    let mut takes = Takes { replay, written: 0 };
    'takes: loop {
        match takes.turn(alloc, image, order, out) {
            Ok(None) => {}
            Ok(Some(ending)) => return end_of(alloc, image, &takes.replay, ending),
            Err(broken) => return refused(alloc, refusal_by(broken)),
        }
    }
}

/// Takes the order of this text as the words ask: what it prints is written as far as its steps are
/// enabled.
pub(crate) fn replay<O: Sink>(
    alloc: Global,
    image: &Image,
    request: &Request<'_>,
    text: &[u8],
    out: &mut O,
) -> ReplayEnd
    requires { CanRun image.now }
    ensures came { ReplayComesTo (replay_of image.now (asked_by request.now) text.now)
        (shown O.held O.faults out.old) (shown O.held O.faults out.new) result.end result.refusal
        result.text.items }
    ensures unwritten { ComesFirst result.refusal → out.new ≡ out.old }
    ensures later { O.faults out.old ≤ O.faults out.new }
{
    match read_order(alloc, text) {
        Ok(order) => take_order(alloc, image, request.strings(), &order, out),
        Err(OrderErr::BadOrder { line }) => refused(alloc, Refusal::BadOrder(line)),
        Err(OrderErr::NoMemory) => refused(alloc, Refusal::NoMemory),
    }
}
