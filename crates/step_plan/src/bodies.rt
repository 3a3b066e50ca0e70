//! What the instruction of a frame comes to (JVMS2 6).

ghost use Rattle.std.specs.Prelude.{◌≡◌, ◌<◌, length, Option, Some, IfOk};
ghost use Rattle.jvm_base.specs.declared.frame.Frame.{Frame as Called};
ghost use Rattle.jvm_base.specs.declared.frame.Phase.TheVariants as phase;
ghost use Rattle.program_image.specs.Program.{Program as Linked, target_of};
ghost use Rattle.program_image.specs.Words.{instruction_at};
ghost use Rattle.machine_state.specs.Instructions.{given_fits, given_to, fault_class, returns, instruction_plan};
ghost use Rattle.machine_state.specs.Plan.{body_plan, frame_plan};
ghost use Rattle.program_reads.specs.Kept.{IsKept};
ghost use Rattle.program_reads.specs.Whole.{IsWhole};
ghost use Rattle.step_plan.specs.Condition.{CanPlanAt, CanPlanIn};
ghost use Rattle.step_plan.specs.Depth.{who_at};
ghost use Rattle.step_plan.specs.Shown.{shown, shown_next};
ghost use Rattle.step_plan.specs.Ways.{GoesBy};

use crate::calls::call_plan;
use crate::fields::shared_plan;
use crate::lookups::{class_named, constant_named};
use crate::plan::{Next, Plan, fault, plain};
use crate::site::Site;
use crate::who::Texts;
use code_table::{Op, Placed};
use frame_ops::{Fault, Given, Pure, answer_at};
use jvm_base::{Frame, Name, NoMemory, Phase, Value};
use machine_state::Request;
use program_image::Image;
use program_reads::{boot, instruction_at, is_sub};
use std::alloc::Global;

/// Whether the newest operand is of the class that is named.
fn given_fits(image: &Image, frame: &Frame) -> Given
    requires here { frame.now.method < length image.now.methods }
    requires whole { IsWhole image.now }
    ensures { result ≡ given_fits image.now (target_of image.now frame.now.method frame.now.at)
        frame.now.stack.values }
{
    match frame.stack.get(0) {
        Some(Value::Ref(object)) => {
            Given::Fits(is_sub(image, object.class, class_named(image, frame)))
        }
        _ => Given::Nothing,
    }
}

/// What the program tells the instruction of a frame.
pub fn given_to(image: &Image, frame: &Frame, op: &Op) -> Given
    requires here { frame.now.method < length image.now.methods }
    requires whole { IsWhole image.now }
    ensures { result ≡ given_to image.now op.now (target_of image.now frame.now.method frame.now.at)
        frame.now.stack.values }
{
    match op {
        Op::Ldc(_) | Op::Ldc2(_) => Given::Constant(constant_named(image, frame)),
        Op::Cast { .. } => given_fits(image, frame),
        _ => Given::Nothing,
    }
}

/// The class of a fault.
fn fault_class(kind: Fault) -> u32
    ensures { result ≡ fault_class kind }
{
    match kind {
        Fault::Arithmetic => boot::ARITHMETIC,
        Fault::NullPointer => boot::NULL_POINTER,
        Fault::ClassCast => boot::CLASS_CAST,
        Fault::NegativeSize => boot::NEGATIVE_SIZE,
    }
}

/// A return; that of a synchronized method leaves its lock first.
fn returns(lock: Option<Name>, value: Option<Value>) -> Next
    ensures { (p : Linked) (f : Option Called) → shown_next p f result ≡ returns lock value }
{
    match lock {
        Some(lock) => Next::Needs(Request::Exit(lock, false)),
        None => Next::Leaves(value),
    }
}

/// What an instruction in its place comes to.
#[tactic(auto, using(crate::proofs::Answering::by_move_is))]
fn instruction_plan<T: Texts>(
    alloc: Global,
    site: &Site<'_>,
    texts: &T,
    frame: &Frame,
    placed: &Placed,
) -> Result<Plan, NoMemory>
    requires kept { IsKept site.now.image.now site.now.tables.now }
    requires within { frame.now.method < length site.now.image.now.methods }
    requires here { instruction_at site.now.image.now frame.now.method frame.now.at
        ≡ Some placed.now }
    requires can { CanPlanAt site.now.image.now frame.now placed.now }
    ensures plan { IfOk result
        (λ r. shown site.now.image.now (Some frame.now) r
        ≡ instruction_plan site.now.image.now (who_at site.now (T.known texts.now)) frame.now
        placed.now (target_of site.now.image.now frame.now.method frame.now.at)) }
    ensures goes { IfOk result (λ r. GoesBy site.now.image.now (Some frame.now) r.next) }
{
    let given = given_to(site.image, frame, &placed.op);
    match answer_at(placed, frame, given) {
        Pure::Next => Ok(plain(Next::Moves(given))),
        Pure::Raise(kind) => Ok(plain(fault(fault_class(kind)))),
        Pure::Throw(exception) => Ok(plain(Next::Throws(exception))),
        Pure::Heap => shared_plan(alloc, site, frame, &placed.op),
        Pure::Call => call_plan(alloc, site, texts, frame, &placed.op),
        Pure::Leave(value) => Ok(plain(returns(frame.lock, value))),
    }
}

/// In the code of a method, the instruction.
fn body_plan<T: Texts>(
    alloc: Global,
    site: &Site<'_>,
    texts: &T,
    frame: &Frame,
) -> Result<Plan, NoMemory>
    requires kept { IsKept site.now.image.now site.now.tables.now }
    requires body { frame.now.phase ≡ phase.Body }
    requires can { CanPlanIn site.now.image.now frame.now }
    ensures plan { IfOk result
        (λ r. shown site.now.image.now (Some frame.now) r
        ≡ body_plan site.now.image.now (who_at site.now (T.known texts.now)) frame.now) }
    ensures goes { IfOk result (λ r. GoesBy site.now.image.now (Some frame.now) r.next) }
{
    match instruction_at(site.image, frame.method, frame.at) {
        Some(placed) => instruction_plan(alloc, site, texts, frame, placed),
        None => Ok(plain(Next::Stuck)),
    }
}

/// A frame, by its phase.
pub(crate) fn frame_plan<T: Texts>(
    alloc: Global,
    site: &Site<'_>,
    texts: &T,
    frame: &Frame,
) -> Result<Plan, NoMemory>
    requires kept { IsKept site.now.image.now site.now.tables.now }
    requires can { CanPlanIn site.now.image.now frame.now }
    ensures plan { IfOk result
        (λ r. shown site.now.image.now (Some frame.now) r
        ≡ frame_plan site.now.image.now (who_at site.now (T.known texts.now)) frame.now
        frame.now.phase frame.now.lock) }
    ensures goes { IfOk result (λ r. GoesBy site.now.image.now (Some frame.now) r.next) }
{
    match (frame.phase, frame.lock) {
        (Phase::Lock, Some(lock)) => Ok(plain(Next::Needs(Request::Enter(lock)))),
        (Phase::Lock, None) => Ok(plain(Next::Stuck)),
        (Phase::Body, _) => body_plan(alloc, site, texts, frame),
        (Phase::Unlock(value), _) => Ok(plain(Next::Leaves(value))),
    }
}
