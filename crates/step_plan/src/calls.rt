//! Calls: which method runs, and what a call of it does (JVMS2 6).

ghost use Rattle.std.specs.Prelude.{◌≡◌, ◌<◌, ◌≤◌, length, Some, IfOk};
ghost use Rattle.program_image.specs.Program.{target_of};
ghost use Rattle.frame_ops.specs.Stepping.{HasFewArguments, call_values};
ghost use Rattle.machine_state.specs.Calls.{runs_method, runs_selected, special_call, selected_call, receiver_call};
ghost use Rattle.machine_state.specs.Instructions.{call_plan};
ghost use Rattle.program_reads.specs.Whole.{IsWhole};
ghost use Rattle.step_plan.specs.Condition.{HasOperands};
ghost use Rattle.step_plan.specs.Depth.{who_at};
ghost use Rattle.step_plan.specs.Shown.{shown, shown_next};
ghost use Rattle.step_plan.specs.Ways.{IsNoMove, IsOfCall};

use crate::intrinsics::calls_intrinsic;
use crate::lookups::{is_direct, method_named};
use crate::plan::{Next, Plan, asking, fault, plain};
use crate::site::{Site, calls};
use crate::values::call_values;
use crate::who::Texts;
use code_table::{Op, opcode};
use frame_ops::call_count;
use instruction_table::{is_initialiser, owner_of};
use jvm_base::{Frame, Name, NoMemory, Value};
use program_image::{Body, Selected};
use program_reads::{boot, select, super_of};
use std::alloc::Global;

/// A call of the method of a number, with so many values.
#[tactic(auto, using(crate::proofs::Going::called_still))]
fn runs_method<T: Texts>(
    alloc: Global,
    site: &Site<'_>,
    texts: &T,
    frame: &Frame,
    count: u32,
    method: u32,
) -> Result<Next, NoMemory>
    requires enough { count ≤ length frame.now.stack.values }
    ensures next { IfOk result
        (λ r. shown_next site.now.image.now (Some frame.now) r
        ≡ runs_method site.now.image.now (who_at site.now (T.known texts.now)) frame.now method
        (call_values count frame.now.stack.values)) }
    ensures still { IfOk result (λ r. IsNoMove r) }
{
    if method >= site.image.methods() {
        return Ok(fault(boot::ABSTRACT_METHOD));
    }
    match &site.image.method(method).body {
        Body::Code(_) => Ok(calls(site, method, call_values(alloc, &frame.stack, count)?)),
        Body::Intrinsic(number) => calls_intrinsic(alloc, site, texts, frame, count, *number),
        Body::Abstract => Ok(fault(boot::ABSTRACT_METHOD)),
    }
}

/// A call of what was selected.
fn runs_selected<T: Texts>(
    alloc: Global,
    site: &Site<'_>,
    texts: &T,
    frame: &Frame,
    count: u32,
    selected: Selected,
) -> Result<Next, NoMemory>
    requires enough { count ≤ length frame.now.stack.values }
    ensures next { IfOk result
        (λ r. shown_next site.now.image.now (Some frame.now) r
        ≡ runs_selected site.now.image.now (who_at site.now (T.known texts.now)) frame.now
        (call_values count frame.now.stack.values) selected) }
    ensures still { IfOk result (λ r. IsNoMove r) }
{
    match selected {
        Selected::Found(method) => runs_method(alloc, site, texts, frame, count, method),
        Selected::NoBody => Ok(fault(boot::ABSTRACT_METHOD)),
        Selected::NoInterface => Ok(fault(boot::CLASS_CHANGE)),
        Selected::NotPublic => Ok(fault(boot::ILLEGAL_ACCESS)),
    }
}

/// `invokespecial` runs the method itself, or what a search from the direct superclass selects.
fn special_call<T: Texts>(
    alloc: Global,
    site: &Site<'_>,
    texts: &T,
    frame: &Frame,
    count: u32,
    method: u32,
) -> Result<Next, NoMemory>
    requires enough { count ≤ length frame.now.stack.values }
    requires named { method < length site.now.image.now.methods }
    ensures next { IfOk result
        (λ r. shown_next site.now.image.now (Some frame.now) r
        ≡ special_call site.now.image.now (who_at site.now (T.known texts.now)) frame.now method
        (call_values count frame.now.stack.values)) }
    ensures still { IfOk result (λ r. IsNoMove r) }
{
    let current = owner_of(site.image, frame.method);
    if is_initialiser(site.image, method) || is_direct(site.image, current, method) {
        return runs_method(alloc, site, texts, frame, count, method);
    }
    let selected = match super_of(site.image, current) {
        Some(class) => select(site.image, class, method, false),
        None => Selected::NoBody,
    };
    runs_selected(alloc, site, texts, frame, count, selected)
}

/// The other calls run what a search from the receiver's class selects.
fn selected_call<T: Texts>(
    alloc: Global,
    site: &Site<'_>,
    texts: &T,
    frame: &Frame,
    op: u8,
    count: u32,
    method: u32,
    receiver: Name,
) -> Result<Next, NoMemory>
    requires enough { count ≤ length frame.now.stack.values }
    requires named { method < length site.now.image.now.methods }
    ensures next { IfOk result
        (λ r. shown_next site.now.image.now (Some frame.now) r
        ≡ selected_call site.now.image.now (who_at site.now (T.known texts.now)) frame.now op method
        (call_values count frame.now.stack.values) receiver) }
    ensures still { IfOk result (λ r. IsNoMove r) }
{
    let interface = op == opcode::INVOKEINTERFACE;
    let selected = select(site.image, receiver.class, method, interface);
    runs_selected(alloc, site, texts, frame, count, selected)
}

/// A call on a receiver.
#[tactic(auto, using(crate::proofs::Receiving::receiver_is, crate::proofs::Receiving::receiver_special, crate::proofs::Receiving::receiver_selected))]
fn receiver_call<T: Texts>(
    alloc: Global,
    site: &Site<'_>,
    texts: &T,
    frame: &Frame,
    op: u8,
    count: u32,
    method: u32,
) -> Result<Next, NoMemory>
    requires some { 0 < count }
    requires enough { count ≤ length frame.now.stack.values }
    requires named { method < length site.now.image.now.methods }
    ensures next { IfOk result
        (λ r. shown_next site.now.image.now (Some frame.now) r
        ≡ receiver_call site.now.image.now (who_at site.now (T.known texts.now)) frame.now op method
        (call_values count frame.now.stack.values)) }
    ensures still { IfOk result (λ r. IsNoMove r) }
{
    let Some(Value::Ref(receiver)) = frame.stack.get(count - 1) else {
        return Ok(Next::Stuck);
    };
    if op == opcode::INVOKESPECIAL {
        special_call(alloc, site, texts, frame, count, method)
    } else {
        selected_call(alloc, site, texts, frame, op, count, method, receiver)
    }
}

/// A call; `invokestatic` asks for the class of its method.
#[tactic(auto, using(crate::proofs::Going::no_move_of_call))]
pub(crate) fn call_plan<T: Texts>(
    alloc: Global,
    site: &Site<'_>,
    texts: &T,
    frame: &Frame,
    op: &Op,
) -> Result<Plan, NoMemory>
    requires whole { IsWhole site.now.image.now }
    requires within { frame.now.method < length site.now.image.now.methods }
    requires few { HasFewArguments op.now }
    requires enough { HasOperands op.now frame.now.stack.values }
    ensures plan { IfOk result
        (λ r. shown site.now.image.now (Some frame.now) r
        ≡ call_plan site.now.image.now (who_at site.now (T.known texts.now)) frame.now op.now
        (target_of site.now.image.now frame.now.method frame.now.at) frame.now.stack.values) }
    ensures call { IfOk result (λ r. IsOfCall op.now r.next) }
{
    let Op::Invoke { op, item: _, desc } = op else {
        return Ok(plain(Next::Stuck));
    };
    let method = method_named(site.image, frame);
    let count = call_count(*op, desc.get());
    if *op == opcode::INVOKESTATIC {
        let next = runs_method(alloc, site, texts, frame, count, method)?;
        return Ok(asking(owner_of(site.image, method), next));
    }
    Ok(plain(receiver_call(alloc, site, texts, frame, *op, count, method)?))
}
