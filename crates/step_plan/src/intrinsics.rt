//! What a call of a native method does: one step, without a frame of its own.

ghost use Rattle.std.specs.Prelude.{◌≡◌, ◌∷◌, ◌≤◌, [], length, Some, IfOk};
ghost use Rattle.std.specs.Option.{option_to_list};
ghost use Rattle.jvm_base.specs.declared.frame.Frame.{Frame as Called};
ghost use Rattle.jvm_base.specs.declared.value.Value.TheVariants.{Ref};
ghost use Rattle.frame_ops.specs.Stepping.{call_values};
ghost use Rattle.machine_state.specs.Intrinsics as machine;
ghost use Rattle.machine_state.specs.IntrinsicCalls.{calls_intrinsic, intrinsic_call};
ghost use Rattle.step_plan.specs.Arguments.{two_of};
ghost use Rattle.step_plan.specs.Depth.{who_at};
ghost use Rattle.step_plan.specs.Shown.{shown_next};
ghost use Rattle.step_plan.specs.Texts.{seen, seen_object, seen_argument};
ghost use Rattle.step_plan.specs.Ways.{IsNoMove};

use crate::buffers::{append, filled, print, print_line};
use crate::intrinsic::{Intrinsic, OnArgument, OnObject, intrinsic_of};
use crate::plan::Next;
use crate::site::Site;
use crate::strings::{char_at, concat, same_text, text_length};
use crate::values::argument;
use crate::who::Texts;
use jvm_base::{Frame, Name, NoMemory, Units, Value};
use machine_state::Request;
use std::alloc::Global;
use text_objects::number_text;

/// The unit at a line's end.
const LINE_END: [u16; 1] = [10];

/// One on an object and an argument.
fn on_argument<T: Texts>(
    alloc: Global,
    site: &Site<'_>,
    texts: &T,
    number: u8,
    intrinsic: OnArgument,
    object: Name,
    value: Value,
) -> Result<Next, NoMemory>
    ensures next { IfOk result
        (λ r. (f : Called) → shown_next site.now.image.now (Some f) r
        ≡ intrinsic_call site.now.image.now (who_at site.now (T.known texts.now)) number f
        (seen_argument intrinsic) (Ref object ∷ value ∷ [])) }
    ensures still { IfOk result (λ r. IsNoMove r) }
{
    match (intrinsic, value) {
        (OnArgument::CharAt, Value::Int(index)) => Ok(char_at(texts, object, index)),
        (OnArgument::CharAt, _) => Ok(Next::Stuck),
        (OnArgument::SameText, _) => Ok(same_text(site, texts, object, value)),
        (OnArgument::Concat, _) => concat(alloc, site, texts, object, value),
        (OnArgument::BufferOf, _) => filled(alloc, site, texts, number, object, value),
        (OnArgument::Append(shown), _) => {
            append(alloc, site, texts, number, shown, object, value)
        }
        (OnArgument::Print(shown), _) => print(alloc, site, texts, shown, value),
        (OnArgument::PrintLine(shown), _) => print_line(alloc, site, texts, shown, value),
    }
}

/// The text of a number.
fn value_of<T: Texts>(
    alloc: Global,
    site: &Site<'_>,
    texts: &T,
    number: u8,
    value: Value,
    behind: Option<Value>,
) -> Result<Next, NoMemory>
    ensures next { IfOk result
        (λ r. (f : Called) → shown_next site.now.image.now (Some f) r
        ≡ intrinsic_call site.now.image.now (who_at site.now (T.known texts.now)) number f
        machine.ValueOf (value ∷ option_to_list behind)) }
    ensures still { IfOk result (λ r. IsNoMove r) }
{
    match value {
        Value::Int(_) => Ok(Next::Needs(Request::MakeText(number_text(alloc, value)?))),
        Value::Long(_) => Ok(Next::Needs(Request::MakeText(number_text(alloc, value)?))),
        _ => Ok(Next::Stuck),
    }
}

/// One on an object alone.
fn on_object<T: Texts>(
    alloc: Global,
    site: &Site<'_>,
    texts: &T,
    number: u8,
    intrinsic: OnObject,
    object: Name,
    behind: Option<Value>,
) -> Result<Next, NoMemory>
    ensures next { IfOk result
        (λ r. (f : Called) → shown_next site.now.image.now (Some f) r
        ≡ intrinsic_call site.now.image.now (who_at site.now (T.known texts.now)) number f
        (seen_object intrinsic) (Ref object ∷ option_to_list behind)) }
    ensures still { IfOk result (λ r. IsNoMove r) }
{
    Ok(match intrinsic {
        OnObject::Wait => Next::Needs(Request::Wait(object)),
        OnObject::Notify => Next::Needs(Request::Notify(object)),
        OnObject::NotifyAll => Next::Needs(Request::NotifyAll(object)),
        OnObject::Length => text_length(texts, object),
        OnObject::NewBuffer | OnObject::BufferText | OnObject::BufferLength => {
            Next::Needs(Request::Buffer(object, number, Units::new(alloc)))
        }
        OnObject::PrintEnd => {
            Next::Needs(Request::Print(Units::from_slice(alloc, LINE_END.as_slice())?))
        }
        OnObject::Start => Next::Needs(Request::Start(object)),
        OnObject::Join => Next::Needs(Request::Join(object)),
    })
}

/// An intrinsic, with the first two values of its call.
fn intrinsic_call<T: Texts>(
    alloc: Global,
    site: &Site<'_>,
    texts: &T,
    number: u8,
    intrinsic: Intrinsic,
    first: Option<Value>,
    second: Option<Value>,
) -> Result<Next, NoMemory>
    ensures next { IfOk result
        (λ r. (f : Called) → shown_next site.now.image.now (Some f) r
        ≡ intrinsic_call site.now.image.now (who_at site.now (T.known texts.now)) number f
        (seen intrinsic) (two_of first second)) }
    ensures still { IfOk result (λ r. IsNoMove r) }
{
    match (intrinsic, first, second) {
        (Intrinsic::CurrentThread, _, _) => { Ok(Next::Answered(Some(Value::Ref(site.object)))) }
        (Intrinsic::Sleep, _, _) => Ok(Next::Answered(None)),
        (Intrinsic::Yield, _, _) => Ok(Next::Answered(None)),
        (Intrinsic::ValueOf, Some(value), _) => value_of(alloc, site, texts, number, value, second),
        (Intrinsic::OnObject(intrinsic), Some(Value::Ref(object)), _) => {
            on_object(alloc, site, texts, number, intrinsic, object, second)
        }
        (Intrinsic::OnArgument(intrinsic), Some(Value::Ref(object)), Some(value)) => {
            on_argument(alloc, site, texts, number, intrinsic, object, value)
        }
        _ => Ok(Next::Stuck),
    }
}

/// A call of so many values of the intrinsic of a number.
#[tactic(auto, using(crate::proofs::IntrinsicLaws::two_enough))]
pub(crate) fn calls_intrinsic<T: Texts>(
    alloc: Global,
    site: &Site<'_>,
    texts: &T,
    frame: &Frame,
    count: u32,
    number: u8,
) -> Result<Next, NoMemory>
    requires { count ≤ length frame.now.stack.values }
    ensures next { IfOk result
        (λ r. shown_next site.now.image.now (Some frame.now) r
        ≡ calls_intrinsic site.now.image.now (who_at site.now (T.known texts.now)) number frame.now
        (call_values count frame.now.stack.values)) }
    ensures still { IfOk result (λ r. IsNoMove r) }
{
    let Some(intrinsic) = intrinsic_of(number) else {
        return Ok(Next::Stuck);
    };
    let first = argument(&frame.stack, count, 0);
    let second = argument(&frame.stack, count, 1);
    intrinsic_call(alloc, site, texts, number, intrinsic, first, second)
}
