//! Frames for calls (JVMS2 3.6).

ghost use Rattle.std.specs.Prelude.{◌≡◌, ◌++◌, ◌<◌, not, length, option_map, IfOk, OnOk};
ghost use Rattle.std.specs.List.{flat_map};
ghost use Rattle.program_image.specs.Selection.{is_instance};
ghost use Rattle.program_image.specs.Handlers.{code_of};
ghost use Rattle.frame_ops.specs.Operands.{local_slots};
ghost use Rattle.machine_state.specs.Frames.{padded, call_locals, receiver, lock_for, first_phase, new_frame};
ghost use Rattle.machine_state.specs.PreMade.{holder};

use class_format::{CLINIT, STATIC, has_flag};
use jvm_base::{Frame, List, Name, NoMemory, Operands, Phase, Value};
use program_image::{Image, MethodInfo};
use program_reads::{code_of, holder};
use std::alloc::Global;

/// ACC_SYNCHRONIZED, of a method.
const SYNCHRONIZED: u16 = 0x0020;

/// The values of a call as locals: a long takes two.
fn spread(values: &[Value], locals: &mut Vec<Value>) -> Result<(), NoMemory>
    ensures { OnOk result (locals.new.items ≡ locals.old.items ++ flat_map local_slots values.now) }
{
    for value in values {
        locals.push(*value)?;
        if let Value::Long(_) = value {
            locals.push(Value::Int(0))?;
        }
    }
    Ok(())
}

/// Locals that no value has hold an int 0.
fn pad(locals: &mut Vec<Value>, count: u32) -> Result<(), NoMemory>
    ensures { OnOk result (locals.new.items ≡ padded count locals.old.items) }
{
    if locals.len() < count as usize {
        locals.resize(count as usize, Value::Int(0))?;
    }
    Ok(())
}

/// The locals of a call.
fn call_locals(alloc: Global, count: u32, values: &[Value]) -> Result<List<Value>, NoMemory>
    ensures { IfOk result (λ locals. locals ≡ call_locals count values.now) }
{
    let mut locals = Vec::with_capacity(alloc, count as usize)?;
    spread(values, &mut locals)?;
    pad(&mut locals, count)?;
    Ok(List::from_vec(locals))
}

/// Whether a call of the method has no receiver; `<clinit>` counts as static.
fn is_without_receiver(method: &MethodInfo) -> bool
    ensures { result ≡ not (is_instance method.now) }
{
    has_flag(method.flags, STATIC) || method.name.get().as_slice() == CLINIT.as_slice()
}

/// The receiver of a call.
fn receiver(values: &[Value]) -> Option<Name>
    ensures { result ≡ receiver values.now }
{
    match values.first() {
        Some(Value::Ref(name)) => Some(*name),
        _ => None,
    }
}

/// What a synchronized method locks (JVMS2 2.10.3).
fn lock_for(image: &Image, method: u32, values: &[Value]) -> Option<Name>
    requires { method < length image.now.methods }
    ensures { result ≡ lock_for image.now method values.now }
{
    let info = image.method(method);
    if !has_flag(info.flags, SYNCHRONIZED) {
        None
    } else if is_without_receiver(info) {
        Some(holder(info.owner))
    } else {
        receiver(values)
    }
}

/// A frame begins with its lock, if it has one.
fn first_phase(lock: Option<Name>) -> Phase
    ensures { result ≡ first_phase lock }
{
    match lock {
        None => Phase::Body,
        Some(_) => Phase::Lock,
    }
}

/// The frame of a call with these values; `None` exactly where the method has no code.
pub fn new_frame(
    alloc: Global,
    image: &Image,
    method: u32,
    values: &[Value],
) -> Result<Option<Frame>, NoMemory>
    ensures { IfOk result (λ frame. frame
        ≡ option_map (new_frame image.now method values.now) (code_of image.now method)) }
{
    let code = match code_of(image, method) {
        Some(code) => code,
        None => return Ok(None),
    };
    let lock = lock_for(image, method, values);
    Ok(Some(Frame {
        method,
        at: 0,
        phase: first_phase(lock),
        lock,
        locals: call_locals(alloc, code.max_locals, values)?,
        stack: Operands::new(alloc, code.max_stack)?,
    }))
}
