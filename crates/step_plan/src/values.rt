//! Values as they are stored, and those of a call.

ghost use Rattle.std.specs.Prelude.{◌≡◌, ◌<◌, ◌≤◌, length, map, slice_get, take, IfOk};
ghost use Rattle.frame_ops.specs.Stepping.{call_values};
ghost use Rattle.machine_state.specs.Instructions.{cut, put_value, stored_value, size_of};

use code_table::opcode;
use frame_ops::{as_byte, as_short, as_unit};
use jvm_base::{Desc, Elem, List, NoMemory, Operands, Value};
use std::alloc::Global;

/// An int cut to what an element type holds.
fn cut(elem: &Elem, a: i32) -> i32
    ensures { result ≡ cut elem.now a }
{
    match elem {
        Elem::Byte | Elem::Boolean => as_byte(a),
        Elem::Char => as_unit(a),
        Elem::Short => as_short(a),
        _ => a,
    }
}

/// A value as a field of the type holds it.
pub(crate) fn put_value(desc: &Desc, value: Value) -> Value
    ensures { result ≡ put_value desc.now value }
{
    match value {
        Value::Int(a) if desc.dims == 0 => Value::Int(cut(&desc.elem, a)),
        _ => value,
    }
}

/// A value as an element holds it, by the opcode that stores it.
pub(crate) fn stored_value(op: u8, value: Value) -> Value
    ensures { result ≡ stored_value op value }
{
    let Value::Int(a) = value else {
        return value;
    };
    match op {
        opcode::BASTORE => Value::Int(as_byte(a)),
        opcode::CASTORE => Value::Int(as_unit(a)),
        opcode::SASTORE => Value::Int(as_short(a)),
        _ => value,
    }
}

/// The value of a call of so many at a place, from 0; `None` past the last.
#[tactic(auto, using(crate::proofs::Operands::call_value, crate::proofs::Operands::no_call_value))]
pub(crate) fn argument(stack: &Operands, count: u32, i: u32) -> Option<Value>
    requires { count ≤ length stack.now.values }
    ensures { result ≡ slice_get (call_values count stack.now.values) i }
{
    if i < count {
        stack.get(count - 1 - i)
    } else {
        None
    }
}

/// The values of a call of so many.
#[tactic(auto, using(crate::proofs::Operands::call_count_is, crate::proofs::Taking::take_next))]
pub(crate) fn call_values(
    alloc: Global,
    stack: &Operands,
    count: u32,
) -> Result<List<Value>, NoMemory>
    requires { count ≤ length stack.now.values }
    ensures { IfOk result (λ values. values ≡ call_values count stack.now.values) }
{
    let mut values = List::new(alloc);
    for i in 0..count {
        match argument(stack, count, i) {
            Some(value) => values.push(value)?,
            None => unreachable!(),
        }
    }
    Ok(values)
}

fn size_of(value: Value) -> u32
    ensures { result ≡ size_of value }
{
    match value {
        Value::Int(size) => size.unsigned_abs(),
        _ => 0,
    }
}

/// The newest operands as sizes, the oldest first.
#[tactic(auto, using(crate::proofs::Operands::call_count_is, crate::proofs::Taking::map_next))]
pub(crate) fn sizes(alloc: Global, stack: &Operands, count: u32) -> Result<List<u32>, NoMemory>
    requires { count ≤ length stack.now.values }
    ensures { IfOk result (λ sizes. sizes ≡ map size_of (call_values count stack.now.values)) }
{
    let mut sizes = List::new(alloc);
    for i in 0..count {
        match argument(stack, count, i) {
            Some(value) => sizes.push(size_of(value))?,
            None => unreachable!(),
        }
    }
    Ok(sizes)
}
