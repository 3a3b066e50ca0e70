//! What instructions do to the operands, by family (JVMS2 6).

ghost use Rattle.std.specs.Prelude.{◌≡◌, ◌∷◌, ◌<◌, ◌≤◌, length};
ghost use Rattle.jvm_base.specs.Stack.{pushed};
ghost use Rattle.frame_ops.specs.Condition.{CanMove, stack_after};
ghost use Rattle.frame_ops.specs.Jumping.{moved_of, KeepsLocals};
ghost use Rattle.frame_ops.specs.Numbers.{arithmetic, bitwise, division};
ghost use Rattle.frame_ops.specs.Operands.{two_numbers, is_zero, divides, negates, shifts, resizes, int_resized, compares_longs, casts};

use crate::answer::{Fault, Pure};
use crate::moved::Moved;
use crate::numbers::{
    as_byte, as_int, as_short, as_unit, int_arithmetic, int_bitwise, int_division, int_shifted,
    long_arithmetic, long_bitwise, long_division, long_shifted, ordered,
};
use code_table::opcode;
use jvm_base::{Operands, Value};

/// The sum, difference or product of two numbers.
pub(crate) fn arith(op: u8, stack: &mut Operands) -> Moved
    requires { CanMove (two_numbers op (arithmetic op) stack.old.values) stack.old }
    ensures moved { result ≡ moved_of (two_numbers op (arithmetic op) stack.old.values) }
    ensures kept { KeepsLocals (two_numbers op (arithmetic op) stack.old.values) }
    ensures stack { stack.new
        ≡ stack_after (two_numbers op (arithmetic op) stack.old.values) stack.old }
{
    let b = stack.pop();
    let a = stack.pop();
    match (a, b) {
        (Some(Value::Int(a)), Some(Value::Int(b))) => {
            stack.push(Value::Int(int_arithmetic(op, a, b)));
        }
        (Some(Value::Long(a)), Some(Value::Long(b))) => {
            stack.push(Value::Long(long_arithmetic(op, a, b)));
        }
        _ => unreachable!(),
    }
    Moved::Behind
}

/// Two numbers bit by bit.
pub(crate) fn bits(op: u8, stack: &mut Operands) -> Moved
    requires { CanMove (two_numbers op (bitwise op) stack.old.values) stack.old }
    ensures moved { result ≡ moved_of (two_numbers op (bitwise op) stack.old.values) }
    ensures kept { KeepsLocals (two_numbers op (bitwise op) stack.old.values) }
    ensures stack { stack.new
        ≡ stack_after (two_numbers op (bitwise op) stack.old.values) stack.old }
{
    let b = stack.pop();
    let a = stack.pop();
    match (a, b) {
        (Some(Value::Int(a)), Some(Value::Int(b))) => {
            stack.push(Value::Int(int_bitwise(op, a, b)));
        }
        (Some(Value::Long(a)), Some(Value::Long(b))) => {
            stack.push(Value::Long(long_bitwise(op, a, b)));
        }
        _ => unreachable!(),
    }
    Moved::Behind
}

/// A number shifted by an int.
pub(crate) fn shift(op: u8, stack: &mut Operands) -> Moved
    requires { CanMove (shifts op stack.old.values) stack.old }
    ensures moved { result ≡ moved_of (shifts op stack.old.values) }
    ensures kept { KeepsLocals (shifts op stack.old.values) }
    ensures stack { stack.new ≡ stack_after (shifts op stack.old.values) stack.old }
{
    let b = stack.pop();
    let a = stack.pop();
    match (a, b) {
        (Some(Value::Int(a)), Some(Value::Int(b))) => {
            stack.push(Value::Int(int_shifted(op, a, b)));
        }
        (Some(Value::Long(a)), Some(Value::Int(b))) => {
            stack.push(Value::Long(long_shifted(op, a, b)));
        }
        _ => unreachable!(),
    }
    Moved::Behind
}

pub(crate) fn is_zero(value: Value) -> bool
    ensures { result ≡ is_zero value }
{
    match value {
        Value::Int(b) => b == 0,
        Value::Long(b) => b == 0,
        _ => false,
    }
}

/// The quotient or remainder of two numbers, unless the divisor is 0.
pub(crate) fn divide(op: u8, stack: &mut Operands) -> Moved
    requires { CanMove (divides op (division op) stack.old.values) stack.old }
    ensures moved { result ≡ moved_of (divides op (division op) stack.old.values) }
    ensures kept { KeepsLocals (divides op (division op) stack.old.values) }
    ensures stack { stack.new ≡ stack_after (divides op (division op) stack.old.values) stack.old }
{
    match stack.get(0) {
        Some(b) if is_zero(b) => return Moved::Elsewhere(Pure::Raise(Fault::Arithmetic)),
        _ => {}
    }
    let b = stack.pop();
    let a = stack.pop();
    match (a, b) {
        (Some(Value::Int(a)), Some(Value::Int(b))) => {
            stack.push(Value::Int(int_division(op, a, b)));
        }
        (Some(Value::Long(a)), Some(Value::Long(b))) => {
            stack.push(Value::Long(long_division(op, a, b)));
        }
        _ => unreachable!(),
    }
    Moved::Behind
}

/// A number negated.
pub(crate) fn negate(stack: &mut Operands) -> Moved
    requires { CanMove (negates stack.old.values) stack.old }
    ensures moved { result ≡ moved_of (negates stack.old.values) }
    ensures kept { KeepsLocals (negates stack.old.values) }
    ensures stack { stack.new ≡ stack_after (negates stack.old.values) stack.old }
{
    match stack.pop() {
        Some(Value::Int(a)) => stack.push(Value::Int(a.wrapping_neg())),
        Some(Value::Long(a)) => stack.push(Value::Long(a.wrapping_neg())),
        _ => unreachable!(),
    }
    Moved::Behind
}

/// An int as another type.
fn int_resized(op: u8, a: i32) -> Value
    ensures { result ≡ int_resized op a }
{
    match op {
        opcode::I2L => Value::Long(a as i64),
        opcode::I2B => Value::Int(as_byte(a)),
        opcode::I2C => Value::Int(as_unit(a)),
        _ => Value::Int(as_short(a)),
    }
}

/// A number as another type.
pub(crate) fn resize(op: u8, stack: &mut Operands) -> Moved
    requires { CanMove (resizes op stack.old.values) stack.old }
    ensures moved { result ≡ moved_of (resizes op stack.old.values) }
    ensures kept { KeepsLocals (resizes op stack.old.values) }
    ensures stack { stack.new ≡ stack_after (resizes op stack.old.values) stack.old }
{
    match stack.pop() {
        Some(Value::Int(a)) => stack.push(int_resized(op, a)),
        Some(Value::Long(a)) => stack.push(Value::Int(as_int(a))),
        _ => unreachable!(),
    }
    Moved::Behind
}

/// Two longs compared.
pub(crate) fn compare_longs(stack: &mut Operands) -> Moved
    requires { CanMove (compares_longs stack.old.values) stack.old }
    ensures moved { result ≡ moved_of (compares_longs stack.old.values) }
    ensures kept { KeepsLocals (compares_longs stack.old.values) }
    ensures stack { stack.new ≡ stack_after (compares_longs stack.old.values) stack.old }
{
    let b = stack.pop();
    let a = stack.pop();
    match (a, b) {
        (Some(Value::Long(a)), Some(Value::Long(b))) => stack.push(Value::Int(ordered(a, b))),
        _ => unreachable!(),
    }
    Moved::Behind
}

/// A cast of a reference, or a test of its class.
pub(crate) fn cast(op: u8, fits: bool, stack: &mut Operands) -> Moved
    requires { CanMove (casts op fits stack.old.values) stack.old }
    ensures moved { result ≡ moved_of (casts op fits stack.old.values) }
    ensures kept { KeepsLocals (casts op fits stack.old.values) }
    ensures stack { stack.new ≡ stack_after (casts op fits stack.old.values) stack.old }
{
    let is_null = match stack.get(0) {
        Some(Value::Null) => true,
        Some(_) => false,
        None => unreachable!(),
    };
    if op == opcode::CHECKCAST {
        return if is_null || fits {
            Moved::Behind
        } else {
            Moved::Elsewhere(Pure::Raise(Fault::ClassCast))
        };
    }
    let _ = stack.pop();
    let passes = !is_null && fits;
    stack.push(Value::Int(if passes { 1 } else { 0 }));
    Moved::Behind
}
