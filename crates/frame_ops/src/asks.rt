//! Instructions that ask for something beyond their frame, call, throw or return (JVMS2 6).

ghost use Rattle.std.specs.Prelude.{◌≡◌, ◌∷◌, length, take, false, slice_get};
ghost use Rattle.jvm_base.specs.Words.{from};
ghost use Rattle.std.specs.List.{list_any};
ghost use Rattle.frame_ops.specs.Condition.{IsDefined, values_after};
ghost use Rattle.frame_ops.specs.Moves.{Asks, Calls};
ghost use Rattle.frame_ops.specs.Jumping.{moved_of, KeepsLocals};
ghost use Rattle.frame_ops.specs.Operands.{with_reference, field_move, call_move, throws, with_sizes, is_negative_size, returned};

use crate::answer::{Fault, Pure};
use crate::moved::Moved;
use code_table::opcode;
use jvm_base::{Operands, Value};

/// Asks, where the operand below so many others isn't null.
pub(crate) fn ask(depth: u32, stack: &Operands) -> Moved
    requires { IsDefined (with_reference depth Asks stack.now.values) }
    ensures moved { result ≡ moved_of (with_reference depth Asks stack.now.values) }
    ensures kept { KeepsLocals (with_reference depth Asks stack.now.values) }
    ensures values { values_after (with_reference depth Asks stack.now.values) stack.now.values
        ≡ stack.now.values }
{
    match stack.get(depth) {
        Some(Value::Ref(_)) => Moved::Elsewhere(Pure::Heap),
        Some(Value::Null) => Moved::Elsewhere(Pure::Raise(Fault::NullPointer)),
        _ => unreachable!(),
    }
}

/// Asks for a field.
pub(crate) fn field(op: u8, stack: &Operands) -> Moved
    requires { IsDefined (field_move op stack.now.values) }
    ensures moved { result ≡ moved_of (field_move op stack.now.values) }
    ensures kept { KeepsLocals (field_move op stack.now.values) }
    ensures values { values_after (field_move op stack.now.values) stack.now.values
        ≡ stack.now.values }
{
    ask(if op == opcode::GETFIELD { 0 } else { 1 }, stack)
}

/// Calls, where the receiver below so many arguments isn't null.
pub(crate) fn call(op: u8, arguments: u32, stack: &Operands) -> Moved
    requires { IsDefined (call_move op arguments stack.now.values) }
    ensures moved { result ≡ moved_of (call_move op arguments stack.now.values) }
    ensures kept { KeepsLocals (call_move op arguments stack.now.values) }
    ensures values { values_after (call_move op arguments stack.now.values) stack.now.values
        ≡ stack.now.values }
{
    if op == opcode::INVOKESTATIC {
        return Moved::Elsewhere(Pure::Call);
    }
    match stack.get(arguments) {
        Some(Value::Ref(_)) => Moved::Elsewhere(Pure::Call),
        Some(Value::Null) => Moved::Elsewhere(Pure::Raise(Fault::NullPointer)),
        _ => unreachable!(),
    }
}

/// Throws, where what is thrown isn't null.
pub(crate) fn throw(stack: &Operands) -> Moved
    requires { IsDefined (throws stack.now.values) }
    ensures moved { result ≡ moved_of (throws stack.now.values) }
    ensures kept { KeepsLocals (throws stack.now.values) }
    ensures values { values_after (throws stack.now.values) stack.now.values ≡ stack.now.values }
{
    match stack.get(0) {
        Some(Value::Ref(name)) => Moved::Elsewhere(Pure::Throw(name)),
        Some(Value::Null) => Moved::Elsewhere(Pure::Raise(Fault::NullPointer)),
        _ => unreachable!(),
    }
}

fn is_negative_size(value: Value) -> bool
    ensures { result ≡ is_negative_size value }
{
    match value {
        Value::Int(a) => a < 0,
        _ => false,
    }
}

fn is_negative_at(depth: u32, stack: &Operands) -> bool
    ensures { result ≡ from false is_negative_size (slice_get stack.now.values depth) }
{
    match stack.get(depth) {
        Some(value) => is_negative_size(value),
        None => false,
    }
}

#[tactic(auto, using(crate::proofs::Sizes::any_next))]
fn has_negative_size(count: u8, stack: &Operands) -> bool
    ensures { result ≡ list_any is_negative_size (take count stack.now.values) }
{
    let mut found = false;
    for depth in 0..count {
        found = found || is_negative_at(depth as u32, stack);
    }
    found
}

/// Asks for an array, unless one of its sizes is negative.
pub(crate) fn sizes(count: u8, stack: &Operands) -> Moved
    ensures moved { result ≡ moved_of (with_sizes count stack.now.values) }
    ensures kept { KeepsLocals (with_sizes count stack.now.values) }
    ensures values { values_after (with_sizes count stack.now.values) stack.now.values
        ≡ stack.now.values }
{
    if has_negative_size(count, stack) {
        Moved::Elsewhere(Pure::Raise(Fault::NegativeSize))
    } else {
        Moved::Elsewhere(Pure::Heap)
    }
}

/// What a return gives.
pub(crate) fn returned(op: u8, stack: &Operands) -> Option<Value>
    ensures { result ≡ returned op stack.now.values }
{
    if op == opcode::RETURN {
        None
    } else {
        stack.get(0)
    }
}
