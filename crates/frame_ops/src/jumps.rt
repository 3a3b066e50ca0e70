//! Instructions that jump, by family (JVMS2 6).

ghost use Rattle.std.specs.Prelude.{◌≡◌, ◌∷◌, find, slice_index};
ghost use Rattle.jvm_base.specs.Stack.{pushed};
ghost use Rattle.jvm_base.specs.Names.{name_eq};
ghost use Rattle.frame_ops.specs.Condition.{CanMove, stack_after};
ghost use Rattle.frame_ops.specs.Jumping.{moved_of, KeepsLocals};
ghost use Rattle.frame_ops.specs.Numbers.{distance};
ghost use Rattle.frame_ops.specs.Operands.{branches_zero, branches_ints, branches_refs, branches_null, same_reference, is_null, passes_refs, passes_null, switches_table, switches_pairs, table_target, is_of_key, pair_target};
ghost use Rattle.std.specs.Option.{option_copied};

use crate::moved::Moved;
use crate::numbers::compares;
use code_table::opcode;
use jvm_base::{List, Name, Operands, Value};

/// Jumps where an int compares so with 0.
pub(crate) fn branch_zero(op: u8, to: u32, stack: &mut Operands) -> Moved
    requires { CanMove (branches_zero op to stack.old.values) stack.old }
    ensures moved { result ≡ moved_of (branches_zero op to stack.old.values) }
    ensures kept { KeepsLocals (branches_zero op to stack.old.values) }
    ensures stack { stack.new ≡ stack_after (branches_zero op to stack.old.values) stack.old }
{
    match stack.pop() {
        Some(Value::Int(a)) => {
            if compares(op.saturating_sub(opcode::IFEQ), a, 0) {
                Moved::At(to)
            } else {
                Moved::Behind
            }
        }
        _ => unreachable!(),
    }
}

/// Jumps where two ints compare so.
pub(crate) fn branch_ints(op: u8, to: u32, stack: &mut Operands) -> Moved
    requires { CanMove (branches_ints op to stack.old.values) stack.old }
    ensures moved { result ≡ moved_of (branches_ints op to stack.old.values) }
    ensures kept { KeepsLocals (branches_ints op to stack.old.values) }
    ensures stack { stack.new ≡ stack_after (branches_ints op to stack.old.values) stack.old }
{
    let b = stack.pop();
    let a = stack.pop();
    match (a, b) {
        (Some(Value::Int(a)), Some(Value::Int(b))) => {
            if compares(op.saturating_sub(opcode::IF_ICMPEQ), a, b) {
                Moved::At(to)
            } else {
                Moved::Behind
            }
        }
        _ => unreachable!(),
    }
}

fn is_name(a: Name, b: Name) -> bool
    ensures { result ≡ name_eq a b }
{
    a == b
}

fn is_same_reference(a: Value, b: Value) -> bool
    ensures { result ≡ same_reference a b }
{
    match (a, b) {
        (Value::Ref(a), Value::Ref(b)) => is_name(a, b),
        (Value::Null, Value::Null) => true,
        _ => false,
    }
}

/// Jumps where two references are one, or where they aren't.
pub(crate) fn branch_refs(op: u8, to: u32, stack: &mut Operands) -> Moved
    requires { CanMove (branches_refs op to stack.old.values) stack.old }
    ensures moved { result ≡ moved_of (branches_refs op to stack.old.values) }
    ensures kept { KeepsLocals (branches_refs op to stack.old.values) }
    ensures stack { stack.new ≡ stack_after (branches_refs op to stack.old.values) stack.old }
{
    let b = stack.pop();
    let a = stack.pop();
    match (a, b) {
        (Some(a), Some(b)) => {
            if is_same_reference(a, b) == (op == opcode::IF_ACMPEQ) {
                Moved::At(to)
            } else {
                Moved::Behind
            }
        }
        _ => unreachable!(),
    }
}

fn is_null(value: Value) -> bool
    ensures { result ≡ is_null value }
{
    matches!(value, Value::Null)
}

/// Jumps where a reference is null, or where it isn't.
pub(crate) fn branch_null(op: u8, to: u32, stack: &mut Operands) -> Moved
    requires { CanMove (branches_null op to stack.old.values) stack.old }
    ensures moved { result ≡ moved_of (branches_null op to stack.old.values) }
    ensures kept { KeepsLocals (branches_null op to stack.old.values) }
    ensures stack { stack.new ≡ stack_after (branches_null op to stack.old.values) stack.old }
{
    match stack.pop() {
        Some(a) => {
            if is_null(a) == (op == opcode::IFNULL) {
                Moved::At(to)
            } else {
                Moved::Behind
            }
        }
        None => unreachable!(),
    }
}

/// How far a number lies above another one.
fn distance(a: i32, b: i32) -> u32
    ensures { result ≡ distance a b }
{
    a.cast_unsigned().wrapping_sub(b.cast_unsigned())
}

fn table_target(other: u32, low: i32, high: i32, to: &[u32], key: i32) -> u32
    ensures { result ≡ table_target other low high to.now key }
{
    if key < low || key > high {
        return other;
    }
    match to.get(distance(key, low) as usize) {
        Some(target) => *target,
        None => 0,
    }
}

/// Jumps where a table leads for a key.
pub(crate) fn switch_table(
    other: u32,
    low: i32,
    high: i32,
    to: &[u32],
    stack: &mut Operands,
) -> Moved
    requires { CanMove (switches_table other low high to.now stack.old.values) stack.old }
    ensures moved { result ≡ moved_of (switches_table other low high to.now stack.old.values) }
    ensures kept { KeepsLocals (switches_table other low high to.now stack.old.values) }
    ensures stack { stack.new
        ≡ stack_after (switches_table other low high to.now stack.old.values) stack.old }
{
    match stack.pop() {
        Some(Value::Int(key)) => Moved::At(table_target(other, low, high, to, key)),
        _ => unreachable!(),
    }
}

fn is_of_key(pair: &(i32, u32), key: i32) -> bool
    ensures { result ≡ is_of_key key pair.now }
{
    pair.0 == key
}

/// The first pair of a key.
fn first_pair(pairs: &[(i32, u32)], key: i32) -> Option<&(i32, u32)>
    ensures { option_copied result ≡ find (is_of_key key) pairs.now }
{
    pairs.iter().find(|pair| is_of_key(pair, key))
}

fn pair_target(other: u32, pairs: &[(i32, u32)], key: i32) -> u32
    ensures { result ≡ pair_target other pairs.now key }
{
    match first_pair(pairs, key) {
        Some(pair) => pair.1,
        None => other,
    }
}

/// Jumps where pairs lead for a key.
pub(crate) fn switch_pairs(other: u32, pairs: &[(i32, u32)], stack: &mut Operands) -> Moved
    requires { CanMove (switches_pairs other pairs.now stack.old.values) stack.old }
    ensures moved { result ≡ moved_of (switches_pairs other pairs.now stack.old.values) }
    ensures kept { KeepsLocals (switches_pairs other pairs.now stack.old.values) }
    ensures stack { stack.new
        ≡ stack_after (switches_pairs other pairs.now stack.old.values) stack.old }
{
    match stack.pop() {
        Some(Value::Int(key)) => Moved::At(pair_target(other, pairs, key)),
        _ => unreachable!(),
    }
}
