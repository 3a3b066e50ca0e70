//! Operands moved about (JVMS2 6, pop, dup and swap).

ghost use Rattle.std.specs.Prelude.{◌≡◌, ◌++◌, ◌+◌, ◌≤◌, ◌∷◌, [], drop, length, take, nat_le};
ghost use Rattle.jvm_base.specs.Stack.{pushed};
ghost use Rattle.instruction_table.specs.Rows.{pop_row, dup_row};
ghost use Rattle.instruction_table.specs.Working.{group_count, swapped};
ghost use Rattle.instruction_table.specs.declared.row.Group.{Group};
ghost use Rattle.instruction_table.specs.declared.row.Row.TheVariants as row;
ghost use Rattle.frame_ops.specs.declared.moved.Moved.TheVariants.{Behind};
ghost use Rattle.frame_ops.specs.Condition.{CanMove, stack_after};
ghost use Rattle.frame_ops.specs.Moves.{Goes};
ghost use Rattle.frame_ops.specs.Operands.{is_wide, shuffled, under};
ghost use Rattle.frame_ops.specs.Shuffles.{few_values, put_values};

use crate::moved::Moved;
use instruction_table::{Group, dup_groups, pop_group};
use jvm_base::{Operands, Value};

/// At most two values that were taken, the newest first.
#[derive(Clone, Copy)]
pub(crate) struct Few {
    pub first: Option<Value>,
    pub second: Option<Value>,
}

fn is_wide(value: Value) -> bool
    ensures { result ≡ is_wide value }
{
    matches!(value, Value::Long(_))
}

/// Takes a group off.
fn take_group(group: Group, stack: &mut Operands) -> Few
    ensures taken { few_values result
        ≡ take (group_count is_wide group stack.old.values) stack.old.values }
    ensures left { stack.new
        ≡ record { values = under group stack.old.values; room = stack.old.room } }
{
    let first = match group {
        Group::Nothing => None,
        _ => stack.pop(),
    };
    let second = match (group, first) {
        (Group::Wide, Some(value)) if !is_wide(value) => stack.pop(),
        _ => None,
    };
    Few { first, second }
}

/// Puts values on top.
fn put(few: Few, stack: &mut Operands)
    requires { length (few_values few) + length stack.old.values ≤ stack.old.room }
    ensures { stack.new ≡ put_values few stack.old }
{
    if let Some(value) = few.second {
        stack.push(value);
    }
    if let Some(value) = few.first {
        stack.push(value);
    }
}

/// Takes a group off.
pub(crate) fn pop(op: u8, stack: &mut Operands) -> Moved
    ensures moved { result ≡ Behind }
    ensures stack { stack.new
        ≡ stack_after (Goes (shuffled (pop_row op) stack.old.values)) stack.old }
{
    let group = pop_group(op);
    let _ = take_group(group, stack);
    Moved::Behind
}

/// Puts a copy of the top group below the one under it.
fn double(top: Group, below: Group, stack: &mut Operands)
    requires { length (shuffled (row.Doubles top below) stack.old.values) ≤ stack.old.room }
    ensures { stack.new
        ≡ stack_after (Goes (shuffled (row.Doubles top below) stack.old.values)) stack.old }
{
    let first = take_group(top, stack);
    let second = take_group(below, stack);
    put(first, stack);
    put(second, stack);
    put(first, stack);
}

/// Doubles a group by the opcode.
pub(crate) fn dup(op: u8, stack: &mut Operands) -> Moved
    requires { CanMove (Goes (shuffled (dup_row op) stack.old.values)) stack.old }
    ensures moved { result ≡ Behind }
    ensures stack { stack.new
        ≡ stack_after (Goes (shuffled (dup_row op) stack.old.values)) stack.old }
{
    let (top, below) = dup_groups(op);
    double(top, below, stack);
    Moved::Behind
}

/// Turns two values.
pub(crate) fn swap(stack: &mut Operands) -> Moved
    requires { CanMove (Goes (shuffled row.Swaps stack.old.values)) stack.old }
    ensures moved { result ≡ Behind }
    ensures stack { stack.new ≡ stack_after (Goes (shuffled row.Swaps stack.old.values)) stack.old }
{
    let first = stack.pop();
    let second = stack.pop();
    if let Some(value) = first {
        stack.push(value);
    }
    if let Some(value) = second {
        stack.push(value);
    }
    Moved::Behind
}
