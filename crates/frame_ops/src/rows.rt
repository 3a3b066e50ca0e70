//! The rows of the table, by family: what an instruction comes to, from what its family looks at.

ghost use Rattle.std.specs.Prelude.{◌≡◌, ◌<◌, ◌≤◌, ◌∷◌, [], length};
ghost use Rattle.jvm_base.specs.Stack.{pushed};
ghost use Rattle.frame_ops.specs.declared.answer.Given.TheVariants.{Nothing};
ghost use Rattle.frame_ops.specs.declared.families.Family.TheVariants.{Constants, Told, Locals, Shuffles, Numbers, Jumps, Arrays, Objects, Ways};
ghost use Rattle.frame_ops.specs.declared.moved.Moved.TheVariants.{Behind};
ghost use Rattle.frame_ops.specs.Condition.{CanMove, IsDefined, stack_after, values_after};
ghost use Rattle.frame_ops.specs.Jumping.{moved_of, locals_after, KeepsLocals};
ghost use Rattle.frame_ops.specs.Operands.{given_constant, given_fit};
ghost use Rattle.frame_ops.specs.Running.Families.{family_of, move_on, IsOnOperands};
ghost use Rattle.frame_ops.specs.Stepping.{HasFewArguments};
ghost use Rattle.frame_ops.specs.Table.{move_of};

use crate::answer::{Given, Pure};
use crate::asks::{ask, call, field, returned, sizes, throw};
use crate::families::Family;
use crate::jumps::{
    branch_ints, branch_null, branch_refs, branch_zero, switch_pairs, switch_table,
};
use crate::locals::{bump, local_at, store};
use crate::moved::Moved;
use crate::operands::{arith, bits, cast, compare_longs, divide, negate, resize, shift};
use crate::shuffles::{dup, pop, swap};
use code_table::Op;
use jvm_base::{List, Operands, Value};

/// Puts a value on top.
fn push(value: Value, stack: &mut Operands) -> Moved
    requires { length stack.old.values < stack.old.room }
    ensures moved { result ≡ Behind }
    ensures stack { stack.new ≡ pushed value stack.old }
{
    stack.push(value);
    Moved::Behind
}

/// A constant that the instruction names.
fn constant(op: &Op, stack: &mut Operands) -> Moved
    requires family { family_of op.now ≡ Constants }
    requires can { CanMove (move_on op.now stack.old.values) stack.old }
    ensures moved { result ≡ moved_of (move_on op.now stack.old.values) }
    ensures kept { KeepsLocals (move_on op.now stack.old.values) }
    ensures stack { stack.new ≡ stack_after (move_on op.now stack.old.values) stack.old }
{
    match op {
        Op::Nop => Moved::Behind,
        Op::AconstNull => push(Value::Null, stack),
        Op::Iconst(number) => push(Value::Int(*number), stack),
        Op::Lconst(number) => push(Value::Long(*number), stack),
        Op::Push(number) => push(Value::Int(*number), stack),
        _ => unreachable!(),
    }
}

fn given_constant(given: Given) -> Value
    ensures { result ≡ given_constant given }
{
    match given {
        Given::Constant(value) => value,
        _ => Value::Null,
    }
}

pub(crate) fn given_fit(given: Given) -> bool
    ensures { result ≡ given_fit given }
{
    match given {
        Given::Fits(fits) => fits,
        _ => false,
    }
}

/// A constant of the program, or a cast or test of a reference.
pub(crate) fn told(op: &Op, given: Given, stack: &mut Operands) -> Moved
    requires family { family_of op.now ≡ Told }
    requires can { CanMove (move_of op.now given [] stack.old.values) stack.old }
    ensures moved { result ≡ moved_of (move_of op.now given [] stack.old.values) }
    ensures kept { KeepsLocals (move_of op.now given [] stack.old.values) }
    ensures stack { stack.new ≡ stack_after (move_of op.now given [] stack.old.values) stack.old }
{
    match op {
        Op::Ldc(_) => push(given_constant(given), stack),
        Op::Ldc2(_) => push(given_constant(given), stack),
        Op::Cast { op, item: _ } => cast(*op, given_fit(given), stack),
        _ => unreachable!(),
    }
}

/// A local is read or written.
pub(crate) fn local(op: &Op, locals: &mut List<Value>, stack: &mut Operands) -> Moved
    requires family { family_of op.now ≡ Locals }
    requires can { CanMove (move_of op.now Nothing locals.old stack.old.values) stack.old }
    ensures moved { result ≡ moved_of (move_of op.now Nothing locals.old stack.old.values) }
    ensures locals { locals.new
        ≡ locals_after (move_of op.now Nothing locals.old stack.old.values) locals.old }
    ensures stack { stack.new
        ≡ stack_after (move_of op.now Nothing locals.old stack.old.values) stack.old }
{
    match op {
        Op::Load { op: _, local } => push(local_at(locals, *local), stack),
        Op::Store { op: _, local } => store(*local, locals, stack),
        Op::Iinc { local, by } => bump(*local, *by, locals, stack),
        _ => unreachable!(),
    }
}

/// Operands are moved about.
fn shuffle(op: &Op, stack: &mut Operands) -> Moved
    requires family { family_of op.now ≡ Shuffles }
    requires can { CanMove (move_on op.now stack.old.values) stack.old }
    ensures moved { result ≡ moved_of (move_on op.now stack.old.values) }
    ensures kept { KeepsLocals (move_on op.now stack.old.values) }
    ensures stack { stack.new ≡ stack_after (move_on op.now stack.old.values) stack.old }
{
    match op {
        Op::Pop(op) => pop(*op, stack),
        Op::Dup(op) => dup(*op, stack),
        Op::Swap => swap(stack),
        _ => unreachable!(),
    }
}

/// Numbers are computed.
fn number(op: &Op, stack: &mut Operands) -> Moved
    requires family { family_of op.now ≡ Numbers }
    requires can { CanMove (move_on op.now stack.old.values) stack.old }
    ensures moved { result ≡ moved_of (move_on op.now stack.old.values) }
    ensures kept { KeepsLocals (move_on op.now stack.old.values) }
    ensures stack { stack.new ≡ stack_after (move_on op.now stack.old.values) stack.old }
{
    match op {
        Op::Arith(op) => arith(*op, stack),
        Op::Divide(op) => divide(*op, stack),
        Op::Negate(_) => negate(stack),
        Op::Shift(op) => shift(*op, stack),
        Op::Bits(op) => bits(*op, stack),
        Op::Resize(op) => resize(*op, stack),
        Op::Lcmp => compare_longs(stack),
        _ => unreachable!(),
    }
}

/// Control goes elsewhere in the method, or may.
fn jump(op: &Op, stack: &mut Operands) -> Moved
    requires family { family_of op.now ≡ Jumps }
    requires can { CanMove (move_on op.now stack.old.values) stack.old }
    ensures moved { result ≡ moved_of (move_on op.now stack.old.values) }
    ensures kept { KeepsLocals (move_on op.now stack.old.values) }
    ensures stack { stack.new ≡ stack_after (move_on op.now stack.old.values) stack.old }
{
    match op {
        Op::IfZero { op, to } => branch_zero(*op, *to, stack),
        Op::IfInts { op, to } => branch_ints(*op, *to, stack),
        Op::IfRefs { op, to } => branch_refs(*op, *to, stack),
        Op::IfNull { op, to } => branch_null(*op, *to, stack),
        Op::Goto(to) => Moved::At(*to),
        Op::TableSwitch {
            other,
            low,
            high,
            to,
        } => switch_table(*other, *low, *high, to.as_slice(), stack),
        Op::LookupSwitch { other, pairs } => switch_pairs(*other, pairs.as_slice(), stack),
        _ => unreachable!(),
    }
}

/// An array is asked for, or something of one.
pub(crate) fn array(op: &Op, stack: &Operands) -> Moved
    requires family { family_of op.now ≡ Arrays }
    requires can { IsDefined (move_on op.now stack.now.values) }
    ensures moved { result ≡ moved_of (move_on op.now stack.now.values) }
    ensures kept { KeepsLocals (move_on op.now stack.now.values) }
    ensures values { values_after (move_on op.now stack.now.values) stack.now.values
        ≡ stack.now.values }
{
    match op {
        Op::ArrayLoad(_) => ask(1, stack),
        Op::ArrayStore(_) => ask(2, stack),
        Op::ArrayLength => ask(0, stack),
        Op::NewArray(_) => sizes(1, stack),
        Op::AnewArray(_) => sizes(1, stack),
        Op::MultiNewArray { item: _, dims } => sizes(*dims, stack),
        _ => unreachable!(),
    }
}

/// A field, an object or a lock is asked for.
pub(crate) fn object(op: &Op, stack: &Operands) -> Moved
    requires family { family_of op.now ≡ Objects }
    requires can { IsDefined (move_on op.now stack.now.values) }
    ensures moved { result ≡ moved_of (move_on op.now stack.now.values) }
    ensures kept { KeepsLocals (move_on op.now stack.now.values) }
    ensures values { values_after (move_on op.now stack.now.values) stack.now.values
        ≡ stack.now.values }
{
    match op {
        Op::Static {
            op: _,
            item: _,
            desc: _,
        } => Moved::Elsewhere(Pure::Heap),
        Op::Field {
            op,
            item: _,
            desc: _,
        } => field(*op, stack),
        Op::New(_) => Moved::Elsewhere(Pure::Heap),
        Op::Monitor(_) => ask(0, stack),
        _ => unreachable!(),
    }
}

/// A method is called or left.
pub(crate) fn way(op: &Op, stack: &Operands) -> Moved
    requires family { family_of op.now ≡ Ways }
    requires few { HasFewArguments op.now }
    requires can { IsDefined (move_on op.now stack.now.values) }
    ensures moved { result ≡ moved_of (move_on op.now stack.now.values) }
    ensures kept { KeepsLocals (move_on op.now stack.now.values) }
    ensures values { values_after (move_on op.now stack.now.values) stack.now.values
        ≡ stack.now.values }
{
    match op {
        Op::Invoke { op, item: _, desc } => call(*op, desc.get().args.len() as u32, stack),
        Op::Athrow => throw(stack),
        Op::Return(op) => Moved::Elsewhere(Pure::Leave(returned(*op, stack))),
        _ => unreachable!(),
    }
}

/// An instruction that looks at its operands alone.
pub(crate) fn on_operands(family: Family, op: &Op, stack: &mut Operands) -> Moved
    requires family { family ≡ family_of op.now }
    requires alone { IsOnOperands family }
    requires few { HasFewArguments op.now }
    requires can { CanMove (move_on op.now stack.old.values) stack.old }
    ensures moved { result ≡ moved_of (move_on op.now stack.old.values) }
    ensures kept { KeepsLocals (move_on op.now stack.old.values) }
    ensures stack { stack.new ≡ stack_after (move_on op.now stack.old.values) stack.old }
{
    match family {
        Family::Constants => constant(op, stack),
        Family::Shuffles => shuffle(op, stack),
        Family::Numbers => number(op, stack),
        Family::Jumps => jump(op, stack),
        Family::Arrays => array(op, stack),
        Family::Objects => object(op, stack),
        Family::Ways => way(op, stack),
        _ => unreachable!(),
    }
}
