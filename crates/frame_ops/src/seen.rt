//! What comes of a frame's instruction, seen before it is done.

ghost use Rattle.std.specs.Prelude.{◌≡◌, []};
ghost use Rattle.frame_ops.specs.declared.families.Family.TheVariants.{Told, Numbers};
ghost use Rattle.frame_ops.specs.Condition.{IsDefined};
ghost use Rattle.frame_ops.specs.Jumping.{answer_of};
ghost use Rattle.frame_ops.specs.Moves.{pure_answer};
ghost use Rattle.frame_ops.specs.Numbers.{division};
ghost use Rattle.frame_ops.specs.Operands.{divides, casts};
ghost use Rattle.frame_ops.specs.Running.Families.{family_of, move_on};
ghost use Rattle.frame_ops.specs.Stepping.{HasFewArguments, CanRun, move_at};
ghost use Rattle.frame_ops.specs.Table.{move_of};

use crate::answer::{Fault, Given, Pure};
use crate::families::{Family, family_of};
use crate::moved::Moved;
use crate::operands::is_zero;
use crate::rows::{array, given_fit, object, way};
use code_table::{Op, Placed, opcode};
use jvm_base::{Frame, List, Operands, Value};

/// A division raises where the divisor is 0.
#[tactic(auto, using(crate::proofs::GoingOn::division_seen))]
fn division_answer(op: u8, stack: &Operands) -> Pure
    ensures { result ≡ pure_answer (divides op (division op) stack.now.values) }
{
    match stack.get(0) {
        Some(b) if is_zero(b) => Pure::Raise(Fault::Arithmetic),
        _ => Pure::Next,
    }
}

/// `checkcast` raises where an object is of another class.
fn cast_answer(op: u8, fits: bool, stack: &Operands) -> Pure
    ensures { result ≡ pure_answer (casts op fits stack.now.values) }
{
    match stack.get(0) {
        None | Some(Value::Null) => Pure::Next,
        Some(_) if op == opcode::CHECKCAST && !fits => Pure::Raise(Fault::ClassCast),
        Some(_) => Pure::Next,
    }
}

/// What comes of an instruction to which the program tells something.
fn told_answer(op: &Op, given: Given, stack: &Operands) -> Pure
    requires { family_of op.now ≡ Told }
    ensures { result ≡ pure_answer (move_of op.now given [] stack.now.values) }
{
    match op {
        Op::Ldc(_) | Op::Ldc2(_) => Pure::Next,
        Op::Cast { op, item: _ } => cast_answer(*op, given_fit(given), stack),
        _ => unreachable!(),
    }
}

/// What comes of an instruction that computes numbers.
#[tactic(auto, using(crate::proofs::GoingOn::number_goes_on))]
fn number_answer(op: &Op, stack: &Operands) -> Pure
    requires { family_of op.now ≡ Numbers }
    ensures { result ≡ pure_answer (move_on op.now stack.now.values) }
{
    match op {
        Op::Divide(op) => division_answer(*op, stack),
        _ => Pure::Next,
    }
}

fn answer_of(moved: Moved) -> Pure
    ensures { result ≡ answer_of moved }
{
    match moved {
        Moved::Elsewhere(answer) => answer,
        _ => Pure::Next,
    }
}

/// What comes of an instruction, by its family. All others go on.
#[tactic(auto, using(crate::proofs::GoingOn::goes_on, crate::proofs::FamilyLaws::told_alone, crate::proofs::FamilyLaws::on_operands_alone))]
fn answer(op: &Op, given: Given, locals: &List<Value>, stack: &Operands) -> Pure
    requires few { HasFewArguments op.now }
    requires can { IsDefined (move_of op.now given locals.now stack.now.values) }
    ensures { result ≡ pure_answer (move_of op.now given locals.now stack.now.values) }
{
    match family_of(op) {
        Family::Told => told_answer(op, given, stack),
        Family::Numbers => number_answer(op, stack),
        Family::Arrays => answer_of(array(op, stack)),
        Family::Objects => answer_of(object(op, stack)),
        Family::Ways => answer_of(way(op, stack)),
        Family::Constants | Family::Locals | Family::Shuffles | Family::Jumps => Pure::Next,
    }
}

/// What a step at an instruction that was found would answer. It only reads.
pub fn answer_at(placed: &Placed, frame: &Frame, given: Given) -> Pure
    requires { CanRun placed.now given frame.now }
    ensures { result ≡ pure_answer (move_at placed.now given frame.now) }
{
    answer(&placed.op, given, &frame.locals, &frame.stack)
}
