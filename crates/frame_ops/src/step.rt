//! A step of a frame at its instruction, and what comes once it is answered.

ghost use Rattle.std.specs.Prelude.{◌≡◌, ◌≢◌, ◌≤◌, ◌==◌, ◌++◌, find, drop, length, slice_get, None};
ghost use Rattle.jvm_base.specs.Words.{from};
ghost use Rattle.std.specs.Option.{option_copied, option_to_list};
ghost use Rattle.frame_ops.specs.declared.answer.Pure.TheVariants.{Next};
ghost use Rattle.frame_ops.specs.Condition.{CanMove, stack_after};
ghost use Rattle.frame_ops.specs.Jumping.{moved_of, answer_of, address_after, locals_after};
ghost use Rattle.frame_ops.specs.Moves.{frame_after, pure_answer};
ghost use Rattle.frame_ops.specs.Running.Families.{family_of};
ghost use Rattle.frame_ops.specs.Running.Places.{if_there};
ghost use Rattle.frame_ops.specs.Stepping.{IsRising, HasFewArguments, CanRun, CanStep, CanTake, CanComplete, move_at, step_answer, step_frame, call_count, operand_count, placed_answered, completed, placed_in};
ghost use Rattle.frame_ops.specs.Table.{move_of};

use crate::answer::{Given, Pure};
use crate::families::{Family, family_of};
use crate::moved::Moved;
use crate::rows::{local, on_operands, told};
use code_table::{Code, Op, Placed, opcode};
use jvm_base::{Frame, List, MethodDesc, Operands, Value};

/// The place behind all instructions with lower addresses.
fn place_of(ops: &[Placed], at: u32) -> usize
    requires { IsRising ops.now }
    ensures { from None (if_there at) (slice_get ops.now result) ≡ find (λ p. p.at == at) ops.now }
{
    ops.partition_point(|placed| placed.at < at)
}

/// The same place, where this one is tried before a search.
fn place_near(ops: &[Placed], at: u32, near: usize) -> usize
    requires { IsRising ops.now }
    ensures { from None (if_there at) (slice_get ops.now result) ≡ find (λ p. p.at == at) ops.now }
{
    match ops.get(near) {
        Some(placed) if placed.at == at => near,
        _ => place_of(ops, at),
    }
}

/// The instruction of a place, where it has the address.
fn placed_here(ops: &[Placed], place: usize, at: u32) -> Option<&Placed>
    ensures { option_copied result ≡ from None (if_there at) (slice_get ops.now place) }
{
    let placed = ops.get(place)?;
    if placed.at == at { Some(placed) } else { None }
}

/// The instruction at an address; `None` exactly where none begins there.
pub fn placed_at(code: &Code, at: u32) -> Option<&Placed>
    requires { IsRising code.now.ops }
    ensures { option_copied result ≡ placed_in code.now at }
{
    let ops = code.ops.as_slice();
    placed_here(ops, place_of(ops, at), at)
}

/// The same, where the place is tried before a search, and is left one further: most instructions
/// lead to the one behind them.
pub fn placed_near<'a>(code: &'a Code, at: u32, place: &mut usize) -> Option<&'a Placed>
    requires { IsRising code.now.ops }
    ensures { option_copied result ≡ placed_in code.now at }
{
    let ops = code.ops.as_slice();
    let here = place_near(ops, at, *place);
    *place = here.wrapping_add(1);
    placed_here(ops, here, at)
}

/// What an instruction comes to, by its family, with its locals and operands as it leaves them.
#[tactic(auto, using(crate::proofs::FamilyLaws::on_operands_alone, crate::proofs::FamilyLaws::told_alone, crate::proofs::FamilyLaws::locals_alone))]
fn run(op: &Op, given: Given, locals: &mut List<Value>, stack: &mut Operands) -> Moved
    requires few { HasFewArguments op.now }
    requires can { CanMove (move_of op.now given locals.old stack.old.values) stack.old }
    ensures moved { result ≡ moved_of (move_of op.now given locals.old stack.old.values) }
    ensures locals { locals.new
        ≡ locals_after (move_of op.now given locals.old stack.old.values) locals.old }
    ensures stack { stack.new
        ≡ stack_after (move_of op.now given locals.old stack.old.values) stack.old }
{
    match family_of(op) {
        Family::Told => told(op, given, stack),
        Family::Locals => local(op, locals, stack),
        family => on_operands(family, op, stack),
    }
}

/// Control goes where an instruction leads.
fn follow(moved: Moved, next: u32, frame: &mut Frame) -> Pure
    ensures answer { result ≡ answer_of moved }
    ensures frame { frame.new ≡ record frame.old { at = address_after moved next frame.old.at } }
{
    match moved {
        Moved::Behind => {
            frame.at = next;
            Pure::Next
        }
        Moved::At(to) => {
            frame.at = to;
            Pure::Next
        }
        Moved::Elsewhere(answer) => answer,
    }
}

/// A step at an instruction that was found. It takes no memory.
pub fn step_at(placed: &Placed, frame: &mut Frame, given: Given) -> Pure
    requires { CanRun placed.now given frame.old }
    ensures answer { result ≡ pure_answer (move_at placed.now given frame.old) }
    ensures frame { frame.new
        ≡ frame_after (move_at placed.now given frame.old) placed.now.next frame.old }
    ensures kept { result ≢ Next → frame.new ≡ frame.old }
{
    let moved = run(&placed.op, given, &mut frame.locals, &mut frame.stack);
    follow(moved, placed.next, frame)
}

/// A step of a frame with this code (JVMS2 6). It takes no memory.
pub fn pure_step(code: &Code, frame: &mut Frame, given: Given) -> Pure
    requires rising { IsRising code.now.ops }
    requires can { CanStep code.now given frame.old }
    ensures answer { result ≡ step_answer code.now given frame.old }
    ensures frame { frame.new ≡ step_frame code.now given frame.old }
    ensures kept { result ≢ Next → frame.new ≡ frame.old }
{
    match placed_at(code, frame.at) {
        Some(placed) => step_at(placed, frame, given),
        None => unreachable!(),
    }
}

/// How many values a call takes: the receiver, where there is one, and the arguments.
pub fn call_count(op: u8, desc: &MethodDesc) -> u32
    requires { length desc.now.args ≤ 255 }
    ensures { result ≡ call_count op desc.now }
{
    let arguments = desc.args.len() as u32;
    if op == opcode::INVOKESTATIC {
        arguments
    } else {
        arguments + 1
    }
}

/// How many operands an instruction takes that is answered from outside.
fn operand_count(op: &Op) -> u32
    requires { HasFewArguments op.now }
    ensures { result ≡ operand_count op.now }
{
    match op {
        Op::ArrayLoad(_) => 2,
        Op::ArrayStore(_) => 3,
        Op::Static {
            op,
            item: _,
            desc: _,
        } => { if *op == opcode::GETSTATIC { 0 } else { 1 } }
        Op::Field {
            op,
            item: _,
            desc: _,
        } => { if *op == opcode::GETFIELD { 1 } else { 2 } }
        Op::Invoke { op, item: _, desc } => call_count(*op, desc.get()),
        Op::New(_) => 0,
        Op::MultiNewArray { item: _, dims } => u32::from(*dims),
        _ => 1,
    }
}

/// Puts an answer, if any, in place of so many operands.
fn replace(count: u32, answer: Option<Value>, stack: &mut Operands)
    requires enough { count ≤ length stack.old.values }
    requires room { length (option_to_list answer ++ drop count stack.old.values) ≤ stack.old.room }
    ensures values { stack.new.values ≡ option_to_list answer ++ drop count stack.old.values }
    ensures room { stack.new.room ≡ stack.old.room }
{
    stack.take(count);
    if let Some(value) = answer {
        stack.push(value);
    }
}

/// The answer of an instruction that was found is put in place of its operands, and the frame goes
/// on behind it. It takes no memory.
pub fn complete_at(placed: &Placed, frame: &mut Frame, answer: Option<Value>)
    requires { CanTake placed.now answer frame.old }
    ensures { frame.new ≡ placed_answered placed.now answer frame.old }
{
    replace(operand_count(&placed.op), answer, &mut frame.stack);
    frame.at = placed.next;
}

/// The answer of a frame's instruction is put in place of its operands, and the frame goes on behind
/// it. It takes no memory.
pub fn complete(code: &Code, frame: &mut Frame, answer: Option<Value>)
    requires rising { IsRising code.now.ops }
    requires can { CanComplete code.now answer frame.old }
    ensures { frame.new ≡ completed code.now answer frame.old }
{
    match placed_at(code, frame.at) {
        Some(placed) => complete_at(placed, frame, answer),
        None => unreachable!(),
    }
}
