//! Steps of frames that have what their instruction takes.

ghost use Rattle.std.specs.Prelude.{◌≡◌, ◌≤◌, IsTrue, length};
ghost use Rattle.frame_ops.specs.Stepping.{IsRising, HasFewArguments, CanRun, CanTake, operand_count};
ghost use Rattle.frame_ops_tests.specs.Kinds.{has_int, has_long, has_reference, has_number, takes};
ghost use Rattle.frame_ops_tests.specs.Room.{HasRoom};

use code_table::{Code, Op, Placed, opcode};
use frame_ops::{Given, Pure, complete, placed_at, pure_step};
use jvm_base::{Frame, List, Operands, Value};

fn is_int(value: Option<Value>) -> bool
    ensures { result ≡ has_int value }
{
    match value {
        Some(Value::Int(_)) => true,
        _ => false,
    }
}

fn is_long(value: Option<Value>) -> bool
    ensures { result ≡ has_long value }
{
    match value {
        Some(Value::Long(_)) => true,
        _ => false,
    }
}

fn is_reference(value: Option<Value>) -> bool
    ensures { result ≡ has_reference value }
{
    match value {
        Some(Value::Ref(_)) => true,
        Some(Value::Null) => true,
        _ => false,
    }
}

/// An int or a long, by the opcode: that of an instruction on ints is even, on longs odd (JVMS2 9).
fn is_number(op: u8, value: Option<Value>) -> bool
    ensures { result ≡ has_number op value }
{
    if op % 2 == 0 {
        is_int(value)
    } else {
        is_long(value)
    }
}

/// Whether the frame has the operands and the local that an instruction takes, each of its kind.
fn has_operands(op: &Op, locals: &List<Value>, stack: &Operands) -> bool
    requires { HasFewArguments op.now }
    ensures { result ≡ takes op.now locals.now stack.now.values }
{
    let (top, second) = (stack.get(0), stack.get(1));
    match op {
        Op::Arith(op) | Op::Divide(op) | Op::Bits(op) => {
            is_number(*op, top) && is_number(*op, second)
        }
        Op::Shift(op) => is_int(top) && is_number(*op, second),
        Op::Negate(_) | Op::Resize(_) => is_int(top) || is_long(top),
        Op::Lcmp => is_long(top) && is_long(second),
        Op::IfInts { .. } => is_int(top) && is_int(second),
        Op::IfZero { .. } | Op::TableSwitch { .. } | Op::LookupSwitch { .. } => is_int(top),
        Op::IfNull { .. } | Op::Store { .. } | Op::Cast { .. } => top.is_some(),
        Op::IfRefs { .. } => second.is_some(),
        Op::Iinc { local, .. } => is_int(locals.get(*local as usize).copied()),
        Op::ArrayLoad(_) => is_reference(second),
        Op::ArrayStore(_) => is_reference(stack.get(2)),
        Op::ArrayLength | Op::Athrow | Op::Monitor(_) => is_reference(top),
        Op::Field { op, .. } if *op == opcode::GETFIELD => is_reference(top),
        Op::Field { .. } => is_reference(second),
        Op::Invoke { op, .. } if *op == opcode::INVOKESTATIC => true,
        Op::Invoke { desc, .. } => is_reference(stack.get(desc.get().args.len() as u32)),
        _ => true,
    }
}

fn has_few_arguments(op: &Op) -> bool
    ensures { IsTrue result → HasFewArguments op.now }
{
    match op {
        Op::Invoke { desc, .. } => desc.get().args.len() <= 255,
        _ => true,
    }
}

/// Whether the frame has what an instruction takes.
#[tactic(auto, using(crate::proofs::KindLaws::can_move))]
fn can_run(placed: &Placed, given: Given, frame: &Frame) -> bool
    requires { HasRoom frame.now.stack }
    ensures { IsTrue result → CanRun placed.now given frame.now }
{
    has_few_arguments(&placed.op) && has_operands(&placed.op, &frame.locals, &frame.stack)
}

/// The step of a frame; `None` where it doesn't have what its instruction takes.
pub(crate) fn step(code: &Code, frame: &mut Frame, given: Given) -> Option<Pure>
    requires rising { IsRising code.now.ops }
    requires room { HasRoom frame.old.stack }
{
    let placed = placed_at(code, frame.at)?;
    if !can_run(placed, given, frame) {
        return None;
    }
    Some(pure_step(code, frame, given))
}

/// How many operands an instruction takes that is answered.
fn operand_count(op: &Op) -> u32
    requires { HasFewArguments op.now }
    ensures { result ≡ operand_count op.now }
{
    match op {
        Op::ArrayLoad(_) => 2,
        Op::ArrayStore(_) => 3,
        Op::Static { op, .. } => { if *op == opcode::GETSTATIC { 0 } else { 1 } }
        Op::Field { op, .. } => { if *op == opcode::GETFIELD { 1 } else { 2 } }
        Op::Invoke { op, desc, .. } => {
            desc.get().args.len() as u32 + if *op == opcode::INVOKESTATIC { 0 } else { 1 }
        }
        Op::New(_) => 0,
        Op::MultiNewArray { dims, .. } => u32::from(*dims),
        _ => 1,
    }
}

fn has_count(count: u32, stack: &Operands) -> bool
    ensures { IsTrue result → count ≤ length stack.now.values }
{
    count == 0 || stack.get(count - 1).is_some()
}

/// Whether the frame has the operands that an instruction takes that is answered.
fn can_take(placed: &Placed, answer: Option<Value>, frame: &Frame) -> bool
    requires { HasRoom frame.now.stack }
    ensures { IsTrue result → CanTake placed.now answer frame.now }
{
    has_few_arguments(&placed.op) && has_count(operand_count(&placed.op), &frame.stack)
}

/// Completes the instruction of a frame; `None` where it doesn't have what the instruction takes.
pub(crate) fn answered(code: &Code, frame: &mut Frame, answer: Option<Value>) -> Option<Pure>
    requires rising { IsRising code.now.ops }
    requires room { HasRoom frame.old.stack }
{
    let placed = placed_at(code, frame.at)?;
    if !can_take(placed, answer, frame) {
        return None;
    }
    complete(code, frame, answer);
    Some(Pure::Next)
}
