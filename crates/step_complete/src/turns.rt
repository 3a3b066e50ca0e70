//! How the top level changes.

ghost use Rattle.std.specs.Prelude.{◌≡◌, ◌≢◌, ◌≤◌, [], ◌∷◌, reverse, vec_len, vec_capacity, None};
ghost use Rattle.jvm_base.specs.declared.frame.Level.TheVariants as level;
ghost use Rattle.frame_ops.specs.Operands.{returned};
ghost use Rattle.machine_state.specs.Complete.{left_by};
ghost use Rattle.machine_state.specs.Next.{answered};
ghost use Rattle.program_image.specs.Words.{instruction_at};
ghost use Rattle.program_reads.specs.Whole.{IsWhole};
ghost use Rattle.step_complete.specs.Condition.{TakesAnswer, CanTurnFrame, CanTurn};
ghost use Rattle.step_complete.specs.declared.turns.Turn.TheVariants as turn;
ghost use Rattle.step_complete.specs.Turns.{frame_stepped, frame_caught, turned};

use code_table::{Op, opcode};
use frame_ops::{Given, complete_at, step_at};
use jvm_base::{Frame, Level, Name, Phase, Value};
use program_image::Image;
use program_reads::instruction_at;

/// A change of the top level. Its frame's instruction is answered; a lock is entered for the frame
/// itself or by its instruction; one is left by its instruction, or because an exception passes; an
/// initialisation notes that its initialiser was called; the frame moves as its instruction says;
/// it catches an exception at an address.
#[derive(Clone, Copy, Debug, PartialEq, Eq)]
pub enum Turn {
    Answers(Option<Value>),
    Enters,
    Leaves,
    Unlocks,
    Notes,
    Moves(Given),
    Catches { exception: Name, at: u32 },
}

/// The frame goes on with an answer.
fn answer(image: &Image, value: Option<Value>, frame: &mut Frame)
    requires whole { IsWhole image.now }
    requires takes { TakesAnswer image.now value frame.old }
    ensures { frame.new ≡ answered image.now value frame.old }
{
    if let Some(placed) = instruction_at(image, frame.method, frame.at) {
        complete_at(placed, frame, value);
    }
}

/// A lock is entered for the frame itself, or by its instruction.
fn enter(image: &Image, frame: &mut Frame)
    requires whole { IsWhole image.now }
    requires takes { CanTurnFrame image.now turn.Enters frame.old }
    ensures { level.Code frame.new ∷ [] ≡ turned image.now turn.Enters (level.Code frame.old ∷ []) }
{
    match frame.phase {
        Phase::Lock => frame.phase = Phase::Body,
        _ => answer(image, None, frame),
    }
}

/// What a return takes for its result.
fn returned(op: u8, frame: &Frame) -> Option<Value>
    ensures { result ≡ returned op frame.now.stack.values }
{
    if op == opcode::RETURN {
        None
    } else {
        frame.stack.get(0)
    }
}

/// A lock is left by a return, which keeps its value, or by another instruction.
fn leave(image: &Image, frame: &mut Frame)
    requires whole { IsWhole image.now }
    requires takes { CanTurnFrame image.now turn.Leaves frame.old }
    ensures { frame.new
        ≡ left_by image.now frame.old (instruction_at image.now frame.old.method frame.old.at) }
{
    match instruction_at(image, frame.method, frame.at) {
        None => {}
        Some(placed) => match &placed.op {
            Op::Return(op) => frame.phase = Phase::Unlock(returned(*op, frame)),
            _ => complete_at(placed, frame, None),
        },
    }
}

/// The frame moves as its instruction says.
fn advance(image: &Image, given: Given, frame: &mut Frame)
    requires whole { IsWhole image.now }
    requires runs { CanTurnFrame image.now (turn.Moves given) frame.old }
    ensures { frame.new ≡ frame_stepped image.now given frame.old }
{
    if let Some(placed) = instruction_at(image, frame.method, frame.at) {
        step_at(placed, frame, given);
    }
}

/// The frame goes on at a handler, with the exception alone.
fn catch_at(exception: Name, at: u32, frame: &mut Frame)
    requires { 1 ≤ frame.old.stack.room }
    ensures { frame.new ≡ frame_caught frame.old exception at }
{
    while let Some(_) = frame.stack.pop() {}
    frame.stack.push(Value::Ref(exception));
    frame.at = at;
}

fn turn_frame(image: &Image, turn: Turn, frame: &mut Frame)
    requires whole { IsWhole image.now }
    requires can { CanTurnFrame image.now turn frame.old }
    ensures { level.Code frame.new ∷ [] ≡ turned image.now turn (level.Code frame.old ∷ []) }
{
    match turn {
        Turn::Answers(value) => answer(image, value, frame),
        Turn::Enters => enter(image, frame),
        Turn::Leaves => leave(image, frame),
        Turn::Unlocks => frame.phase = Phase::Unlock(None),
        Turn::Notes => {}
        Turn::Moves(given) => advance(image, given, frame),
        Turn::Catches { exception, at } => catch_at(exception, at, frame),
    }
}

fn turn_level(image: &Image, turn: Turn, level: &mut Level)
    requires whole { IsWhole image.now }
    requires can { CanTurn image.now turn (level.old ∷ []) }
    ensures { level.new ∷ [] ≡ turned image.now turn (level.old ∷ []) }
{
    match level {
        Level::Code(frame) => turn_frame(image, turn, frame),
        Level::Init { class: _, begun } => {
            if let Turn::Notes = turn {
                *begun = true;
            }
        }
    }
}

/// Changes the top level, if there is one. It takes no memory.
pub fn turn_top(image: &Image, turn: Turn, levels: &mut Vec<Level>)
    requires whole { IsWhole image.now }
    requires can { CanTurn image.now turn (reverse levels.old.items) }
    ensures levels { reverse levels.new.items ≡ turned image.now turn (reverse levels.old.items) }
    ensures len { vec_len levels.new ≡ vec_len levels.old }
    ensures capacity { vec_capacity levels.new ≡ vec_capacity levels.old }
{
    if let Some(top) = levels.last_mut() {
        turn_level(image, turn, top);
    }
}
