//! Rows of tables: `1 2 iadd -> 3`. A row is
//!
//! - locals with `|` behind them, if any, as in `7 @1 | iload_0 -> 7 @1 | 7`;
//! - operands, the newest last;
//! - an instruction with its bytes in hexadecimal, as `bipush.80`;
//! - what the program tells, as `fits`, `fails` or a constant, or the answer that is put, if any;
//! - ` -> ` and what comes of it: the locals, if any were given, and the operands, then `to` with the
//!   address where control jumped, or `on` where there is nothing of that; or the fault; or what the
//!   frame asks, calls, throws or leaves with.
//!
//! Lines without an arrow are comments.

ghost use Rattle.frame_ops.specs.Stepping.{IsRising};
ghost use Rattle.frame_ops_tests.specs.Room.{HasRoom};

use crate::code::{AT, code_of};
use crate::frames::frame_of;
use crate::steps::{answered, step};
use crate::words::{answer, push_value, value_of, values};
use code_table::{Code, CodeErr};
use frame_ops::{Given, Pure, placed_at};
use jvm_base::{Frame, List, NoMemory, Value};
use std::alloc::Global;
use std::test::Fail;

/// The left side of a row.
#[derive(Drop)]
struct Row<'a> {
    locals: Option<List<Value>>,
    operands: List<Value>,
    instruction: Option<&'a str>,
    given: Given,
}

fn read_row<'a>(alloc: Global, text: &'a str) -> Result<Row<'a>, NoMemory> {
    let mut row = Row {
        locals: None,
        operands: List::new(alloc),
        instruction: None,
        given: Given::Nothing,
    };
    for word in text.split_whitespace() {
        match (word, value_of(word)) {
            ("|", _) => {
                row.locals = Some(row.operands);
                row.operands = List::new(alloc);
            }
            ("fits", _) => row.given = Given::Fits(true),
            ("fails", _) => row.given = Given::Fits(false),
            (_, Some(value)) if row.instruction.is_none() => row.operands.push(value)?,
            (_, Some(value)) => row.given = Given::Constant(value),
            (_, None) => row.instruction = Some(word),
        }
    }
    Ok(row)
}

/// How the instruction of a row is run: by itself, or by its answer.
#[derive(Clone, Copy)]
pub(crate) enum Run {
    Alone,
    Answered,
}

/// What the instruction of a frame comes to; `None` where the frame lacks what that takes.
fn comes_to(how: Run, code: &Code, frame: &mut Frame, given: Given) -> Option<Pure>
    requires rising { IsRising code.now.ops }
    requires room { HasRoom frame.old.stack }
{
    match (how, given) {
        (Run::Alone, given) => step(code, frame, given),
        (Run::Answered, Given::Constant(value)) => answered(code, frame, Some(value)),
        (Run::Answered, _) => answered(code, frame, None),
    }
}

/// The locals, if they are told, the operands, and where control went, if that isn't `next`.
fn state(alloc: Global, frame: &Frame, next: u32, with_locals: bool) -> Result<String, NoMemory> {
    let mut text = String::new(alloc);
    if with_locals {
        text = values(alloc, &frame.locals)?;
        text.push_str("| ")?;
    }
    for depth in 0..20u32 {
        if let Some(value) = frame.stack.get(19 - depth) {
            push_value(alloc, &mut text, value)?;
        }
    }
    if frame.at != next {
        let to = format!(in alloc; "to {}", frame.at)?;
        text.push_str(to.as_str())?;
    }
    if text.is_empty() {
        text.push_str("on")?;
    }
    Ok(text)
}

/// What comes of a row with this code.
fn outcome(alloc: Global, code: &Code, row: Row, how: Run) -> Result<String, NoMemory>
    requires { IsRising code.now.ops }
{
    let next = match placed_at(code, AT) {
        Some(placed) => placed.next,
        None => return Ok(String::from_str(alloc, "no instruction")?),
    };
    let with_locals = row.locals.is_some();
    let locals = row.locals.unwrap_or(List::new(alloc));
    let mut frame = frame_of(alloc, AT, locals, row.operands.as_slice())?;
    match comes_to(how, code, &mut frame, row.given) {
        None => Ok(String::from_str(alloc, "lacks operands")?),
        Some(Pure::Next) => state(alloc, &frame, next, with_locals),
        Some(other) => answer(alloc, other),
    }
}

/// What comes of the left side of a row.
fn found(alloc: Global, text: &str, how: Run) -> Result<String, NoMemory> {
    let row = read_row(alloc, text)?;
    let Some(instruction) = row.instruction else {
        return Ok(String::from_str(alloc, "no instruction")?);
    };
    match code_of(alloc, instruction) {
        Ok(code) => outcome(alloc, &code, row, how),
        Err(CodeErr::NoMemory) => Err(NoMemory),
        Err(why) => Ok(format!(in alloc; "no code, {why}")?),
    }
}

/// The first row of the table of which something else comes, with that.
pub(crate) fn wrong_row(alloc: Global, table: &str, how: Run) -> Result<Option<String>, NoMemory> {
    for row in table.lines() {
        if let Some((text, want)) = row.split_once(" -> ") {
            let got = found(alloc, text, how)?;
            if got.trim() != want {
                return Ok(Some(format!(in alloc; "{row} (got: {got})")?));
            }
        }
    }
    Ok(None)
}

#[test]
fn wrong_rows_are_told(rt: HostRuntime) -> Result<(), Fail> {
    let told = [
        (
            "1 2 iadd -> 3\n# 1 2\n1 2 iadd -> 4",
            "1 2 iadd -> 4 (got: 3 )",
        ),
        ("1 iadd -> 1", "1 iadd -> 1 (got: lacks operands)"),
        ("1 2L iadd -> 3", "1 2L iadd -> 3 (got: lacks operands)"),
        ("1 fadd -> 3", "1 fadd -> 3 (got: no code, left-out-op 4)"),
        ("1 2 -> 3", "1 2 -> 3 (got: no instruction)"),
    ];
    for (table, want) in told {
        let row = wrong_row(rt.alloc(), table, Run::Alone)?;
        assert_eq!(rt; row.as_ref().map(|row| row.as_str()), Some(want));
    }
    Ok(())
}
