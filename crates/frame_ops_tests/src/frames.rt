//! Frames at an instruction.

ghost use Rattle.std.specs.Prelude.{IfOk};
ghost use Rattle.frame_ops_tests.specs.Room.{HasRoom};

use jvm_base::{Frame, List, NoMemory, Operands, Phase, Value};
use std::alloc::Global;

/// How many operands a frame may be made with.
const MOST: usize = 100;

/// Operands, the newest last, with room for two more.
fn operands(alloc: Global, values: &[Value]) -> Result<Operands, NoMemory>
    ensures { IfOk result (λ stack. HasRoom stack) }
{
    if values.len() > MOST {
        return Err(NoMemory);
    }
    let mut stack = Operands::new(alloc, values.len() as u32 + 2)?;
    for value in values {
        stack.push(*value);
    }
    Ok(stack)
}

/// A frame at an address, with room for two operands more.
pub(crate) fn frame_of(
    alloc: Global,
    at: u32,
    locals: List<Value>,
    values: &[Value],
) -> Result<Frame, NoMemory>
    ensures { IfOk result (λ frame. HasRoom frame.stack) }
{
    Ok(Frame {
        method: 92,
        at,
        phase: Phase::Body,
        lock: None,
        locals,
        stack: operands(alloc, values)?,
    })
}
