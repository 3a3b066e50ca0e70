//! Calls and what ends them.

ghost use Rattle.std.specs.Prelude.{◌≡◌, ◌≢◌, ◌<◌, true, false, Some, None, Ok, reverse, vec_len, vec_capacity, OnOk};
ghost use Rattle.jvm_base.specs.Tops.{below};
ghost use Rattle.machine_state.specs.declared.state.Mode.TheVariants.{Running};
ghost use Rattle.machine_state.specs.Complete.{answer_top};
ghost use Rattle.machine_state.specs.Frames.{called};
ghost use Rattle.program_reads.specs.Whole.{IsWhole};
ghost use Rattle.step_complete.specs.Condition.{CanTurn};
ghost use Rattle.step_complete.specs.declared.turns.Turn.TheVariants as turn;

use crate::frames::new_frame;
use crate::turns::{Turn, turn_top};
use jvm_base::{Level, NoMemory, Value};
use program_image::Image;
use std::alloc::Global;

/// Makes room for one level more.
pub fn reserve_level(levels: &mut Vec<Level>) -> Result<(), NoMemory>
    ensures same { levels.new.items ≡ levels.old.items }
    ensures room { OnOk result (vec_len levels.new < vec_capacity levels.new) }
{
    levels.reserve(1)?;
    Ok(())
}

/// Calls a method with these values; false exactly where it has no code, and then nothing changes.
pub fn call(
    alloc: Global,
    image: &Image,
    method: u32,
    values: &[Value],
    levels: &mut Vec<Level>,
) -> Result<bool, NoMemory>
    requires whole { IsWhole image.now }
    ensures made { result ≡ Ok true → called image.now method values.now (reverse levels.old.items)
        ≡ Some (Running, reverse levels.new.items) }
    ensures none { result ≡ Ok false → called image.now method values.now (reverse levels.old.items)
        ≡ None }
    ensures same { result ≢ Ok true → levels.new.items ≡ levels.old.items }
{
    let frame = match new_frame(alloc, image, method, values)? {
        Some(frame) => frame,
        None => return Ok(false),
    };
    reserve_level(levels)?;
    turn_top(image, Turn::Notes, levels);
    levels.push_reserved(Level::Code(frame));
    Ok(true)
}

/// The top frame goes, and the one below goes on with its result. It takes no memory.
pub fn leave(image: &Image, value: Option<Value>, levels: &mut Vec<Level>)
    requires whole { IsWhole image.now }
    requires can { CanTurn image.now (turn.Answers value) (below (reverse levels.old.items)) }
    ensures { reverse levels.new.items
        ≡ answer_top image.now value (below (reverse levels.old.items)) }
{
    drop_top(levels);
    turn_top(image, Turn::Answers(value), levels);
}

/// The top level goes, if there is one.
pub fn drop_top(levels: &mut Vec<Level>)
    ensures { reverse levels.new.items ≡ below (reverse levels.old.items) }
{
    levels.pop();
}
