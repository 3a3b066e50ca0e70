//! Buffers of text.

ghost use Rattle.std.specs.Prelude.{◌≡◌, Some, option_map, IfOk};
ghost use Rattle.jvm_base.specs.declared.value.ObjectBody.TheVariants as object;
ghost use Rattle.program_image.specs.Buffers.{is_buffer};
ghost use Rattle.machine_state.specs.Bodies.{appended, buffer, buffer_by};
ghost use Rattle.machine_state.specs.State.{body_at};
ghost use Rattle.step_serve.specs.Cells.{lent_body};
ghost use Rattle.step_serve.specs.Telling.{Tells, TellsOf};

use crate::bodies::counted;
use crate::boot::{BUFFER_LENGTH, BUFFER_OF, BUFFER_TEXT, NEW_BUFFER, STRING_BUFFER};
use crate::cell::BodyRef;
use crate::faults::{Server, text};
use crate::names::Names;
use crate::telling::{plain, quiet};
use jvm_base::{Name, NoMemory, Units, Value};
use machine_state::{Answer, Effect, Effects, Served};
use std::alloc::Global;

/// What an append answers: the buffer, but nothing where a constructor appends.
fn appended(name: Name, method: u8) -> Option<Value>
    ensures { result ≡ appended name method }
{
    if method == BUFFER_OF {
        None
    } else {
        Some(Value::Ref(name))
    }
}

/// A method of a buffer by its number, with the buffer's content.
fn by_method<N: Names>(
    alloc: Global,
    server: &Server<N>,
    name: Name,
    method: u8,
    units: Units,
    content: &[u16],
) -> Result<Served, NoMemory>
    ensures { IfOk result
        (λ s. body_at (N.heap server.now.names.now) name ≡ Some (object.Text content.now)
        → Tells (N.heap server.now.names.now) server.now.wish (buffer_by s.choice.name name method units content.now) s) }
{
    if method == NEW_BUFFER {
        return Ok(quiet(server.wish, None));
    }
    if method == BUFFER_TEXT {
        return Ok(text(server, Units::from_slice(alloc, content)?));
    }
    if method == BUFFER_LENGTH {
        return Ok(counted(server.wish, content.len()));
    }
    let answer = Answer::Gives(appended(name, method));
    Ok(plain(
        server.wish,
        Effects::One(Effect::Appends(name, units)),
        answer,
    ))
}

/// A method of a buffer is called; what is no buffer isn't served.
pub(crate) fn buffer<N: Names>(
    alloc: Global,
    server: &Server<N>,
    name: Name,
    method: u8,
    units: Units,
    body: Option<BodyRef<'_>>,
) -> Result<Option<Served>, NoMemory>
    ensures { IfOk result
        (λ served. body_at (N.heap server.now.names.now) name ≡ option_map lent_body body.entry
        → TellsOf (N.heap server.now.names.now) server.now.wish
        (λ c. buffer c.name name method units (option_map lent_body body.entry)) served) }
{
    match body {
        Some(BodyRef::Text(content)) if name.class == STRING_BUFFER => {
            Ok(Some(by_method(alloc, server, name, method, units, content)?))
        }
        _ => Ok(None),
    }
}
