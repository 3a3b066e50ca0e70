//! What `new` and its like make.

ghost use Rattle.std.specs.Prelude.{◌≡◌, [], ◌∷◌, replicate, IfOk};
ghost use Rattle.jvm_base.specs.Names.{named};
ghost use Rattle.jvm_base.specs.declared.value.ObjectBody.TheVariants as object;
ghost use Rattle.machine_state.specs.Classes.{element_zero};
ghost use Rattle.machine_state.specs.Making.{making, made_objects, new_body};
ghost use Rattle.step_serve.specs.Blank.{AreBlanks};
ghost use Rattle.step_serve.specs.Telling.{Tells};

use crate::arrays::arrays;
use crate::blanks::element_zero;
use crate::boot::{STRING, STRING_BUFFER};
use crate::faults::Server;
use crate::names::Names;
use crate::telling::{making, making_choice};
use jvm_base::{List, Name, NoMemory, ObjectBody, Units, Value};
use machine_state::{Answer, Effect, Effects, Served};
use program_image::Image;
use std::alloc::Global;

/// A new object that is no array.
fn new_body<N: Names>(alloc: Global, server: &Server<N>, class: u32) -> Result<ObjectBody, NoMemory>
    requires { AreBlanks server.now.image.now server.now.blanks.now }
    ensures { IfOk result (λ body. body ≡ new_body server.now.image.now class) }
{
    if class == STRING_BUFFER || class == STRING {
        Ok(ObjectBody::Text(Units::new(alloc)))
    } else {
        Ok(ObjectBody::Fields(server.blanks.zeros(alloc, server.image, class)?))
    }
}

/// A new array whose elements are no arrays that are made with it.
pub(crate) fn flat_body(
    alloc: Global,
    image: &Image,
    class: u32,
    size: u32,
) -> Result<ObjectBody, NoMemory>
    ensures { IfOk result
        (λ body. body ≡ object.Array (replicate size (element_zero image.now class))) }
{
    let mut elements = Vec::new(alloc);
    elements.resize(size as usize, element_zero(image, class))?;
    Ok(ObjectBody::Array(List::from_vec(elements)))
}

/// One object is made and answered.
fn one<N: Names>(server: &Server<N>, class: u32, body: ObjectBody) -> Served
    ensures { Tells (N.heap server.now.names.now) server.now.wish
        (making result.choice.name ((named result.choice.name.node class result.choice.name.index, body) ∷ [])) result }
{
    let choice = making_choice(server.wish, class);
    let name = Name {
        node: choice.name.node,
        class,
        index: choice.name.index,
    };
    let effects = Effects::One(Effect::Made(name, body));
    let answer = Answer::Gives(Some(Value::Ref(choice.name)));
    making(server.names, choice, class, effects, answer)
}

/// An object of a class without sizes, else its arrays, the outermost first.
pub(crate) fn make<N: Names>(
    alloc: Global,
    server: &Server<N>,
    class: u32,
    sizes: &[u32],
) -> Result<Served, NoMemory>
    requires { AreBlanks server.now.image.now server.now.blanks.now }
    ensures { IfOk result (λ s. Tells (N.heap server.now.names.now) server.now.wish
        (making s.choice.name (made_objects server.now.image.now s.choice.name class sizes.now)) s) }
{
    match sizes {
        [] => Ok(one(server, class, new_body(alloc, server, class)?)),
        [size] => Ok(one(server, class, flat_body(alloc, server.image, class, *size)?)),
        [_, _, ..] => arrays(alloc, server, class, sizes),
    }
}
