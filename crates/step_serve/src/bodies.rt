//! Fields, elements and lengths.

ghost use Rattle.std.specs.Prelude.{◌≡◌, ◌<◌, Some, length, option_map, IfOk};
ghost use Rattle.jvm_base.specs.declared.name.Name.{Name as AnyName};
ghost use Rattle.jvm_base.specs.declared.value.ObjectBody.TheVariants as object;
ghost use Rattle.program_image.specs.Subclass.{part_of};
ghost use Rattle.machine_state.specs.Bodies.{count_value, element_at, takes_value, get, put, load, store, len};
ghost use Rattle.machine_state.specs.State.{Heap};
ghost use Rattle.step_serve.specs.Blank.{AreBlanks};
ghost use Rattle.step_serve.specs.Cells.{lent_body};
ghost use Rattle.step_serve.specs.Elements.{stored};
ghost use Rattle.machine_state.specs.Deeds.{Deed};
ghost use Rattle.machine_state.specs.declared.request.Answer.TheVariants.{Gives};
ghost use Rattle.machine_state.specs.declared.served.Effects.TheVariants.{Nothing};
ghost use Rattle.step_serve.specs.Telling.{IsPlain, Tells, TellsOf, TellsSome};

use crate::boot::{ARRAY_INDEX, ARRAY_STORE};
use crate::cell::BodyRef;
use crate::faults::{Server, fault};
use crate::names::Names;
use crate::telling::{changing, quiet};
use jvm_base::{Name, NoMemory, Value};
use machine_state::{Effect, Served, Wish};
use program_image::Image;
use program_reads::is_sub;
use std::alloc::Global;

/// A count as an int: its low 32 bits.
pub(crate) fn count_value(count: usize) -> Value
    ensures { result ≡ count_value count }
{
    let low = (count % 4_294_967_296) as u32;
    Value::Int(low.cast_signed())
}

/// A field is read; one that isn't there isn't served.
fn get_field(wish: Wish, place: u32, fields: &[Value]) -> Option<Served>
    ensures { (heap : Heap) (n : AnyName)
        → TellsOf heap wish (λ c. get n place (Some (object.Fields fields.now))) result }
{
    match fields.get(place as usize) {
        Some(value) => Some(quiet(wish, Some(*value))),
        None => None,
    }
}

/// A field is read; what has none isn't served.
pub(crate) fn get(wish: Wish, place: u32, body: Option<BodyRef<'_>>) -> Option<Served>
    ensures { (heap : Heap) (n : AnyName)
        → TellsOf heap wish (λ c. get n place (option_map lent_body body.entry)) result }
{
    match body {
        Some(body) => match body {
            BodyRef::Fields(fields) => get_field(wish, place, fields),
            _ => None,
        },
        None => None,
    }
}

/// A field is written; one that isn't there isn't served.
pub(crate) fn put(
    wish: Wish,
    name: Name,
    place: u32,
    value: Value,
    body: Option<BodyRef<'_>>,
) -> Option<Served>
    ensures { (heap : Heap)
        → TellsOf heap wish (λ c. put name place value (option_map lent_body body.entry)) result }
{
    match body {
        Some(BodyRef::Fields(fields)) if (place as usize) < fields.len() => {
            Some(changing(wish, Effect::SetsField(name, place, value)))
        }
        _ => None,
    }
}

/// The element at an index.
fn element_at(index: i32, elements: &[Value]) -> Option<Value>
    ensures { result ≡ element_at index elements.now }
{
    if index < 0 {
        None
    } else {
        elements.get(index.unsigned_abs() as usize).copied()
    }
}

/// An element is read; an index out of range raises.
fn load_element<N: Names>(
    alloc: Global,
    server: &Server<N>,
    index: i32,
    elements: &[Value],
) -> Result<Served, NoMemory>
    requires { AreBlanks server.now.image.now server.now.blanks.now }
    ensures { IfOk result
        (λ s. (n : AnyName) → TellsSome (N.heap server.now.names.now) server.now.wish
        (load server.now.image.now s.choice.name n index (Some (object.Array elements.now))) s) }
{
    match element_at(index, elements) {
        Some(value) => Ok(quiet(server.wish, Some(value))),
        None => fault(alloc, server, ARRAY_INDEX),
    }
}

/// An element is read; what is no array isn't served.
pub(crate) fn load<N: Names>(
    alloc: Global,
    server: &Server<N>,
    index: i32,
    body: Option<BodyRef<'_>>,
) -> Result<Option<Served>, NoMemory>
    requires { AreBlanks server.now.image.now server.now.blanks.now }
    ensures { IfOk result
        (λ served. (n : AnyName) → TellsOf (N.heap server.now.names.now) server.now.wish
        (λ c. load server.now.image.now c.name n index (option_map lent_body body.entry)) served) }
{
    match body {
        Some(BodyRef::Array(elements)) => {
            Ok(Some(load_element(alloc, server, index, elements)?))
        }
        _ => Ok(None),
    }
}

/// The class of an array's parts, where they are references.
pub(crate) fn part(image: &Image, class: u32) -> Option<u32>
    ensures { result ≡ part_of image.now.classes class }
{
    if class >= image.classes() {
        return None;
    }
    match &image.class(class).array {
        Some(array) => array.part,
        None => None,
    }
}

/// Whether an array of the class takes the value. The parts of arrays are among an image's classes, so
/// there is no want of memory here.
fn takes_value(image: &Image, class: u32, value: Value) -> Result<bool, NoMemory>
    ensures { IfOk result (λ takes. takes ≡ takes_value image.now class value) }
{
    match value {
        Value::Ref(name) => match part(image, class) {
            Some(part) if part < image.classes() => Ok(is_sub(image, name.class, part)),
            Some(_) => Err(NoMemory),
            None => Ok(false),
        },
        _ => Ok(true),
    }
}

/// An element that is there is written, unless the array doesn't take the value.
fn set_element<N: Names>(
    alloc: Global,
    server: &Server<N>,
    name: Name,
    index: i32,
    value: Value,
) -> Result<Served, NoMemory>
    requires { AreBlanks server.now.image.now server.now.blanks.now }
    ensures { IfOk result (λ s. Tells (N.heap server.now.names.now) server.now.wish
        (stored server.now.image.now s.choice.name name index value (takes_value server.now.image.now name.class value)) s) }
{
    let takes = takes_value(server.image, name.class, value)?;
    if takes {
        let effect = Effect::SetsElement(name, index.unsigned_abs(), value);
        Ok(changing(server.wish, effect))
    } else {
        fault(alloc, server, ARRAY_STORE)
    }
}

/// An element is written; an index out of range raises, then a value that the array doesn't take.
fn store_element<N: Names>(
    alloc: Global,
    server: &Server<N>,
    name: Name,
    index: i32,
    value: Value,
    elements: &[Value],
) -> Result<Served, NoMemory>
    requires { AreBlanks server.now.image.now server.now.blanks.now }
    ensures { IfOk result (λ s. TellsSome (N.heap server.now.names.now) server.now.wish
        (store server.now.image.now s.choice.name name index value (Some (object.Array elements.now))) s) }
{
    match element_at(index, elements) {
        None => fault(alloc, server, ARRAY_INDEX),
        Some(_) => set_element(alloc, server, name, index, value),
    }
}

/// An element is written; what is no array isn't served.
pub(crate) fn store<N: Names>(
    alloc: Global,
    server: &Server<N>,
    name: Name,
    index: i32,
    value: Value,
    body: Option<BodyRef<'_>>,
) -> Result<Option<Served>, NoMemory>
    requires { AreBlanks server.now.image.now server.now.blanks.now }
    ensures { IfOk result (λ served. TellsOf (N.heap server.now.names.now) server.now.wish
        (λ c. store server.now.image.now c.name name index value (option_map lent_body body.entry)) served) }
{
    match body {
        Some(BodyRef::Array(elements)) => {
            Ok(Some(store_element(alloc, server, name, index, value, elements)?))
        }
        _ => Ok(None),
    }
}

/// What is told of a deed that answers a count and changes nothing.
pub(crate) fn counted(wish: Wish, count: usize) -> Served
    ensures { (heap : Heap) (d : Deed) → IsPlain heap Nothing (Gives (Some (count_value count))) d
        → Tells heap wish d result }
{
    quiet(wish, Some(count_value(count)))
}

/// The length of an array.
pub(crate) fn len(wish: Wish, body: Option<BodyRef<'_>>) -> Option<Served>
    ensures { (heap : Heap)
        → TellsOf heap wish (λ c. len (option_map lent_body body.entry)) result }
{
    match body {
        Some(body) => match body {
            BodyRef::Array(elements) => Some(counted(wish, elements.len())),
            _ => None,
        },
        None => None,
    }
}
