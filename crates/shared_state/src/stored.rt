//! Objects as the heap keeps them.

ghost use Rattle.std.specs.Prelude.{◌≡◌, ◌++◌, slice_set, Some, None, IfOk, OnOk, OnErr, option_map};
ghost use Rattle.std.specs.Option.{option_copied};
ghost use Rattle.machine_state.specs.Changes.{with_field, with_element, with_content};
ghost use Rattle.machine_state.specs.Serving.{content_of};
ghost use Rattle.machine_state.specs.Step.{text_in};
ghost use Rattle.step_serve.specs.Cells.{lent_body};
ghost use Rattle.shared_state.specs.Stored.{stored_body};

use jvm_base::{List, NoMemory, ObjectBody, Value};
use std::alloc::Global;
use step_serve::BodyRef;

/// A body, whose text can grow in place.
#[derive(Drop)]
pub(crate) enum Stored {
    Fields(List<Value>),
    Array(List<Value>),
    Text(List<u16>),
}

/// A copy of units.
pub(crate) fn copied(alloc: Global, units: &[u16]) -> Result<List<u16>, NoMemory>
    ensures { IfOk result (λ list. list ≡ units.now) }
{
    Ok(List::from_vec(Vec::from_slice(alloc, units)?))
}

/// The body as it is kept. Only a text is copied.
pub(crate) fn keep(alloc: Global, body: ObjectBody) -> Result<Stored, NoMemory>
    ensures { IfOk result (λ kept. stored_body kept ≡ body) }
{
    match body {
        ObjectBody::Fields(values) => Ok(Stored::Fields(values)),
        ObjectBody::Array(values) => Ok(Stored::Array(values)),
        ObjectBody::Text(text) => Ok(Stored::Text(copied(alloc, text.as_slice())?)),
    }
}

/// The body, lent.
pub(crate) fn lend(body: &Stored) -> BodyRef<'_>
    ensures { lent_body result ≡ stored_body body.now }
{
    match body {
        Stored::Fields(values) => BodyRef::Fields(values.as_slice()),
        Stored::Array(values) => BodyRef::Array(values.as_slice()),
        Stored::Text(text) => BodyRef::Text(text.as_slice()),
    }
}

/// The content of a String or buffer.
pub(crate) fn content(body: &Stored) -> Option<&[u16]>
    ensures { option_copied result ≡ text_in (Some (stored_body body.now)) }
{
    match body {
        Stored::Text(text) => Some(text.as_slice()),
        _ => None,
    }
}

/// The item at a place takes a value, if there is such a place.
fn set_at(values: &mut List<Value>, place: u32, value: Value)
    ensures { values.new ≡ slice_set values.old place value }
{
    if (place as usize) < values.len() {
        values.set(place as usize, value);
    }
}

/// A field takes a value, if the body has such a field.
pub(crate) fn set_field(body: &mut Stored, place: u32, value: Value)
    ensures { stored_body body.new ≡ with_field place value (stored_body body.old) }
{
    if let Stored::Fields(values) = body {
        set_at(values, place, value);
    }
}

/// An element takes a value, if the body has such an element.
pub(crate) fn set_element(body: &mut Stored, place: u32, value: Value)
    ensures { stored_body body.new ≡ with_element place value (stored_body body.old) }
{
    if let Stored::Array(values) = body {
        set_at(values, place, value);
    }
}

/// Units are put behind a content, if the body has one.
pub(crate) fn append(body: &mut Stored, units: &[u16]) -> Result<(), NoMemory>
    ensures ok { OnOk result (stored_body body.new
        ≡ with_content (content_of (Some (stored_body body.old)) ++ units.now)
        (stored_body body.old)) }
    ensures err { OnErr result (body.new ≡ body.old) }
{
    match body {
        Stored::Text(text) => text.append(units),
        _ => Ok(()),
    }
}
