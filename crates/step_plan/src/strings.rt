//! Native methods of Strings.

ghost use Rattle.std.specs.Prelude.{◌≡◌, length, Some, IfOk};
ghost use Rattle.jvm_base.specs.Words.{from};
ghost use Rattle.jvm_base.specs.declared.frame.Frame.{Frame as Called};
ghost use Rattle.program_image.specs.Program.{Program as Linked};
ghost use Rattle.machine_state.specs.Bodies.{count_value};
ghost use Rattle.machine_state.specs.IntrinsicCalls.{char_at, same_as, joined, bool_value};
ghost use Rattle.machine_state.specs.Next.{Wants, answers};
ghost use Rattle.step_plan.specs.Depth.{who_at};
ghost use Rattle.step_plan.specs.Shown.{shown_next};
ghost use Rattle.step_plan.specs.Ways.{IsNoMove};

use crate::plan::{Next, fault};
use crate::site::Site;
use crate::who::Texts;
use jvm_base::{Name, NoMemory, Units, Value};
use machine_state::Request;
use program_reads::boot;
use std::alloc::Global;
use text_objects::joined_units;

/// A count as an int: its low 32 bits.
fn count_value(count: usize) -> Value
    ensures { result ≡ count_value count }
{
    Value::Int(((count % 4_294_967_296) as u32).cast_signed())
}

/// The length of a text.
pub(crate) fn text_length<T: Texts>(texts: &T, object: Name) -> Next
    ensures next { (p : Linked) (f : Called) → shown_next p (Some f) result
        ≡ from (Wants object) (λ us. answers p f (Some (count_value (length us))))
        (T.known texts.now object) }
    ensures still { IsNoMove result }
{
    match texts.text(object) {
        Some(units) => Next::Answered(Some(count_value(units.len()))),
        None => Next::Wants(object),
    }
}

/// The unit at an index.
fn unit_at(units: &[u16], index: i32) -> Next
    ensures next { (p : Linked) (f : Called) → shown_next p (Some f) result
        ≡ char_at p f units.now index }
    ensures still { IsNoMove result }
{
    if index < 0 {
        return fault(boot::STRING_INDEX);
    }
    match units.get(index.unsigned_abs() as usize) {
        Some(unit) => Next::Answered(Some(Value::Int(i32::from(*unit)))),
        None => fault(boot::STRING_INDEX),
    }
}

/// The unit of a text at an index.
pub(crate) fn char_at<T: Texts>(texts: &T, object: Name, index: i32) -> Next
    ensures next { (p : Linked) (f : Called) → shown_next p (Some f) result
        ≡ from (Wants object) (λ us. char_at p f us index) (T.known texts.now object) }
    ensures still { IsNoMove result }
{
    match texts.text(object) {
        Some(units) => unit_at(units, index),
        None => Next::Wants(object),
    }
}

/// A boolean as an int.
fn bool_value(holds: bool) -> Value
    ensures { result ≡ bool_value holds }
{
    Value::Int(if holds { 1 } else { 0 })
}

/// Whether an object is a String of a text.
fn same_as<T: Texts>(site: &Site<'_>, texts: &T, units: &[u16], value: Value) -> Next
    ensures next { (p : Linked) (f : Called) → shown_next p (Some f) result
        ≡ same_as p (who_at site.now (T.known texts.now)) f units.now value }
    ensures still { IsNoMove result }
{
    match value {
        Value::Ref(object) if object.class == boot::STRING => match texts.text(object) {
            Some(other) => Next::Answered(Some(bool_value(units == other))),
            None => Next::Wants(object),
        }
        _ => Next::Answered(Some(bool_value(false))),
    }
}

/// Whether an object is a String of the text of another one.
pub(crate) fn same_text<T: Texts>(site: &Site<'_>, texts: &T, object: Name, value: Value) -> Next
    ensures next { (p : Linked) (f : Called) → shown_next p (Some f) result
        ≡ from (Wants object) (λ us. same_as p (who_at site.now (T.known texts.now)) f us value)
        (T.known texts.now object) }
    ensures still { IsNoMove result }
{
    match texts.text(object) {
        Some(units) => same_as(site, texts, units, value),
        None => Next::Wants(object),
    }
}

/// A text with another one behind it.
fn behind<T: Texts>(
    alloc: Global,
    site: &Site<'_>,
    texts: &T,
    units: &[u16],
    value: Value,
) -> Result<Next, NoMemory>
    ensures next { IfOk result
        (λ r. (p : Linked) (f : Called) → shown_next p (Some f) r
        ≡ joined (who_at site.now (T.known texts.now)) units.now value) }
    ensures still { IfOk result (λ r. IsNoMove r) }
{
    let Value::Ref(object) = value else {
        return Ok(fault(boot::NULL_POINTER));
    };
    match texts.text(object) {
        Some(other) => Ok(Next::Needs(Request::MakeText(joined_units(alloc, units, other)?))),
        None => Ok(Next::Wants(object)),
    }
}

/// A String's text with another one behind it.
pub(crate) fn concat<T: Texts>(
    alloc: Global,
    site: &Site<'_>,
    texts: &T,
    object: Name,
    value: Value,
) -> Result<Next, NoMemory>
    ensures next { IfOk result
        (λ r. (p : Linked) (f : Called) → shown_next p (Some f) r
        ≡ from (Wants object) (λ us. joined (who_at site.now (T.known texts.now)) us value)
        (T.known texts.now object)) }
    ensures still { IfOk result (λ r. IsNoMove r) }
{
    match texts.text(object) {
        Some(units) => behind(alloc, site, texts, units, value),
        None => Ok(Next::Wants(object)),
    }
}
