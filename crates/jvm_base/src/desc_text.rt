//! Descriptors as texts (JVMS2 4.3).

ghost use Rattle.std.specs.Prelude.{◌≡◌, ◌≢◌, ◌==◌, ◌&&◌, not, position, List as Items, ℕ, Some, is_some, option_map, IfOk, IfErr};
ghost use Rattle.std.specs.List.{list_all};
ghost use Rattle.std.specs.Option.{option_copied};
ghost use Rattle.jvm_base.specs.Reads.{Reads, Refuses, SpellsNone};
ghost use Rattle.jvm_base.specs.declared.units.NameErr.TheVariants.{BadDesc};
ghost use Rattle.jvm_base.specs.Descriptors.{is_class_name, name_at, elem_at, desc_at, desc_of, args_of, is_void, return_of, method_of, is_method_of, elem_slots, desc_slots, desc_text, method_text, IsDesc, IsMethodDesc};
ghost use Rattle.jvm_base.specs.Letters.{array_letter, class_end};
ghost use Rattle.jvm_base.specs.SeenDescs.{seen_elem, seen_desc, within, after_args_of, IsFirstOf, ReadsFirst};

use crate::desc::{Desc, Elem, MethodDesc};
use crate::list::List;
use crate::memory::NoMemory;
use crate::units::{NameErr, Units};
use std::alloc::Global;

const BYTE: u16 = b'B' as u16;

const CHAR: u16 = b'C' as u16;

const DOUBLE: u16 = b'D' as u16;

const FLOAT: u16 = b'F' as u16;

const INT: u16 = b'I' as u16;

const LONG: u16 = b'J' as u16;

const OBJECT: u16 = b'L' as u16;

const SHORT: u16 = b'S' as u16;

const BOOLEAN: u16 = b'Z' as u16;

const VOID: u16 = b'V' as u16;

const BRACKET: u16 = b'[' as u16;

const NAME_END: u16 = b';' as u16;

const OPEN: u16 = b'(' as u16;

const CLOSE: u16 = b')' as u16;

/// An element type whose class name lies in the text that it was read from.
#[derive(Clone, Copy)]
enum SeenElem<'a> {
    Byte,
    Char,
    Double,
    Float,
    Int,
    Long,
    Short,
    Boolean,
    Object(&'a [u16]),
}

#[derive(Clone, Copy)]
struct SeenDesc<'a> {
    dims: u8,
    elem: SeenElem<'a>,
}

/// What stands at the front of a method's parameters: one that leaves room for so many slots, or
/// the `)`.
#[derive(Clone, Copy)]
enum SeenArg<'a> {
    Next {
        desc: SeenDesc<'a>,
        left: u32,
        rest: &'a [u16],
    },
    End {
        rest: &'a [u16],
    },
}

fn are_name_units(units: &[u16]) -> bool
    ensures { result ≡ list_all (λ u. not (u == class_end) && not (u == array_letter)) units.now }
{
    units
        .iter()
        .all(|unit| *unit != NAME_END && *unit != BRACKET)
}

fn is_class_name(name: &[u16]) -> bool
    ensures { result ≡ is_class_name name.now }
{
    !name.is_empty() && are_name_units(name)
}

/// The place of the first `;`.
fn name_end(units: &[u16]) -> Option<usize>
    ensures { result ≡ position (λ u. u == class_end) units.now }
{
    units.iter().position(|unit| *unit == NAME_END)
}

/// How many `[` there are before the first unit that is none.
fn leading_brackets(units: &[u16]) -> Option<usize>
    ensures { result ≡ position (λ u. not (u == array_letter)) units.now }
{
    units.iter().position(|unit| *unit != BRACKET)
}

/// The class name up to the first `;`, and what follows that.
fn first_name(units: &[u16]) -> Option<(SeenElem<'_>, &[u16])>
    ensures { option_map (λ x. (seen_elem x.0, x.1.now)) result ≡ name_at units.now }
{
    let end = name_end(units)?;
    let name = &units[..end];
    if is_class_name(name) {
        Some((SeenElem::Object(name), &units[end + 1..]))
    } else {
        None
    }
}

#[tactic(auto, unfolding(crate::specs::Descriptors::elem_at))]
fn first_elem(units: &[u16]) -> Option<(SeenElem<'_>, &[u16])>
    ensures { option_map (λ x. (seen_elem x.0, x.1.now)) result ≡ elem_at units.now }
{
    match units {
        [BYTE, after @ ..] => Some((SeenElem::Byte, after)),
        [CHAR, after @ ..] => Some((SeenElem::Char, after)),
        [DOUBLE, after @ ..] => Some((SeenElem::Double, after)),
        [FLOAT, after @ ..] => Some((SeenElem::Float, after)),
        [INT, after @ ..] => Some((SeenElem::Int, after)),
        [LONG, after @ ..] => Some((SeenElem::Long, after)),
        [OBJECT, after @ ..] => first_name(after),
        [SHORT, after @ ..] => Some((SeenElem::Short, after)),
        [BOOLEAN, after @ ..] => Some((SeenElem::Boolean, after)),
        _ => None,
    }
}

/// The descriptor of a field that the units begin with, and what follows it.
#[tactic(auto, unfolding(crate::specs::Descriptors::desc_at))]
fn first_desc(units: &[u16]) -> Option<(SeenDesc<'_>, &[u16])>
    ensures { option_map (λ x. (seen_desc x.0, x.1.now)) result ≡ desc_at units.now }
{
    let dims = leading_brackets(units)?;
    if dims > 255 {
        return None;
    }
    let (elem, rest) = first_elem(&units[dims..])?;
    let desc = SeenDesc {
        dims: dims as u8,
        elem,
    };
    Some((desc, rest))
}

impl SeenElem<'_> {
    fn slots(&self) -> u32
        ensures { result ≡ elem_slots (seen_elem self.now) }
    {
        match self {
            SeenElem::Double | SeenElem::Long => 2,
            _ => 1,
        }
    }

    fn to_elem(&self, alloc: Global) -> Result<Elem, NoMemory>
        ensures { IfOk result (λ elem. elem ≡ seen_elem self.now) }
    {
        Ok(match self {
            SeenElem::Byte => Elem::Byte,
            SeenElem::Char => Elem::Char,
            SeenElem::Double => Elem::Double,
            SeenElem::Float => Elem::Float,
            SeenElem::Int => Elem::Int,
            SeenElem::Long => Elem::Long,
            SeenElem::Short => Elem::Short,
            SeenElem::Boolean => Elem::Boolean,
            SeenElem::Object(name) => Elem::Object(Units::from_slice(alloc, name)?),
        })
    }
}

impl SeenDesc<'_> {
    fn slots(&self) -> u32
        ensures { result ≡ desc_slots (seen_desc self.now) }
    {
        if self.dims == 0 { self.elem.slots() } else { 1 }
    }

    fn to_desc(&self, alloc: Global) -> Result<Desc, NoMemory>
        ensures { IfOk result (λ desc. desc ≡ seen_desc self.now) }
    {
        Ok(Desc {
            dims: self.dims,
            elem: self.elem.to_elem(alloc)?,
        })
    }
}

/// The descriptor of a field that the whole text is.
#[tactic(auto, unfolding(crate::specs::Descriptors::desc_of))]
fn read_desc(alloc: Global, units: &[u16]) -> Result<Desc, NameErr>
    ensures { Reads BadDesc result (desc_of units.now) }
{
    match first_desc(units) {
        Some((desc, [])) => Ok(desc.to_desc(alloc)?),
        _ => Err(NameErr::BadDesc),
    }
}

#[tactic(auto, unfolding(crate::specs::Descriptors::desc_of))]
fn is_desc(units: &[u16]) -> bool
    ensures { result ≡ is_some (desc_of units.now) }
{
    matches!(first_desc(units), Some((_, [])))
}

fn is_void(units: &[u16]) -> bool
    ensures { result ≡ is_void units.now }
{
    matches!(units, [VOID])
}

/// The result of a method that the whole text is.
fn read_return(alloc: Global, units: &[u16]) -> Result<Option<Desc>, NameErr>
    ensures { Reads BadDesc result (return_of units.now) }
{
    if is_void(units) {
        Ok(None)
    } else {
        Ok(Some(read_desc(alloc, units)?))
    }
}

fn is_return(units: &[u16]) -> bool
    ensures { result ≡ is_some (return_of units.now) }
{
    is_void(units) || is_desc(units)
}

/// What follows a `)` at the front.
fn after_args(units: &[u16]) -> Option<&[u16]>
    ensures { option_copied result ≡ after_args_of units.now }
{
    match units {
        [CLOSE, rest @ ..] => Some(rest),
        _ => None,
    }
}

/// The first of the parameters, which may take `room` slots; `None` where they are none.
fn first_arg(units: &[u16], room: u32) -> Option<SeenArg<'_>>
    ensures { IsFirstOf units.now room result }
{
    if let Some(rest) = after_args(units) {
        return Some(SeenArg::End { rest });
    }
    let (desc, rest) = first_desc(units)?;
    let left = room.checked_sub(desc.slots())?;
    Some(SeenArg::Next { desc, left, rest })
}

/// The parameters up to the `)`, and what follows it.
fn read_args(alloc: Global, units: &[u16]) -> Result<(List<Desc>, &[u16]), NameErr>
    ensures { ReadsFirst BadDesc result (within 255 (args_of units.now)) }
{
    let mut args = List::new(alloc);
    let mut rest = units;
    let mut room = 255;
    loop {
        match first_arg(rest, room).ok_or(NameErr::BadDesc)? {
            SeenArg::Next {
                desc,
                left,
                rest: after,
            } => {
                args.push(desc.to_desc(alloc)?)?;
                room = left;
                rest = after;
            }
            SeenArg::End { rest: after } => return Ok((args, after)),
        }
    }
}

/// What follows the `)` after parameters that take at most so many slots.
fn skip_args(units: &[u16], most_slots: u32) -> Option<&[u16]>
    ensures { option_copied result ≡ option_map (λ x. x.1) (within most_slots (args_of units.now)) }
{
    let mut rest = units;
    let mut room = most_slots;
    loop {
        match first_arg(rest, room)? {
            SeenArg::Next {
                left,
                rest: after,
                ..
            } => {
                room = left;
                rest = after;
            }
            SeenArg::End { rest: after } => return Some(after),
        }
    }
}

impl Desc {
    /// The type that a field's descriptor spells.
    pub fn read_field(alloc: Global, text: &Units) -> Result<Desc, NameErr>
        ensures found { IfOk result (λ d. IsDesc d × (text.now ≡ desc_text d)) }
        ensures only { (d : Desc) → IsDesc d → text.now ≡ desc_text d → Reads BadDesc result (Some d) }
        ensures refused { IfErr result (Refuses BadDesc (SpellsNone IsDesc desc_text text.now)) }
        ensures exact { Reads BadDesc result (desc_of text.now) }
    {
        read_desc(alloc, text.as_slice())
    }

    /// Whether the text is a field's descriptor. It takes no memory.
    pub fn is_field(text: &Units) -> bool
        ensures { result ≡ is_some (desc_of text.now) }
    {
        is_desc(text.as_slice())
    }
}

#[tactic(auto, unfolding(crate::specs::Descriptors::method_of))]
fn read_method(alloc: Global, units: &[u16]) -> Result<MethodDesc, NameErr>
    ensures { Reads BadDesc result (method_of units.now) }
{
    let [OPEN, after @ ..] = units else {
        return Err(NameErr::BadDesc);
    };
    match read_args(alloc, after) {
        Ok((args, rest)) => {
            let ret = read_return(alloc, rest)?;
            Ok(MethodDesc { args, ret })
        }
        Err(error) => Err(error),
    }
}

impl MethodDesc {
    /// The parameters and the result that a method's descriptor spells.
    pub fn read_method(alloc: Global, text: &Units) -> Result<MethodDesc, NameErr>
        ensures found { IfOk result (λ m. IsMethodDesc m × (text.now ≡ method_text m)) }
        ensures only { (m : MethodDesc) → IsMethodDesc m → text.now ≡ method_text m
            → Reads BadDesc result (Some m) }
        ensures refused { IfErr result (Refuses BadDesc (SpellsNone IsMethodDesc method_text text.now)) }
        ensures exact { Reads BadDesc result (method_of text.now) }
    {
        read_method(alloc, text.as_slice())
    }

    /// Whether the text is a method's descriptor whose parameters take at most so many slots: 254
    /// leaves one for a receiver. It takes no memory.
    #[tactic(auto, unfolding(crate::specs::Descriptors::method_of))]
    pub fn is_method(text: &Units, most_slots: u32) -> bool
        ensures { result ≡ is_method_of text.now most_slots }
    {
        let [OPEN, after @ ..] = text.as_slice() else {
            return false;
        };
        match skip_args(after, most_slots.min(255)) {
            Some(rest) => is_return(rest),
            None => false,
        }
    }
}

/// A field's descriptor is read from its spelling, and from nothing else.
pub fn desc_has_one_spelling()
    ensures written { (d : Desc) → IsDesc d → desc_of (desc_text d) ≡ Some d }
    ensures read { (us : Items ℕ) (d : Desc) → desc_of us ≡ Some d → IsDesc d × (us ≡ desc_text d) }
{}

/// A method's descriptor is read from its spelling, and from nothing else.
pub fn method_has_one_spelling()
    ensures written { (m : MethodDesc) → IsMethodDesc m → method_of (method_text m) ≡ Some m }
    ensures read { (us : Items ℕ) (m : MethodDesc) → method_of us ≡ Some m → IsMethodDesc m × (us ≡ method_text m) }
{}
