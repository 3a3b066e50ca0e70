//! The classes of arrays.

ghost use Rattle.std.specs.Prelude.{◌≡◌, ◌<◌, ◌==◌, ◌&&◌, false, length, replicate, slice_set, Some, IfOk};
ghost use Rattle.jvm_base.specs.Words.{from};
ghost use Rattle.program_image.specs.Subclass.{part_in};
ghost use Rattle.machine_state.specs.Classes.{kind_number, array_class_of};
ghost use Rattle.program_reads.specs.Finding.{is_of_kind};
ghost use Rattle.program_reads.specs.Kept.{AreKinds, AreOver};

use code_table::element_kind;
use jvm_base::{Elem, List, NoMemory};
use program_image::{ClassInfo, Image};
use std::alloc::Global;

/// The kinds of `newarray` have numbers below this.
const KINDS: u8 = 12;

/// The number that `newarray` has for an element type.
fn kind_number(elem: &Elem) -> u8
    ensures { result ≡ kind_number elem.now }
{
    match elem {
        Elem::Boolean => element_kind::T_BOOLEAN,
        Elem::Char => element_kind::T_CHAR,
        Elem::Byte => element_kind::T_BYTE,
        Elem::Short => element_kind::T_SHORT,
        Elem::Int => element_kind::T_INT,
        Elem::Long => element_kind::T_LONG,
        _ => 0,
    }
}

/// Whether a class is of arrays of the kind of a number.
fn is_of_kind(info: &ClassInfo, kind: u8) -> bool
    ensures { result ≡ is_of_kind kind info.now }
{
    match &info.array {
        Some(array) => array.dims == 1 && kind_number(array.elem.get()) == kind,
        None => false,
    }
}

/// The first class of arrays of a kind.
fn first_of_kind(image: &Image, kind: u8) -> u32
    ensures { result ≡ array_class_of image.now kind }
{
    for class in 0..image.classes() {
        if is_of_kind(image.class(class), kind) {
            return class;
        }
    }
    0
}

/// The first class of arrays of each kind, by the kinds' numbers.
pub(crate) fn kinds(alloc: Global, image: &Image) -> Result<List<u32>, NoMemory>
    ensures { IfOk result (λ kinds. AreKinds image.now kinds) }
{
    let mut kinds = List::new(alloc);
    for kind in 0..KINDS {
        kinds.push(first_of_kind(image, kind))?;
    }
    Ok(kinds)
}

/// The class of the parts of a class of arrays.
fn part(info: &ClassInfo) -> Option<u32>
    ensures { result ≡ part_in info.now }
{
    match &info.array {
        Some(array) => array.part,
        None => None,
    }
}

/// The first class of arrays of each class. The last classes go first, so that earlier ones take
/// their places.
pub(crate) fn over(alloc: Global, image: &Image) -> Result<List<u32>, NoMemory>
    ensures { IfOk result (λ over. AreOver image.now over) }
{
    let count = image.classes();
    let mut over = List::from_vec(vec![in alloc; 0; count as usize]?);
    for i in 0..count {
        let class = count - 1 - i;
        if let Some(part) = part(image.class(class)) {
            note(&mut over, part, class);
        }
    }
    Ok(over)
}

/// Puts a class in the place of another, if there is such a place.
fn note(over: &mut List<u32>, part: u32, class: u32)
    ensures { over.new ≡ slice_set over.old part class }
{
    if (part as usize) < over.len() {
        over.set(part as usize, class);
    }
}
