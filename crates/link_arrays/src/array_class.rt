//! Array classes: their numbers, and what they are.

ghost use Rattle.std.specs.Prelude.{◌≡◌, ◌+◌, ◌≤◌, ◌<◌, length, IfOk, IfSome};
ghost use Rattle.jvm_base.specs.Descriptors.{desc_text};
ghost use Rattle.jvm_base.specs.declared.desc.Desc.{Desc as TypeDesc};
ghost use Rattle.link_arrays.specs.Sets.{array_type};
ghost use Rattle.link_arrays.specs.ArrayClasses.{class_limit, array_number, type_number, class_number, array_info, array_class, array_classes};

use crate::arrays::Arrays;
use crate::desc_set::{ArrayType, MOST_DIMS};
use crate::elem::copy_elem;
use class_names::{desc, is_array};
use jvm_base::{Desc, Elem, List, NoMemory};
use link_rules::Program;
use program_image::{ArrayInfo, ClassInfo, ClassName};
use std::alloc::Global;

/// Public, final and abstract (JVMS2 4.1).
const ARRAY_FLAGS: u16 = 0x0411;

/// How many classes are declared, boot classes among them.
fn declared(program: &Program) -> usize
    requires { length program.now ≤ class_limit }
    ensures { result ≡ length program.now }
{
    let (boot, files) = program.parts();
    boot.len() + files.len()
}

/// The number of an array type.
fn array_number(program: &Program, arrays: &Arrays, desc: &Desc) -> Option<u32>
    requires { length program.now + length arrays.now ≤ class_limit }
    ensures { result ≡ array_number program.now arrays.now desc.now }
{
    let place = arrays.place(desc)?;
    Some((declared(program) + place) as u32)
}

/// The number of the class that a type is; `None` for a primitive type, and for one that isn't
/// there.
fn type_number(program: &Program, arrays: &Arrays, desc: &Desc) -> Option<u32>
    requires { length program.now + length arrays.now ≤ class_limit }
    ensures { result ≡ type_number program.now arrays.now desc.now }
{
    if desc.dims > 0 {
        return array_number(program, arrays, desc);
    }
    match &desc.elem {
        Elem::Object(name) => Some(program.number(name.as_slice())? as u32),
        _ => None,
    }
}

/// The number of the class that a class item's text names: its name, or the descriptor of an array
/// class. `None` where there is no such class.
pub fn class_number(
    alloc: Global,
    program: &Program,
    arrays: &Arrays,
    text: &[u16],
) -> Result<Option<u32>, NoMemory>
    requires { length program.now + length arrays.now ≤ class_limit }
    ensures { IfOk result (λ number. number ≡ class_number program.now arrays.now text.now) }
{
    if !is_array(text) {
        return Ok(program.number(text).map(|number| number as u32));
    }
    match desc(alloc, text)? {
        Some(desc) => Ok(array_number(program, arrays, &desc)),
        None => Ok(None),
    }
}

/// What an array class is of, where its type is the one that is given.
fn array_info(
    alloc: Global,
    program: &Program,
    arrays: &Arrays,
    array: &ArrayType,
) -> Result<ArrayInfo, NoMemory>
    requires { length program.now + length arrays.now ≤ class_limit }
    ensures { (d : TypeDesc) → array.now ≡ array_type d
        → IfOk result (λ info. info ≡ array_info program.now arrays.now d) }
{
    let part = Desc {
        dims: array.dims.saturating_sub(1),
        elem: copy_elem(alloc, array.share.elem.get())?,
    };
    Ok(ArrayInfo {
        dims: array.dims,
        elem: array.share.elem.share()?,
        part: type_number(program, arrays, &part),
    })
}

/// The name of the class of an array type: its descriptor. It takes no memory.
fn array_name(array: &ArrayType) -> Result<ClassName, NoMemory>
    ensures { (d : TypeDesc) → array.now ≡ array_type d → IfOk result (λ name. name ≡ desc_text d) }
{
    let from = usize::from(MOST_DIMS - array.dims);
    let name = ClassName::end_of(&array.share.text, from)?;
    Ok(name)
}

fn array_class(
    alloc: Global,
    program: &Program,
    arrays: &Arrays,
    array: &ArrayType,
) -> Result<ClassInfo, NoMemory>
    requires { length program.now + length arrays.now ≤ class_limit }
    ensures { (d : TypeDesc) → array.now ≡ array_type d
        → IfOk result (λ class. class ≡ array_class program.now arrays.now d) }
{
    Ok(ClassInfo {
        name: array_name(array)?,
        flags: ARRAY_FLAGS,
        super_class: Some(0),
        interfaces: List::new(alloc),
        fields: List::new(alloc),
        methods: List::new(alloc),
        clinit: None,
        array: Some(array_info(alloc, program, arrays, array)?),
    })
}

/// The array classes, by number. Those of one element type share their names.
pub fn array_classes(
    alloc: Global,
    program: &Program,
    arrays: &Arrays,
) -> Result<List<ClassInfo>, NoMemory>
    requires { length program.now + length arrays.now ≤ class_limit }
    ensures { IfOk result (λ classes. classes ≡ array_classes program.now arrays.now) }
{
    let types = arrays.types(alloc)?;
    let mut classes = List::new(alloc);
    for array in types.as_slice() {
        classes.push(array_class(alloc, program, arrays, array)?)?;
    }
    Ok(classes)
}
