//! What new objects hold.

ghost use Rattle.std.specs.Prelude.{◌≡◌, ◌<◌, ◌++◌, length, map, not, filter, reverse, slice_get, IfOk, OnOk};
ghost use Rattle.std.specs.List.{flat_map};
ghost use Rattle.std.specs.Option.{option_to_list};
ghost use Rattle.hierarchy.specs.Hierarchy.{row_of};
ghost use Rattle.class_format.specs.Flags.{is_static};
ghost use Rattle.program_image.specs.Selection.{over_class, supers};
ghost use Rattle.program_image.specs.Words.{zero_of, zeros_of};
ghost use Rattle.machine_state.specs.Classes.{element_zero};
ghost use Rattle.step_serve.specs.Blank.{own_zeros, own_row, AreBlanks};

use class_format::{STATIC, has_flag};
use jvm_base::{Desc, Elem, List, NoMemory, Value};
use program_image::{FieldInfo, Image};
use std::alloc::Global;
use std::marker::Model;

/// For each class what the instance fields that it declares hold at first, in the order of their
/// places. Made once, so that `new` doesn't read fields.
#[derive(Drop)]
pub struct Blanks {
    rows: List<List<Value>>,
}

impl Model for Blanks {
    ghost use Rattle.std.specs.Prelude.{List};
    ghost use Rattle.jvm_base.specs.declared.value.Value.{Value as AnyValue};

    ghost Value = { List (List AnyValue) };

    ghost view = { λ a. a.rows };
}

/// What an element of a type without dimensions holds at first.
fn elem_zero(elem: &Elem) -> Value
    ensures { result ≡ zero_of (record { dims = 0; elem = elem.now }) }
{
    match elem {
        Elem::Object(_) => Value::Null,
        Elem::Long => Value::Long(0),
        _ => Value::Int(0),
    }
}

/// What a field of the type holds at first (JVMS2 2.5.1).
fn zero_of(desc: &Desc) -> Value
    ensures { result ≡ zero_of desc.now }
{
    if desc.dims == 0 {
        elem_zero(&desc.elem)
    } else {
        Value::Null
    }
}

/// What the instance fields among these hold at first.
fn own_zeros(alloc: Global, fields: &[FieldInfo]) -> Result<List<Value>, NoMemory>
    ensures { IfOk result (λ zeros. zeros ≡ own_zeros fields.now) }
{
    let mut zeros = List::new(alloc);
    for field in fields {
        if !has_flag(field.flags, STATIC) {
            zeros.push(zero_of(field.desc.get()))?;
        }
    }
    Ok(zeros)
}

/// The superclass of a class, where it has one.
fn over(image: &Image, class: u32) -> Option<u32>
    ensures { option_to_list result ≡ row_of (map over_class image.now.classes) class }
{
    if class < image.classes() {
        image.class(class).super_class
    } else {
        None
    }
}

/// The class and its superclasses, upwards.
fn supers(alloc: Global, image: &Image, class: u32) -> Result<List<u32>, NoMemory>
    ensures { IfOk result (λ list. list ≡ supers image.now.classes class) }
{
    let mut list = List::new(alloc);
    let mut next = Some(class);
    let most = u64::from(image.classes()) + 2;
    for _ in 0..most {
        match next {
            Some(class) => {
                list.push(class)?;
                next = over(image, class);
            }
            None => return Ok(list),
        }
    }
    Ok(list)
}

impl Blanks {
    /// Those of a program.
    pub fn new(alloc: Global, image: &Image) -> Result<Blanks, NoMemory>
        ensures { IfOk result (λ blanks. AreBlanks image.now blanks) }
    {
        let mut rows = List::new(alloc);
        for class in 0..image.classes() {
            rows.push(own_zeros(alloc, image.class(class).fields.as_slice())?)?;
        }
        Ok(Blanks { rows })
    }

    /// Adds what the instance fields that a class declares hold at first.
    fn add_row(&self, class: u32, zeros: &mut List<Value>) -> Result<(), NoMemory>
        ensures { OnOk result (zeros.new ≡ zeros.old ++ own_row self.now class) }
    {
        if let Some(row) = self.rows.get(class as usize) {
            zeros.append(row.as_slice())?;
        }
        Ok(())
    }

    /// What a new object's fields hold, by their places: those of superclasses come first.
    pub fn zeros(&self, alloc: Global, image: &Image, class: u32) -> Result<List<Value>, NoMemory>
        requires { AreBlanks image.now self.now }
        ensures { IfOk result (λ zeros. zeros ≡ zeros_of image.now class) }
    {
        let mut supers = supers(alloc, image, class)?;
        let mut zeros = List::new(alloc);
        while let Some(top) = supers.pop() {
            self.add_row(top, &mut zeros)?;
        }
        Ok(zeros)
    }
}

/// What an element of a new array of the class holds.
pub(crate) fn element_zero(image: &Image, class: u32) -> Value
    ensures { result ≡ element_zero image.now class }
{
    if class >= image.classes() {
        return Value::Null;
    }
    match &image.class(class).array {
        Some(array) if array.dims == 1 => elem_zero(array.elem.get()),
        _ => Value::Null,
    }
}
