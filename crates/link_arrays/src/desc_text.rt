//! Types as texts.

ghost use Rattle.std.specs.Prelude.{◌≡◌, ◌∷◌, ◌++◌, [], IfOk, OnOk};
ghost use Rattle.jvm_base.specs.Descriptors.{desc_text, elem_text};

use jvm_base::{Desc, Elem, NoMemory, Units};
use std::alloc::Global;

const BRACKET: u16 = b'[' as u16;

/// The units of an element type that is a class: its name between `L` and `;`.
fn add_name(units: &mut Vec<u16>, name: &[u16]) -> Result<(), NoMemory>
    ensures { OnOk result (units.new.items ≡ units.old.items ++ elem_text (Elem.Object name.now)) }
{
    units.push(b'L' as u16)?;
    units.extend_from_slice(name)?;
    units.push(b';' as u16)?;
    Ok(())
}

fn add_elem(units: &mut Vec<u16>, elem: &Elem) -> Result<(), NoMemory>
    ensures { OnOk result (units.new.items ≡ units.old.items ++ elem_text elem.now) }
{
    let letter = match elem {
        Elem::Byte => b'B',
        Elem::Char => b'C',
        Elem::Double => b'D',
        Elem::Float => b'F',
        Elem::Int => b'I',
        Elem::Long => b'J',
        Elem::Short => b'S',
        Elem::Boolean => b'Z',
        Elem::Object(name) => return add_name(units, name.as_slice()),
    };
    units.push(letter as u16)?;
    Ok(())
}

/// The descriptor of a type.
pub(crate) fn desc_text(alloc: Global, desc: &Desc) -> Result<Units, NoMemory>
    ensures { IfOk result (λ text. text ≡ desc_text desc.now) }
{
    let mut units = Vec::new(alloc);
    for _ in 0..desc.dims {
        units.push(BRACKET)?;
    }
    add_elem(&mut units, &desc.elem)?;
    Units::from_slice(alloc, &units)
}
