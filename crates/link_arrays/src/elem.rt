//! Element types.

ghost use Rattle.std.specs.Prelude.{◌≡◌, IfOk};

use jvm_base::{Elem, NoMemory, Units};
use std::alloc::Global;

/// A copy of an element type.
pub(crate) fn copy_elem(alloc: Global, elem: &Elem) -> Result<Elem, NoMemory>
    ensures { IfOk result (λ copy. copy ≡ elem.now) }
{
    Ok(match elem {
        Elem::Byte => Elem::Byte,
        Elem::Char => Elem::Char,
        Elem::Double => Elem::Double,
        Elem::Float => Elem::Float,
        Elem::Int => Elem::Int,
        Elem::Long => Elem::Long,
        Elem::Short => Elem::Short,
        Elem::Boolean => Elem::Boolean,
        Elem::Object(name) => Elem::Object(Units::from_slice(alloc, name.as_slice())?),
    })
}
