//! The array type that an instruction names.

ghost use Rattle.std.specs.Prelude.{◌≡◌, IfOk};
ghost use Rattle.link_arrays.specs.Arrays.{kind_elem, deeper, array_named, array_over, op_array};

use class_names::{class_text, desc, is_array};
use code_table::{Op, element_kind};
use jvm_base::{Desc, Elem, NoMemory, PoolItem, Units};
use std::alloc::Global;

/// The element type of a number at `newarray` (JVMS2 6, newarray).
fn kind_elem(number: u8) -> Elem
    ensures { result ≡ kind_elem number }
{
    match number {
        element_kind::T_BOOLEAN => Elem::Boolean,
        element_kind::T_CHAR => Elem::Char,
        element_kind::T_FLOAT => Elem::Float,
        element_kind::T_DOUBLE => Elem::Double,
        element_kind::T_BYTE => Elem::Byte,
        element_kind::T_SHORT => Elem::Short,
        element_kind::T_INT => Elem::Int,
        _ => Elem::Long,
    }
}

/// The arrays of a type; `None` exactly where they would have more than 255 dimensions.
fn deeper(desc: Desc) -> Option<Desc>
    ensures { result ≡ deeper desc }
{
    if desc.dims < 255 {
        Some(Desc {
            dims: desc.dims + 1,
            elem: desc.elem,
        })
    } else {
        None
    }
}

/// The array type that a class item's text names, if it's one.
fn array_named(alloc: Global, text: &[u16]) -> Result<Option<Desc>, NoMemory>
    ensures { IfOk result (λ d. d ≡ array_named text.now) }
{
    if is_array(text) {
        desc(alloc, text)
    } else {
        Ok(None)
    }
}

/// The arrays of the class that a class item's text names.
fn array_over(alloc: Global, text: &[u16]) -> Result<Option<Desc>, NoMemory>
    ensures { IfOk result (λ d. d ≡ array_over text.now) }
{
    if is_array(text) {
        Ok(desc(alloc, text)?.and_then(deeper))
    } else {
        Ok(Some(Desc {
            dims: 1,
            elem: Elem::Object(Units::from_slice(alloc, text)?),
        }))
    }
}

/// The array type that an instruction makes, or asks an object for.
pub(crate) fn op_array(alloc: Global, pool: &[PoolItem], op: &Op) -> Result<Option<Desc>, NoMemory>
    ensures { IfOk result (λ d. d ≡ op_array pool.now op.now) }
{
    match op {
        Op::NewArray(number) => Ok(Some(Desc {
            dims: 1,
            elem: kind_elem(*number),
        })),
        Op::AnewArray(item) => array_over(alloc, class_text(pool, *item)),
        Op::MultiNewArray { item, .. } | Op::Cast { item, .. } => {
            array_named(alloc, class_text(pool, *item))
        }
        _ => Ok(None),
    }
}
