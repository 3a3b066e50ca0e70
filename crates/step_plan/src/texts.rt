//! Arguments of intrinsics as texts.

ghost use Rattle.std.specs.Prelude.{◌≡◌, ℕ, List as Items, ◌++◌, IfOk};
ghost use Rattle.jvm_base.specs.declared.name.Name.{Name as Named};
ghost use Rattle.machine_state.specs.IntrinsicCalls.{int_text};
ghost use Rattle.step_plan.specs.Texts.{seen_shown, object_text, text_of};

use crate::intrinsic::Shown;
use crate::who::Texts;
use frame_ops::as_unit;
use jvm_base::{Name, NoMemory, Units, Value};
use std::alloc::Global;
use text_objects::number_text;

/// `true`.
const TRUE: [u16; 4] = [116, 114, 117, 101];

/// `false`.
const FALSE: [u16; 5] = [102, 97, 108, 115, 101];

/// `null`.
const NULL: [u16; 4] = [110, 117, 108, 108];

/// A text, or the object whose text isn't known.
#[derive(Drop)]
pub(crate) enum Text {
    Known(Units),
    Wanted(Name),
}

/// An int as a number, a char or a boolean.
fn int_text(alloc: Global, shown: Shown, a: i32) -> Result<Units, NoMemory>
    ensures { IfOk result (λ text. text ≡ int_text (seen_shown shown) a) }
{
    match shown {
        Shown::Letter => Units::from_slice(alloc, &[as_unit(a) as u16]),
        Shown::Truth if a == 0 => Units::from_slice(alloc, FALSE.as_slice()),
        Shown::Truth => Units::from_slice(alloc, TRUE.as_slice()),
        _ => number_text(alloc, Value::Int(a)),
    }
}

/// A copy of the text of an object.
pub(crate) fn known_text<T: Texts>(alloc: Global, texts: &T, object: Name) -> Result<Text, NoMemory>
    ensures { IfOk result (λ text. text ≡ object_text (T.known texts.now) object) }
{
    match texts.text(object) {
        Some(units) => Ok(Text::Known(Units::from_slice(alloc, units)?)),
        None => Ok(Text::Wanted(object)),
    }
}

/// The text of an argument; that of a null String is `null`.
pub(crate) fn shown_text<T: Texts>(
    alloc: Global,
    texts: &T,
    shown: Shown,
    value: Value,
) -> Result<Text, NoMemory>
    ensures { IfOk result (λ text. text ≡ text_of (T.known texts.now) (seen_shown shown) value) }
{
    match value {
        Value::Int(a) => Ok(Text::Known(int_text(alloc, shown, a)?)),
        Value::Long(_) => Ok(Text::Known(number_text(alloc, value)?)),
        Value::Ref(object) => known_text(alloc, texts, object),
        Value::Null => Ok(Text::Known(Units::from_slice(alloc, NULL.as_slice())?)),
    }
}
