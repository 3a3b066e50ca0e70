//! The statics that are final and have a constant.

ghost use Rattle.std.specs.Prelude.{◌≡◌, ℕ, ◌&&◌, ◌==◌, length, map, slice_set, replicate, false, true, IfOk, is_some};
ghost use Rattle.std.specs.List.{list_any};
ghost use Rattle.program_reads.specs.Finding.{is_constant_at};
ghost use Rattle.program_reads.specs.Kept.{AreConstants, AreMarksOf};

use class_format::{FINAL, STATIC, has_flag};
use jvm_base::{List, NoMemory};
use program_image::{FieldInfo, Image};
use std::alloc::Global;

/// Whether a field is static, final and has a constant.
fn is_constant(field: &FieldInfo) -> bool
    ensures { (place : ℕ) → is_constant_at place field.now
        ≡ (result && (field.now.place == place)) }
{
    has_flag(field.flags, STATIC) && has_flag(field.flags, FINAL) && field.constant.is_some()
}

/// Whether one of the fields is the static at a place, final, and has a constant.
pub(crate) fn has_constant(fields: &[FieldInfo], place: u32) -> bool
    ensures { result ≡ list_any (is_constant_at place) fields.now }
{
    for field in fields {
        if is_constant(field) && field.place == place {
            return true;
        }
    }
    false
}

/// Marks a place, if there is such a place.
fn mark(marks: &mut List<bool>, place: u32)
    ensures { marks.new ≡ slice_set marks.old place true }
{
    if (place as usize) < marks.len() {
        marks.set(place as usize, true);
    }
}

/// For the first places, as many as there are fields, whether the static there is final and has a
/// constant.
fn marks(alloc: Global, fields: &[FieldInfo]) -> Result<List<bool>, NoMemory>
    ensures { IfOk result (λ marks. AreMarksOf fields.now marks) }
{
    let mut marks = List::from_vec(vec![in alloc; false; fields.len()]?);
    for field in fields {
        if is_constant(field) {
            mark(&mut marks, field.place);
        }
    }
    Ok(marks)
}

/// The marks of each class.
pub(crate) fn constants(alloc: Global, image: &Image) -> Result<List<List<bool>>, NoMemory>
    ensures { IfOk result (λ rows. AreConstants image.now rows) }
{
    let mut rows = List::new(alloc);
    for class in 0..image.classes() {
        rows.push(marks(alloc, image.class(class).fields.as_slice())?)?;
    }
    Ok(rows)
}
