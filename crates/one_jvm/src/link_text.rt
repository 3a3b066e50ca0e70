//! What a report tells of a refusal of linking.

ghost use Rattle.std.specs.Prelude.{◌≡◌, ◌++◌, [], codes, slice_get, IfOk, OnOk};
ghost use Rattle.jvm_base.specs.Text.{text_bytes};
ghost use Rattle.jvm_base.specs.Words.{from};
ghost use Rattle.code_table.specs.Reasons.{reason};
ghost use Rattle.link_rules.specs.Reasons.{why_text};
ghost use Rattle.one_jvm.specs.Outcomes.{behind_space, member_text, method_text, whole_text, link_text};

use class_format::{ClassFile, MethodItem};
use class_names::{text, this_name};
use code_table::CodeErr;
use jvm_base::{NoMemory, Units};
use link_rules::{LinkErr, LinkWhy};
use std::alloc::Global;

/// Adds a text in modified UTF-8.
pub(crate) fn push_text(alloc: Global, bytes: &mut Vec<u8>, text: &[u16]) -> Result<(), NoMemory>
    ensures { OnOk result (bytes.new.items ≡ bytes.old.items ++ text_bytes text.now) }
{
    let units = Units::from_slice(alloc, text)?;
    let written = units.write(alloc)?;
    bytes.extend_from_slice(written.as_slice())?;
    Ok(())
}

/// Adds the name of a method, followed by its descriptor.
fn push_member(
    alloc: Global,
    bytes: &mut Vec<u8>,
    class: &ClassFile,
    method: &MethodItem,
) -> Result<(), NoMemory>
    ensures { OnOk result (bytes.new.items ≡ bytes.old.items ++ member_text class.now method.now) }
{
    let pool = class.pool.as_slice();
    push_text(alloc, bytes, text(pool, method.name))?;
    push_text(alloc, bytes, text(pool, method.desc))
}

/// Adds the name of a class, and one of its methods.
pub(crate) fn push_whole(
    alloc: Global,
    bytes: &mut Vec<u8>,
    class: &ClassFile,
    method: &MethodItem,
) -> Result<(), NoMemory>
    ensures { OnOk result (bytes.new.items ≡ bytes.old.items ++ whole_text class.now method.now) }
{
    push_text(alloc, bytes, this_name(class))?;
    bytes.extend_from_slice(b" ")?;
    push_member(alloc, bytes, class, method)
}

/// Adds the name of a class, and its method at a place.
fn push_method(
    alloc: Global,
    bytes: &mut Vec<u8>,
    class: &ClassFile,
    method: usize,
) -> Result<(), NoMemory>
    ensures { OnOk result (bytes.new.items ≡ bytes.old.items ++ method_text method class.now) }
{
    push_text(alloc, bytes, this_name(class))?;
    bytes.extend_from_slice(b" ")?;
    match class.methods.get(method) {
        Some(item) => push_member(alloc, bytes, class, item),
        None => Ok(()),
    }
}

/// What is told of code that isn't decoded.
fn code_text(
    alloc: Global,
    classes: &[ClassFile],
    class: usize,
    method: usize,
    why: CodeErr,
) -> Result<Vec<u8>, NoMemory>
    ensures { IfOk result (λ v. v.items
        ≡ from [] (method_text method) (slice_get classes.now class) ++ codes " code " ++ reason why) }
{
    let mut bytes = Vec::new(alloc);
    if let Some(file) = classes.get(class) {
        push_method(alloc, &mut bytes, file, method)?;
    }
    bytes.extend_from_slice(b" code ")?;
    let reason = format!(in alloc; "{why}")?;
    bytes.extend_from_slice(reason.as_bytes())?;
    Ok(bytes)
}

/// What is told of a class that is refused for another or for a member.
fn class_text(
    alloc: Global,
    why: LinkWhy,
    class: &[u16],
    other: &[u16],
) -> Result<Vec<u8>, NoMemory>
    ensures { IfOk result (λ v. v.items
        ≡ text_bytes class.now ++ codes " link " ++ why_text why ++ behind_space other.now) }
{
    let mut bytes = Vec::new(alloc);
    push_text(alloc, &mut bytes, class)?;
    bytes.extend_from_slice(b" link ")?;
    let reason = format!(in alloc; "{why}")?;
    bytes.extend_from_slice(reason.as_bytes())?;
    if !other.is_empty() {
        bytes.extend_from_slice(b" ")?;
        push_text(alloc, &mut bytes, other)?;
    }
    Ok(bytes)
}

/// What a refusal of linking tells of some classes.
pub(crate) fn link_text(
    alloc: Global,
    classes: &[ClassFile],
    refusal: &LinkErr,
) -> Result<Vec<u8>, NoMemory>
    ensures { IfOk result (λ v. v.items ≡ link_text classes.now refusal.now) }
{
    match refusal {
        LinkErr::Code { class, method, why } => {
            code_text(alloc, classes, *class as usize, *method as usize, *why)
        }
        LinkErr::Bad { why, class, other } => {
            class_text(alloc, *why, class.as_slice(), other.as_slice())
        }
        LinkErr::NoMemory => Ok(Vec::new(alloc)),
    }
}
