//! Methods.

ghost use Rattle.std.specs.Prelude.{◌≡◌, ◌++◌, ◌∷◌, [], List as Items, IfOk, OnOk, length};
ghost use Rattle.class_format.specs.declared.class.MethodItem.{MethodItem as Item};
ghost use Rattle.jvm_base.specs.Told.{Gives};
ghost use Rattle.class_file.specs.Reasons.{told};
ghost use Rattle.class_file.specs.Reading.Words.{Reads, counted_at, listed_at};
ghost use Rattle.class_file.specs.Reading.Seen.{HasSeen};
ghost use Rattle.class_format.specs.Members.{method_keys, code_count};
ghost use Rattle.class_file.specs.Reading.Members.{another_code_at, method_attribute_at, method_at};

use crate::attribute::{AttributeHead, next_attribute};
use crate::code::code;
use crate::error::ClassErr;
use crate::head::new_head;
use crate::reader::Reader;
use class_format::{MemberKind, MethodItem, code_count, is_code};
use constant_pool::Texts;
use jvm_base::{CodeItem, List};
use std::alloc::Global;
use std::collections::BTreeSet;

#[tactic(auto, unfolding(crate::specs::Reading::Members::another_code_at))]
fn another_code(
    alloc: Global,
    reader: &mut Reader,
    texts: &Texts,
    method: u16,
    codes: &mut List<CodeItem>,
    attribute: AttributeHead,
) -> Result<(), ClassErr>
    ensures { Gives told (λ _. (codes.new, reader.new)) result
        (another_code_at texts.now method codes.old attribute reader.old) }
{
    let code = code(alloc, reader, texts, method, attribute)?;
    codes.push(code)?;
    Ok(())
}

#[tactic(auto, unfolding(crate::specs::Reading::Members::method_attribute_at, crate::specs::Reading::Members::skipped_at))]
fn method_attribute(
    alloc: Global,
    reader: &mut Reader,
    texts: &Texts,
    method: u16,
    codes: &mut List<CodeItem>,
) -> Result<(), ClassErr>
    ensures { Gives told (λ _. (codes.new, reader.new)) result
        (method_attribute_at texts.now method codes.old reader.old) }
{
    let attribute = next_attribute(reader, texts)?;
    if is_code(texts.items(), attribute.name) {
        return another_code(alloc, reader, texts, method, codes, attribute);
    }
    reader.take(attribute.len)?;
    Ok(())
}

/// Reads the attributes of a method; of them it answers the codes.
fn method_attributes(
    alloc: Global,
    reader: &mut Reader,
    texts: &Texts,
    method: u16,
) -> Result<List<CodeItem>, ClassErr>
    ensures { Reads reader.new result
        (counted_at (method_attribute_at texts.now method) [] reader.old) }
{
    let count = reader.u2()?;
    let mut codes = List::new(alloc);
    for _ in 0..count {
        method_attribute(alloc, reader, texts, method, &mut codes)?;
    }
    Ok(codes)
}

#[tactic(auto, unfolding(crate::specs::Reading::Members::method_at))]
fn method(
    alloc: Global,
    reader: &mut Reader,
    texts: &Texts,
    number: u16,
    seen: &mut BTreeSet<(u16, u16)>,
) -> Result<MethodItem, ClassErr>
    ensures exact { (earlier : Items Item) → length earlier ≡ number
        → HasSeen texts.now seen.old (method_keys earlier)
        → Reads reader.new result (method_at texts.now earlier reader.old) }
    ensures seen { (earlier : Items Item) → HasSeen texts.now seen.old (method_keys earlier)
        → IfOk result (λ m. HasSeen texts.now seen.new (method_keys (earlier ++ m ∷ []))) }
{
    let head = new_head(reader, texts, MemberKind::Method, seen)?;
    let mut codes = method_attributes(alloc, reader, texts, number)?;
    if codes.len() != code_count(head.flags) {
        return Err(ClassErr::CodeCount(number));
    }
    Ok(MethodItem {
        flags: head.flags,
        name: head.name,
        desc: head.desc,
        code: codes.pop(),
    })
}

/// Reads the methods of a class, and before them their count (JVMS2 4.6).
pub(crate) fn methods(
    alloc: Global,
    reader: &mut Reader,
    texts: &Texts,
) -> Result<List<MethodItem>, ClassErr>
    ensures { Reads reader.new result (listed_at (method_at texts.now) reader.old) }
{
    let count = reader.u2()?;
    let mut methods = List::new(alloc);
    let mut seen = BTreeSet::new(alloc);
    for number in 0..count {
        let method = method(alloc, reader, texts, number, &mut seen)?;
        methods.push(method)?;
    }
    Ok(methods)
}
