//! Fields.

ghost use Rattle.std.specs.Prelude.{◌≡◌, ◌++◌, ◌∷◌, [], List as Items, ℕ, IfOk, None};
ghost use Rattle.class_format.specs.declared.class.FieldItem.{FieldItem as Item};
ghost use Rattle.class_file.specs.Reading.Words.{Reads, counted_at, listed_at};
ghost use Rattle.class_file.specs.Reading.Seen.{HasSeen};
ghost use Rattle.class_format.specs.Members.{field_keys};
ghost use Rattle.class_format.specs.KnownTexts.{is_constant_at};
ghost use Rattle.class_file.specs.Reading.Members.{constant_at, field_attribute_at, field_at};

use crate::attribute::{AttributeHead, next_attribute};
use crate::error::ClassErr;
use crate::head::new_head;
use crate::reader::Reader;
use class_format::{
    FieldItem, MemberHead, MemberKind, STATIC, has_flag, is_constant_at, is_constant_value,
};
use constant_pool::Texts;
use jvm_base::List;
use std::alloc::Global;
use std::collections::BTreeSet;

#[tactic(auto, unfolding(crate::specs::Reading::Members::constant_at))]
fn constant(
    reader: &mut Reader,
    texts: &Texts,
    desc: u16,
    kept: Option<u16>,
    attribute: AttributeHead,
) -> Result<Option<u16>, ClassErr>
    ensures { Reads reader.new result (constant_at texts.now desc kept attribute reader.old) }
{
    if kept.is_some() {
        return Err(ClassErr::AttrLength(attribute.at));
    }
    let value_at = reader.offset();
    let value = reader.u2()?;
    if !is_constant_at(texts.items(), desc, value) {
        return Err(ClassErr::ItemLink(value_at));
    }
    if attribute.len != 2 {
        return Err(ClassErr::AttrLength(attribute.at));
    }
    Ok(Some(value))
}

#[tactic(auto, unfolding(crate::specs::Reading::Members::field_attribute_at, crate::specs::Reading::Members::skipped_at))]
fn field_attribute(
    reader: &mut Reader,
    texts: &Texts,
    head: MemberHead,
    kept: Option<u16>,
) -> Result<Option<u16>, ClassErr>
    ensures { Reads reader.new result (field_attribute_at texts.now head kept reader.old) }
{
    let attribute = next_attribute(reader, texts)?;
    if has_flag(head.flags, STATIC) && is_constant_value(texts.items(), attribute.name) {
        return constant(reader, texts, head.desc, kept, attribute);
    }
    reader.take(attribute.len)?;
    Ok(kept)
}

fn field_attributes(
    reader: &mut Reader,
    texts: &Texts,
    head: MemberHead,
) -> Result<Option<u16>, ClassErr>
    ensures { Reads reader.new result
        (counted_at (field_attribute_at texts.now head) None reader.old) }
{
    let count = reader.u2()?;
    let mut constant = None;
    for _ in 0..count {
        constant = field_attribute(reader, texts, head, constant)?;
    }
    Ok(constant)
}

#[tactic(auto, unfolding(crate::specs::Reading::Members::field_at))]
fn field(
    reader: &mut Reader,
    texts: &Texts,
    seen: &mut BTreeSet<(u16, u16)>,
) -> Result<FieldItem, ClassErr>
    ensures exact { (earlier : Items Item) → HasSeen texts.now seen.old (field_keys earlier)
        → Reads reader.new result (field_at texts.now earlier reader.old) }
    ensures seen { (earlier : Items Item) → HasSeen texts.now seen.old (field_keys earlier)
        → IfOk result (λ f. HasSeen texts.now seen.new (field_keys (earlier ++ f ∷ []))) }
{
    let head = new_head(reader, texts, MemberKind::Field, seen)?;
    let constant = field_attributes(reader, texts, head)?;
    Ok(FieldItem {
        flags: head.flags,
        name: head.name,
        desc: head.desc,
        constant,
    })
}

/// Reads the fields of a class, and before them their count (JVMS2 4.5).
pub(crate) fn fields(
    alloc: Global,
    reader: &mut Reader,
    texts: &Texts,
) -> Result<List<FieldItem>, ClassErr>
    ensures { Reads reader.new result (listed_at (field_at texts.now) reader.old) }
{
    let count = reader.u2()?;
    let mut fields = List::new(alloc);
    let mut seen = BTreeSet::new(alloc);
    for _ in 0..count {
        let field = field(reader, texts, &mut seen)?;
        fields.push(field)?;
    }
    Ok(fields)
}
