//! Attributes, of which all but two are skipped.

ghost use Rattle.std.specs.Prelude.{◌≡◌};
ghost use Rattle.class_file.specs.Reading.Words.{Reads, counted_at};
ghost use Rattle.class_file.specs.Reading.Members.{attribute_at, skipped_at, other_at};

use crate::error::ClassErr;
use crate::reader::Reader;
use constant_pool::{Texts, is_text_at};

/// An attribute up to its contents: the index of its name, its length, and the offset of that.
#[derive(Clone, Copy)]
pub(crate) struct AttributeHead {
    pub(crate) name: u16,
    pub(crate) len: u32,
    pub(crate) at: u64,
}

/// Reads an attribute up to its contents (JVMS2 4.7).
#[tactic(auto, unfolding(crate::specs::Reading::Members::attribute_at))]
pub(crate) fn next_attribute(reader: &mut Reader, texts: &Texts) -> Result<AttributeHead, ClassErr>
    ensures { Reads reader.new result (attribute_at texts.now reader.old) }
{
    let name_at = reader.offset();
    let name = reader.u2()?;
    if !is_text_at(texts.items(), name) {
        return Err(ClassErr::ItemLink(name_at));
    }
    let at = reader.offset();
    let len = reader.u4()?;
    Ok(AttributeHead { name, len, at })
}

#[tactic(auto, unfolding(crate::specs::Reading::Members::other_at, crate::specs::Reading::Members::skipped_at))]
fn other(reader: &mut Reader, texts: &Texts) -> Result<(), ClassErr>
    ensures { Reads reader.new result (other_at texts.now tt reader.old) }
{
    let attribute = next_attribute(reader, texts)?;
    reader.take(attribute.len)?;
    Ok(())
}

/// Skips so many attributes as the count says, and the count.
pub(crate) fn other_attributes(reader: &mut Reader, texts: &Texts) -> Result<(), ClassErr>
    ensures { Reads reader.new result (counted_at (other_at texts.now) tt reader.old) }
{
    let count = reader.u2()?;
    for _ in 0..count {
        other(reader, texts)?;
    }
    Ok(())
}
