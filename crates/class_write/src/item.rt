//! The constant pool (JVMS2 4.4).

ghost use Rattle.std.specs.Prelude.{◌≡◌, ◌++◌, ◌∷◌, ◌<◌, ◌^◌, [], length, OnOk};
ghost use Rattle.jvm_base.specs.Text.{text_bytes};
ghost use Rattle.class_format.specs.Spelling.{number2, item_bytes};
ghost use Rattle.class_write.specs.Writing.Written.{FitsWritten};

use crate::number::{push_u2, push_u4, push_u8};
use jvm_base::{NoMemory, PoolItem, Units};
use std::alloc::Global;

fn push_text(alloc: Global, out: &mut Vec<u8>, text: &Units) -> Result<(), NoMemory>
    requires { length (text_bytes text.now) < 2 ^ 16 }
    ensures { OnOk result (out.new.items ≡ out.old.items
        ++ (number2 (length (text_bytes text.now)) ++ text_bytes text.now)) }
{
    let bytes = text.write(alloc)?;
    push_u2(out, bytes.len() as u16)?;
    out.extend_from_slice(bytes.as_slice())?;
    Ok(())
}

fn push_tagged(out: &mut Vec<u8>, tag: u8, index: u16) -> Result<(), NoMemory>
    ensures { OnOk result (out.new.items ≡ out.old.items ++ tag ∷ number2 index) }
{
    out.push(tag)?;
    push_u2(out, index)
}

fn push_pair(out: &mut Vec<u8>, tag: u8, first: u16, second: u16) -> Result<(), NoMemory>
    ensures { OnOk result (out.new.items ≡ out.old.items
        ++ (tag ∷ number2 first ++ number2 second)) }
{
    push_tagged(out, tag, first)?;
    push_u2(out, second)
}

/// An item, its tag first (JVMS2 4.4); a gap has no bytes.
pub(crate) fn push_item(alloc: Global, out: &mut Vec<u8>, item: &PoolItem) -> Result<(), NoMemory>
    requires { FitsWritten item.now }
    ensures { OnOk result (out.new.items ≡ out.old.items ++ item_bytes item.now) }
{
    match item {
        PoolItem::Gap => Ok(()),
        PoolItem::Utf8(text) => {
            out.push(1)?;
            push_text(alloc, out, text)
        }
        PoolItem::Integer(number) => {
            out.push(3)?;
            push_u4(out, number.cast_unsigned())
        }
        PoolItem::Float(bits) => {
            out.push(4)?;
            push_u4(out, *bits)
        }
        PoolItem::Long(number) => {
            out.push(5)?;
            push_u8(out, number.cast_unsigned())
        }
        PoolItem::Double(bits) => {
            out.push(6)?;
            push_u8(out, *bits)
        }
        PoolItem::Class(name) => push_tagged(out, 7, *name),
        PoolItem::Text(text) => push_tagged(out, 8, *text),
        PoolItem::Field { class, pair } => push_pair(out, 9, *class, *pair),
        PoolItem::Method { class, pair } => push_pair(out, 10, *class, *pair),
        PoolItem::InterfaceMethod { class, pair } => push_pair(out, 11, *class, *pair),
        PoolItem::NameAndKind { name, desc } => push_pair(out, 12, *name, *desc),
    }
}
