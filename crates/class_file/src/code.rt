//! The code of methods.

ghost use Rattle.std.specs.Prelude.{◌≡◌, List as Items, IfOk};
ghost use Rattle.jvm_base.specs.declared.code_item.TableItem.{TableItem as Entry};
ghost use Rattle.class_file.specs.Reading.Words.{Reads, listed_at};
ghost use Rattle.class_file.specs.Reading.Members.{entry_numbers_at, table_item_at, sizes_at, code_contents_at, code_at};

use crate::attribute::{AttributeHead, other_attributes};
use crate::error::ClassErr;
use crate::reader::Reader;
use class_format::is_code_len;
use constant_pool::{Texts, is_class_at};
use jvm_base::{CodeItem, List, NoMemory, TableItem};
use std::alloc::Global;

/// The numbers that a Code begins with: how much of a frame it takes, and how long it is.
#[derive(Clone, Copy)]
struct CodeSizes {
    max_stack: u16,
    max_locals: u16,
    len: u32,
}

#[tactic(auto, unfolding(crate::specs::Reading::Members::entry_numbers_at))]
fn entry_numbers(reader: &mut Reader) -> Result<TableItem, ClassErr>
    ensures { Reads reader.new result (entry_numbers_at reader.old) }
{
    let start = reader.u2()?;
    let end = reader.u2()?;
    let handler = reader.u2()?;
    let class = reader.u2()?;
    Ok(TableItem {
        start,
        end,
        handler,
        class,
    })
}

#[tactic(auto, unfolding(crate::specs::Reading::Members::table_item_at))]
fn table_item(reader: &mut Reader, texts: &Texts) -> Result<TableItem, ClassErr>
    ensures { (earlier : Items Entry)
        → Reads reader.new result (table_item_at texts.now earlier reader.old) }
{
    let class_at = reader.offset_after(6);
    let item = entry_numbers(reader)?;
    if item.class != 0 && !is_class_at(texts.items(), item.class) {
        return Err(ClassErr::ItemLink(class_at));
    }
    Ok(item)
}

fn table(alloc: Global, reader: &mut Reader, texts: &Texts) -> Result<List<TableItem>, ClassErr>
    ensures { Reads reader.new result (listed_at (table_item_at texts.now) reader.old) }
{
    let count = reader.u2()?;
    let mut table = List::new(alloc);
    for _ in 0..count {
        let item = table_item(reader, texts)?;
        table.push(item)?;
    }
    Ok(table)
}

fn copied(alloc: Global, bytes: &[u8]) -> Result<List<u8>, NoMemory>
    ensures { IfOk result (λ list. list ≡ bytes.now) }
{
    let mut items = Vec::new(alloc);
    items.extend_from_slice(bytes)?;
    Ok(List::from_vec(items))
}

#[tactic(auto, unfolding(crate::specs::Reading::Members::sizes_at))]
fn sizes(reader: &mut Reader) -> Result<CodeSizes, ClassErr>
    ensures { Reads reader.new result (sizes_at reader.old) }
{
    let max_stack = reader.u2()?;
    let max_locals = reader.u2()?;
    let len = reader.u4()?;
    Ok(CodeSizes {
        max_stack,
        max_locals,
        len,
    })
}

#[tactic(auto, unfolding(crate::specs::Reading::Members::code_contents_at))]
fn code_contents(
    alloc: Global,
    reader: &mut Reader,
    texts: &Texts,
    method: u16,
) -> Result<CodeItem, ClassErr>
    ensures { Reads reader.new result (code_contents_at texts.now method reader.old) }
{
    let sizes = sizes(reader)?;
    if !is_code_len(sizes.len as usize) {
        return Err(ClassErr::CodeLength(method));
    }
    let code = copied(alloc, reader.take(sizes.len)?)?;
    let table = table(alloc, reader, texts)?;
    other_attributes(reader, texts)?;
    Ok(CodeItem {
        max_stack: sizes.max_stack,
        max_locals: sizes.max_locals,
        code,
        table,
    })
}

/// Reads the contents of a Code attribute (JVMS2 4.7.3), that of the method of this number.
#[tactic(auto, unfolding(crate::specs::Reading::Members::code_at))]
pub(crate) fn code(
    alloc: Global,
    reader: &mut Reader,
    texts: &Texts,
    method: u16,
    attribute: AttributeHead,
) -> Result<CodeItem, ClassErr>
    ensures { Reads reader.new result (code_at texts.now method attribute reader.old) }
{
    let left = reader.left();
    let code = code_contents(alloc, reader, texts, method)?;
    if left != attribute.len as usize + reader.left() {
        return Err(ClassErr::AttrLength(attribute.at));
    }
    Ok(code)
}
