//! The constant pool, read from its bytes.

ghost use Rattle.std.specs.Prelude.{◌≡◌, ◌<◌, ◌≤◌, ◌^◌, length, Some, slice_get, IfOk, max};
ghost use Rattle.class_file.specs.Reading.Words.{Reads};
ghost use Rattle.class_file.specs.Reading.Pools.{text_item_at, content_at, two_indices_at, item_at, next_item_at, is_after_wide, pool_at};

use crate::error::ClassErr;
use crate::reader::Reader;
use constant_pool::is_wide;
use jvm_base::{NameErr, Pool, PoolItem, Units};
use std::alloc::Global;

#[tactic(auto, unfolding(crate::specs::Reading::Pools::text_item_at))]
fn text_item(alloc: Global, reader: &mut Reader, index: u16) -> Result<PoolItem, ClassErr>
    ensures { Reads reader.new result (text_item_at index reader.old) }
{
    let len = reader.u2()?;
    let bytes = reader.take(len as u32)?;
    match Units::read(alloc, bytes) {
        Ok(units) => Ok(PoolItem::Utf8(units)),
        Err(NameErr::NoMemory) => Err(ClassErr::NoMemory),
        Err(_) => Err(ClassErr::PoolText(index)),
    }
}

#[tactic(auto, unfolding(crate::specs::Reading::Pools::content_at))]
fn content(
    alloc: Global,
    reader: &mut Reader,
    tag: u8,
    index: u16,
    has_room: bool,
) -> Result<PoolItem, ClassErr>
    ensures { Reads reader.new result (content_at tag index has_room reader.old) }
{
    match tag {
        1 => text_item(alloc, reader, index),
        3 => Ok(PoolItem::Integer(reader.u4()?.cast_signed())),
        4 => Ok(PoolItem::Float(reader.u4()?)),
        5 | 6 if !has_room => Err(ClassErr::PoolTag(index)),
        5 => Ok(PoolItem::Long(reader.u8()?.cast_signed())),
        6 => Ok(PoolItem::Double(reader.u8()?)),
        7 => Ok(PoolItem::Class(reader.u2()?)),
        8 => Ok(PoolItem::Text(reader.u2()?)),
        9 => {
            let (class, pair) = two_indices(reader)?;
            Ok(PoolItem::Field { class, pair })
        }
        10 => {
            let (class, pair) = two_indices(reader)?;
            Ok(PoolItem::Method { class, pair })
        }
        11 => {
            let (class, pair) = two_indices(reader)?;
            Ok(PoolItem::InterfaceMethod { class, pair })
        }
        12 => {
            let (name, desc) = two_indices(reader)?;
            Ok(PoolItem::NameAndKind { name, desc })
        }
        _ => Err(ClassErr::PoolTag(index)),
    }
}

#[tactic(auto, unfolding(crate::specs::Reading::Pools::two_indices_at))]
fn two_indices(reader: &mut Reader) -> Result<(u16, u16), ClassErr>
    ensures { Reads reader.new result (two_indices_at reader.old) }
{
    let first = reader.u2()?;
    let second = reader.u2()?;
    Ok((first, second))
}

#[tactic(auto, unfolding(crate::specs::Reading::Pools::item_at))]
fn item(
    alloc: Global,
    reader: &mut Reader,
    index: u16,
    has_room: bool,
) -> Result<PoolItem, ClassErr>
    ensures { Reads reader.new result (item_at index has_room reader.old) }
{
    let tag = reader.u1()?;
    content(alloc, reader, tag, index, has_room)
}

/// Whether the last item takes a second index.
fn is_after_wide(pool: &Pool) -> bool
    ensures { result ≡ is_after_wide pool.now }
{
    match pool.as_slice().last() {
        Some(item) => is_wide(item),
        None => false,
    }
}

#[tactic(auto, unfolding(crate::specs::Reading::Pools::next_item_at))]
fn next_item(
    alloc: Global,
    reader: &mut Reader,
    pool: &Pool,
    count: u16,
) -> Result<PoolItem, ClassErr>
    requires { length pool.now < count }
    ensures { Reads reader.new result (next_item_at count pool.now reader.old) }
{
    if is_after_wide(pool) {
        return Ok(PoolItem::Gap);
    }
    let index = pool.len() as u16;
    item(alloc, reader, index, index + 1 < count)
}

/// Reads the items of a pool of this count (JVMS2 4.1).
pub(crate) fn pool(alloc: Global, reader: &mut Reader, count: u16) -> Result<Pool, ClassErr>
    ensures long { IfOk result (λ pool. length pool < 2 ^ 16) }
    ensures gap { IfOk result (λ pool. slice_get pool 0 ≡ Some PoolItem.Gap) }
    ensures exact { Reads reader.new result (pool_at count reader.old) }
{
    let mut pool = Pool::new(alloc)?;
    for _ in 1..count {
        let item = next_item(alloc, reader, &pool, count)?;
        pool.push(item)?;
    }
    Ok(pool)
}
