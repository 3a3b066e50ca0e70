//! A pool, and code that is decoded with it.

use code_table::{Code, CodeErr, decode_code};
use jvm_base::{CodeItem, List, NoMemory, Pool, PoolItem, TableItem, Units};
use std::alloc::Global;
use std::test::Fail;

fn text(alloc: Global, bytes: &[u8]) -> Result<PoolItem, Fail> {
    Ok(PoolItem::Utf8(Units::read(alloc, bytes)?))
}

/// 6 is a class of two dimensions, 7 to 9 are members of it, 10 to 16 constants, and 18 is a class
/// of 255 dimensions.
pub(crate) fn pool(alloc: Global) -> Result<Pool, Fail> {
    let mut pool = Pool::new(alloc)?;
    pool.push(text(alloc, b"[J")?)?;
    pool.push(text(alloc, b"(JI)V")?)?;
    pool.push(PoolItem::NameAndKind { name: 1, desc: 1 })?;
    pool.push(PoolItem::NameAndKind { name: 1, desc: 2 })?;
    pool.push(text(alloc, b"[[I")?)?;
    pool.push(PoolItem::Class(5))?;
    pool.push(PoolItem::Field { class: 6, pair: 3 })?;
    pool.push(PoolItem::Method { class: 6, pair: 4 })?;
    pool.push(PoolItem::InterfaceMethod { class: 6, pair: 4 })?;
    pool.push(PoolItem::Integer(7))?;
    pool.push(PoolItem::Float(0))?;
    pool.push(PoolItem::Long(9))?;
    pool.push(PoolItem::Gap)?;
    pool.push(PoolItem::Double(0))?;
    pool.push(PoolItem::Gap)?;
    pool.push(PoolItem::Text(1))?;
    pool.push(text(alloc, &[b'['; 255])?)?;
    pool.push(PoolItem::Class(17))?;
    Ok(pool)
}

fn list<T: Copy + Drop>(alloc: Global, items: &[T]) -> Result<List<T>, NoMemory> {
    Ok(List::from_vec(Vec::from_slice(alloc, items)?))
}

/// What code of these bytes and with this exception table is decoded to.
pub(crate) fn decoded(
    alloc: Global,
    pool: &Pool,
    code: &[u8],
    table: &[TableItem],
) -> Result<Code, CodeErr> {
    let item = CodeItem {
        max_stack: 2,
        max_locals: 1,
        code: list(alloc, code)?,
        table: list(alloc, table)?,
    };
    decode_code(alloc, &item, pool)
}
