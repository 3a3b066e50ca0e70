//! Names in the pool of a class file.

ghost use Rattle.std.specs.Prelude.{◌≡◌, ◌+◌, ◌*◌, ◌<◌, ◌≤◌, ◌^◌, ◌++◌, ◌∷◌, [], length, map, option_map, IfOk, OnOk};
ghost use Rattle.boot_table.specs.Files.{with_class, with_classes, class_indices, with_super, super_index, with_key, with_reference};
ghost use Rattle.boot_table.specs.Seen.{seen_reference};

use crate::op::Reference;
use jvm_base::{List, NoMemory, Pool, PoolItem, Units};
use std::alloc::Global;

/// The units of an ASCII text.
fn units(alloc: Global, text: &str) -> Result<Units, NoMemory>
    ensures { IfOk result (λ u. u ≡ text.now) }
{
    let mut units = Units::new(alloc);
    for b in text.as_bytes() {
        units.push(u16::from(*b))?;
    }
    Ok(units)
}

/// The index of the item that is added next.
pub(crate) fn next_index(pool: &Pool) -> u16
    requires { length pool.now < 2 ^ 16 }
    ensures { result ≡ length pool.now }
{
    pool.len() as u16
}

/// Adds a text.
pub(crate) fn add_text(alloc: Global, pool: &mut Pool, text: &str) -> Result<(), NoMemory>
    ensures { OnOk result (pool.new ≡ pool.old ++ PoolItem.Utf8 text.now ∷ []) }
{
    pool.push(PoolItem::Utf8(units(alloc, text)?))
}

/// Adds a class behind its name, and answers its index.
pub(crate) fn add_class(alloc: Global, pool: &mut Pool, name: &str) -> Result<u16, NoMemory>
    requires { length pool.old < 65000 }
    ensures added { OnOk result (pool.new ≡ with_class pool.old name.now) }
    ensures index { IfOk result (λ i. i ≡ length pool.old + 1) }
{
    let at = next_index(pool);
    add_text(alloc, pool, name)?;
    pool.push(PoolItem::Class(at))?;
    Ok(at + 1)
}

/// Adds a name and a descriptor, and answers the index of the name.
pub(crate) fn add_key(
    alloc: Global,
    pool: &mut Pool,
    name: &str,
    desc: &str,
) -> Result<u16, NoMemory>
    requires { length pool.old < 65000 }
    ensures added { OnOk result (pool.new ≡ with_key pool.old name.now desc.now) }
    ensures index { IfOk result (λ i. i ≡ length pool.old) }
{
    let at = next_index(pool);
    add_text(alloc, pool, name)?;
    add_text(alloc, pool, desc)?;
    Ok(at)
}

/// Adds what a member needs in front of its own item, and answers the first index.
pub(crate) fn add_reference(
    alloc: Global,
    pool: &mut Pool,
    member: &Reference,
) -> Result<u16, NoMemory>
    requires { length pool.old < 60000 }
    ensures added { OnOk result (pool.new ≡ with_reference pool.old (seen_reference member.now)) }
    ensures index { IfOk result (λ i. i ≡ length pool.old) }
{
    let at = next_index(pool);
    add_class(alloc, pool, member.class)?;
    add_key(alloc, pool, member.name, member.desc)?;
    pool.push(PoolItem::NameAndKind {
        name: at + 2,
        desc: at + 3,
    })?;
    Ok(at)
}

/// Adds the superclass, if there is one, and answers its index, or 0.
pub(crate) fn add_super(alloc: Global, pool: &mut Pool, name: Option<&str>) -> Result<u16, NoMemory>
    requires { length pool.old < 60000 }
    ensures added { OnOk result (pool.new ≡ with_super pool.old (option_map (λ s. s.now) name.entry)) }
    ensures index { IfOk result (λ i. i ≡ super_index pool.old (option_map (λ s. s.now) name.entry)) }
{
    match name {
        None => Ok(0),
        Some(name) => add_class(alloc, pool, name),
    }
}

/// Adds some classes, and answers their indices.
pub(crate) fn add_classes(
    alloc: Global,
    pool: &mut Pool,
    names: &[&str],
) -> Result<List<u16>, NoMemory>
    requires pool { length pool.old < 1000 }
    requires names { length names.now < 1000 }
    ensures added { OnOk result (pool.new ≡ with_classes pool.old (map (λ s. s.now) names.now)) }
    ensures indices { IfOk result (λ is. is ≡ class_indices pool.old (map (λ s. s.now) names.now)) }
    ensures length { OnOk result (length pool.new ≡ length pool.old + 2 * length names.now) }
{
    let mut indices = List::new(alloc);
    for name in names {
        indices.push(add_class(alloc, pool, name)?)?;
    }
    Ok(indices)
}
