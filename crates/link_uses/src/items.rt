//! The members that a file's code names, each looked up once for its item.

ghost use Rattle.std.specs.Prelude.{◌≡◌, slice_get, IfOk};
ghost use Rattle.class_names.specs.Texts.{member_in};
ghost use Rattle.link_uses.specs.Items.{found_at_index, AreItems, HaveItems, is_field_item, is_method_item};
ghost use Rattle.link_uses.specs.Lookups.{found_field, found_method};
ghost use Rattle.link_uses.specs.TextNumbers.{AreNumbers};

use crate::lookup::{Found, Resolver};
use crate::text_numbers::TextNumbers;
use class_format::ClassFile;
use class_names::member;
use jvm_base::{List, NoMemory, PoolItem};
use std::alloc::Global;

/// The member that the item at an index leads to.
#[tactic(auto, unfolding(crate::specs::Items::found_at_index))]
fn find(resolver: &Resolver, numbers: &TextNumbers, pool: &[PoolItem], index: u16) -> Option<Found>
    requires { AreNumbers resolver.now pool.now numbers.now }
    ensures { result ≡ found_at_index resolver.now pool.now index }
{
    match pool.get(index as usize) {
        Some(PoolItem::Field { class, pair }) => resolver.item_field(numbers, pool, *class, *pair),
        Some(PoolItem::Method { class, pair } | PoolItem::InterfaceMethod { class, pair }) =>
            resolver.item_method(numbers, pool, *class, *pair),
        _ => None,
    }
}

/// The members that the items of a file lead to, by index.
fn file_items(
    alloc: Global,
    resolver: &Resolver,
    file: &ClassFile,
) -> Result<List<Option<Found>>, NoMemory>
    ensures { IfOk result (λ found. AreItems resolver.now file.now.pool found) }
{
    let pool = file.pool.as_slice();
    let numbers = resolver.text_numbers(alloc, pool)?;
    let mut found = List::new(alloc);
    let count = pool.len().min(u16::MAX as usize) as u16;
    for index in 0..count {
        found.push(find(resolver, &numbers, pool, index))?;
    }
    Ok(found)
}

/// The members that the items of each of some files lead to, by index.
pub fn all_items(
    alloc: Global,
    resolver: &Resolver,
    files: &[ClassFile],
) -> Result<List<List<Option<Found>>>, NoMemory>
    ensures { IfOk result (λ items. HaveItems resolver.now files.now items) }
{
    let mut items = List::new(alloc);
    for file in files {
        items.push(file_items(alloc, resolver, file)?)?;
    }
    Ok(items)
}

fn is_field(pool: &[PoolItem], item: u16) -> bool
    ensures { result ≡ is_field_item (slice_get pool.now item) }
{
    matches!(pool.get(item as usize), Some(PoolItem::Field { .. }))
}

fn is_method(pool: &[PoolItem], item: u16) -> bool
    ensures { result ≡ is_method_item (slice_get pool.now item) }
{
    matches!(
        pool.get(item as usize),
        Some(PoolItem::Method { .. } | PoolItem::InterfaceMethod { .. })
    )
}

/// The field that the item at an index names, of whose file this was found.
pub fn field_at(
    resolver: &Resolver,
    pool: &[PoolItem],
    found: &[Option<Found>],
    item: u16,
) -> Option<Found>
    requires { AreItems resolver.now pool.now found.now }
    ensures { result ≡ found_field resolver.now (member_in pool.now item) }
{
    match found.get(item as usize) {
        Some(found) if is_field(pool, item) => *found,
        _ => resolver.field(&member(pool, item)),
    }
}

/// The method that the item at an index names, of whose file this was found.
pub fn method_at(
    resolver: &Resolver,
    pool: &[PoolItem],
    found: &[Option<Found>],
    item: u16,
) -> Option<Found>
    requires { AreItems resolver.now pool.now found.now }
    ensures { result ≡ found_method resolver.now (member_in pool.now item) }
{
    match found.get(item as usize) {
        Some(found) if is_method(pool, item) => *found,
        _ => resolver.method(&member(pool, item)),
    }
}
