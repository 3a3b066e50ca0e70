//! Whether a constant pool can be spelled.

ghost use Rattle.std.specs.Prelude.{◌≡◌, ◌↔◌, ◌<◌, ◌^◌, false, IsTrue};
ghost use Rattle.jvm_base.specs.Units.{AreUnits};
ghost use Rattle.constant_pool.specs.Items.{is_wide};
ghost use Rattle.class_format.specs.Meaning.{FitsItem, AreItems, IsPool, FormedPool};
ghost use Rattle.class_format.specs.Judging.Formed.{Follows};

use crate::class::COUNT_LIMIT;
use constant_pool::is_wide;
use jvm_base::{PoolItem, Units};

/// A text takes two bytes for its length. What its units are is known of their slice.
fn fits_units(_units: &[u16], byte_len: usize) -> bool
    ensures { IsTrue result ↔ (AreUnits _units.now × (byte_len < 2 ^ 16)) }
{
    byte_len < 65536
}

fn fits_text(text: &Units) -> bool
    ensures { IsTrue result ↔ FitsItem (PoolItem.Utf8 text.now) }
{
    fits_units(text.as_slice(), text.byte_len())
}

fn fits_item(item: &PoolItem) -> bool
    ensures { IsTrue result ↔ FitsItem item.now }
{
    match *item {
        PoolItem::Gap => false,
        PoolItem::Utf8(ref text) => fits_text(text),
        PoolItem::Integer(_number) => true,
        PoolItem::Float(_bits) => true,
        PoolItem::Long(_number) => true,
        PoolItem::Double(_bits) => true,
        PoolItem::Class(_name) => true,
        PoolItem::Text(_text) => true,
        PoolItem::Field {
            class: _class,
            pair: _pair,
        } => true,
        PoolItem::Method {
            class: _class,
            pair: _pair,
        } => true,
        PoolItem::InterfaceMethod {
            class: _class,
            pair: _pair,
        } => true,
        PoolItem::NameAndKind {
            name: _name,
            desc: _desc,
        } => true,
    }
}

fn is_gap(item: &PoolItem) -> bool
    ensures { IsTrue result ↔ (item.now ≡ PoolItem.Gap) }
{
    matches!(item, PoolItem::Gap)
}

/// Whether the item takes a second index; `None` where it can't stand behind the one before.
fn follows(item: &PoolItem, after_wide: bool) -> Option<bool>
    ensures { Follows item.now after_wide result }
{
    if after_wide {
        if is_gap(item) { Some(false) } else { None }
    } else if fits_item(item) {
        Some(is_wide(item))
    } else {
        None
    }
}

fn are_items(items: &[PoolItem]) -> bool
    ensures { IsTrue result ↔ AreItems false items.now }
{
    let mut after_wide = false;
    for item in items {
        match follows(item, after_wide) {
            Some(wide) => after_wide = wide,
            None => return false,
        }
    }
    !after_wide
}

fn is_pool(pool: &[PoolItem]) -> bool
    ensures { IsTrue result ↔ IsPool pool.now }
{
    match pool {
        [PoolItem::Gap, items @ ..] => are_items(items),
        _ => false,
    }
}

/// Whether the items can be spelled.
pub(crate) fn is_formed_pool(pool: &[PoolItem]) -> bool
    ensures { IsTrue result ↔ FormedPool pool.now }
{
    pool.len() < COUNT_LIMIT && is_pool(pool)
}
