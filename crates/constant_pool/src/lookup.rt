//! What stands at an index of a pool.

ghost use Rattle.std.specs.Prelude.{◌≡◌, slice_get, option_and_then};
ghost use Rattle.std.specs.Option.{option_copied};
ghost use Rattle.constant_pool.specs.Items.{text_of, text_at, is_text_at, is_the_text, is_item_that, class_at, is_class_at, desc_index, pair_text, is_wide, units};

use jvm_base::{PoolItem, Units};

/// Whether the item is this text.
pub fn is_text(item: &PoolItem, text: &[u16]) -> bool
    ensures { result ≡ is_item_that (is_the_text text.now) item.now }
{
    match item {
        PoolItem::Utf8(units) => units.as_slice() == text,
        _ => false,
    }
}

/// Whether the item takes a second index (JVMS2 4.4.5).
pub fn is_wide(item: &PoolItem) -> bool
    ensures { result ≡ is_wide item.now }
{
    matches!(item, PoolItem::Long(_) | PoolItem::Double(_))
}

/// The item at an index.
pub fn item_at(pool: &[PoolItem], index: u16) -> Option<&PoolItem>
    ensures { option_copied result ≡ slice_get pool.now index }
{
    pool.get(index as usize)
}

/// The text at an index, if the item there is one.
pub fn text_at(pool: &[PoolItem], index: u16) -> Option<&Units>
    ensures { option_copied result ≡ text_at pool.now index }
{
    match item_at(pool, index) {
        Some(PoolItem::Utf8(text)) => Some(text),
        _ => None,
    }
}

/// The units of the text at an index.
pub fn units_at(pool: &[PoolItem], index: u16) -> Option<&[u16]>
    ensures { units result ≡ text_at pool.now index }
{
    match text_at(pool, index) {
        Some(text) => Some(text.as_slice()),
        None => None,
    }
}

/// Whether a text stands at the index.
pub fn is_text_at(pool: &[PoolItem], index: u16) -> bool
    ensures { result ≡ is_text_at pool.now index }
{
    text_at(pool, index).is_some()
}

/// The index of the name of the class at an index.
pub fn class_at(pool: &[PoolItem], index: u16) -> Option<u16>
    ensures { result ≡ class_at pool.now index }
{
    match item_at(pool, index) {
        Some(PoolItem::Class(name)) => Some(*name),
        _ => None,
    }
}

/// Whether a class stands at the index.
pub fn is_class_at(pool: &[PoolItem], index: u16) -> bool
    ensures { result ≡ is_class_at pool.now index }
{
    class_at(pool, index).is_some()
}

/// The index of the descriptor of the name and descriptor at an index.
pub fn pair_desc(pool: &[PoolItem], index: u16) -> Option<u16>
    ensures { result ≡ option_and_then desc_index (slice_get pool.now index) }
{
    match item_at(pool, index) {
        Some(PoolItem::NameAndKind { desc, .. }) => Some(*desc),
        _ => None,
    }
}

/// The text of the descriptor of the name and descriptor at an index.
pub fn pair_text(pool: &[PoolItem], index: u16) -> Option<&Units>
    ensures { option_copied result ≡ pair_text pool.now index }
{
    text_at(pool, pair_desc(pool, index)?)
}
