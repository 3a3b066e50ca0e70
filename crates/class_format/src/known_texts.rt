//! Texts with a meaning of their own in a class file.

ghost use Rattle.std.specs.Prelude.{◌≡◌, false};
ghost use Rattle.std.specs.Option.{option_map_or};
ghost use Rattle.constant_pool.specs.Items.{is_the_text, is_text_that};
ghost use Rattle.class_format.specs.KnownTexts.{is_named, is_clinit, is_code, is_constant_value, is_string_desc, is_int_desc, is_constant, is_constant_at};

use constant_pool::{item_at, text_at, units_at};
use jvm_base::PoolItem;

/// `<clinit>`, the name of class initialisers (JVMS2 3.9).
pub const CLINIT: [u16; 8] = [60, 99, 108, 105, 110, 105, 116, 62];

/// `Code`, the name of the attribute (JVMS2 4.7.3).
pub const CODE: [u16; 4] = [67, 111, 100, 101];

/// `ConstantValue`, the name of the attribute (JVMS2 4.7.2).
pub const CONSTANT_VALUE: [u16; 13] = [67, 111, 110, 115, 116, 97, 110, 116, 86, 97, 108, 117, 101];

/// `Ljava/lang/String;`
const STRING: [u16; 18] = [
    76, 106, 97, 118, 97, 47, 108, 97, 110, 103, 47, 83, 116, 114, 105, 110, 103, 59,
];

/// Whether this text stands at the index.
fn is_the_text_at(pool: &[PoolItem], index: u16, text: &[u16]) -> bool
    ensures { result ≡ is_text_that (is_the_text text.now) pool.now index }
{
    match units_at(pool, index) {
        Some(units) => units == text,
        None => false,
    }
}

/// Whether the index is of a text that isn't empty.
pub fn is_named(pool: &[PoolItem], index: u16) -> bool
    ensures { result ≡ is_text_that is_named pool.now index }
{
    match units_at(pool, index) {
        Some(units) => !units.is_empty(),
        None => false,
    }
}

/// Whether the text at the index names a class initialiser (JVMS2 3.9).
pub fn is_clinit(pool: &[PoolItem], index: u16) -> bool
    ensures { result ≡ is_text_that is_clinit pool.now index }
{
    is_the_text_at(pool, index, &CLINIT)
}

/// Whether the text at the index names code (JVMS2 4.7.3).
pub fn is_code(pool: &[PoolItem], index: u16) -> bool
    ensures { result ≡ is_text_that is_code pool.now index }
{
    is_the_text_at(pool, index, &CODE)
}

/// Whether the text at the index names a constant value (JVMS2 4.7.2).
pub fn is_constant_value(pool: &[PoolItem], index: u16) -> bool
    ensures { result ≡ is_text_that is_constant_value pool.now index }
{
    is_the_text_at(pool, index, &CONSTANT_VALUE)
}

fn is_string_desc(text: &[u16]) -> bool
    ensures { result ≡ is_string_desc text.now }
{
    text == STRING.as_slice()
}

fn is_int_desc(text: &[u16]) -> bool
    ensures { result ≡ is_int_desc text.now }
{
    text == [b'I' as u16].as_slice()
        || text == [b'S' as u16].as_slice()
        || text == [b'C' as u16].as_slice()
        || text == [b'B' as u16].as_slice()
        || text == [b'Z' as u16].as_slice()
}

/// Whether a field of that descriptor may have the item as its constant (JVMS2 table 4.6).
fn is_constant(desc: &[u16], item: &PoolItem) -> bool
    ensures { result ≡ is_constant desc.now item.now }
{
    match item {
        PoolItem::Integer(_) => is_int_desc(desc),
        PoolItem::Float(_) => desc == [b'F' as u16].as_slice(),
        PoolItem::Long(_) => desc == [b'J' as u16].as_slice(),
        PoolItem::Double(_) => desc == [b'D' as u16].as_slice(),
        PoolItem::Text(_) => is_string_desc(desc),
        _ => false,
    }
}

/// Whether a field of the descriptor at `desc` may have the item at `value` as its constant.
pub fn is_constant_at(pool: &[PoolItem], desc: u16, value: u16) -> bool
    ensures { result ≡ is_constant_at pool.now desc value }
{
    match (text_at(pool, desc), item_at(pool, value)) {
        (Some(desc), Some(item)) => is_constant(desc.as_slice(), item),
        _ => false,
    }
}
