//! Items of the pool, as instructions need them.

ghost use Rattle.std.specs.Prelude.{◌≡◌};
ghost use Rattle.std.specs.Option.{option_copied};
ghost use Rattle.code_table.specs.Items.{class_dimensions, dimensions_of, field_desc, method_desc};
ghost use Rattle.code_table.specs.Items.{interface_method_desc};

use crate::descs::Descs;
use constant_pool::{class_at, pair_desc, text_at};
use jvm_base::{Desc, MethodDesc, Pool, PoolItem, Units};
use shared_value::Shared;

/// The dimensions of the class that has this name.
fn dimensions_of(name: &Units) -> usize
    ensures { result ≡ dimensions_of name.now }
{
    name.as_slice()
        .iter()
        .take_while(|unit| **unit == u16::from(b'['))
        .count()
}

/// The dimensions of the class at an index; `None` where no class with a name is there.
pub(crate) fn class_dimensions(pool: &Pool, at: u16) -> Option<usize>
    ensures { result ≡ class_dimensions pool.now at }
{
    let items = pool.as_slice();
    let name = class_at(items, at)?;
    Some(dimensions_of(text_at(items, name)?))
}

/// The descriptor of the field at an index.
pub(crate) fn field_desc<'a>(descs: &'a Descs<'_>, at: u16) -> Option<&'a Shared<Desc>>
    ensures { option_copied result ≡ field_desc descs.now at }
{
    match descs.pool().get(at as usize) {
        Some(PoolItem::Field { pair, .. }) => descs.field(pair_desc(
            descs.pool().as_slice(),
            *pair,
        )?),
        _ => None,
    }
}

/// The descriptor of the method at an index.
pub(crate) fn method_desc<'a>(descs: &'a Descs<'_>, at: u16) -> Option<&'a Shared<MethodDesc>>
    ensures { option_copied result ≡ method_desc descs.now at }
{
    match descs.pool().get(at as usize) {
        Some(PoolItem::Method { pair, .. }) => descs.method(pair_desc(
            descs.pool().as_slice(),
            *pair,
        )?),
        _ => None,
    }
}

/// The descriptor of the interface method at an index.
pub(crate) fn interface_method_desc<'a>(
    descs: &'a Descs<'_>,
    at: u16,
) -> Option<&'a Shared<MethodDesc>>
    ensures { option_copied result ≡ interface_method_desc descs.now at }
{
    match descs.pool().get(at as usize) {
        Some(PoolItem::InterfaceMethod { pair, .. }) => {
            descs.method(pair_desc(descs.pool().as_slice(), *pair)?)
        }
        _ => None,
    }
}
