//! The values of constants.

ghost use Rattle.std.specs.Prelude.{◌≡◌, ◌+◌, ◌<◌, ◌^◌, length, IfOk, IfSome};
ghost use Rattle.class_names.specs.Texts.{text_in};
ghost use Rattle.link_arrays.specs.Literals.{literal_number};
ghost use Rattle.link_uses.specs.TextNumbers.{AreOf};
ghost use Rattle.link_image.specs.Constants.{literal_value, constant_value};

use class_names::text;
use jvm_base::{List, NoMemory, PoolItem, Value};
use link_arrays::{Literals, literal_name};
use std::alloc::Global;

/// What constants stand for: `classes` counts the classes of the program, array classes among them.
#[derive(Clone, Copy)]
pub(crate) struct Constants<'a, 'b> {
    pub(crate) classes: u32,
    pub(crate) literals: &'a Literals<'b>,
}

/// The number of the literal of each text of a pool, by index, so that each text is read once.
pub(crate) fn literal_numbers(
    alloc: Global,
    literals: &Literals<'_>,
    pool: &[PoolItem],
) -> Result<List<Option<usize>>, NoMemory>
    ensures { IfOk result (λ told. AreOf (literal_number literals.now) pool.now told) }
{
    let mut told = List::new(alloc);
    let count = pool.len().min(u16::MAX as usize) as u16;
    for index in 0..count {
        told.push(literals.number(text(pool, index)))?;
    }
    Ok(told)
}

/// The number of the literal of the text at an index.
fn number_at(
    literals: &Literals<'_>,
    told: &[Option<usize>],
    pool: &[PoolItem],
    index: u16,
) -> Option<usize>
    requires { AreOf (literal_number literals.now) pool.now told.now }
    ensures at { result ≡ literal_number literals.now (text_in pool.now index) }
    ensures within { IfSome result (λ k. k < length literals.now) }
{
    match told.get(index as usize) {
        Some(number) => *number,
        None => literals.number(text(pool, index)),
    }
}

/// The object of the literal of the text at an index.
fn literal(
    constants: &Constants<'_, '_>,
    told: &[Option<usize>],
    pool: &[PoolItem],
    index: u16,
) -> Option<Value>
    requires room { constants.now.classes + length constants.now.literals.now < 2 ^ 32 }
    requires told { AreOf (literal_number constants.now.literals.now) pool.now told.now }
    ensures { result ≡ literal_value constants.now.classes constants.now.literals.now
        (text_in pool.now index) }
{
    let number = number_at(constants.literals, told, pool, index)?;
    Some(Value::Ref(literal_name(constants.classes, number as u32)))
}

/// The value of the constant at an index; `None` where no int, long or string stands there.
pub(crate) fn constant(
    constants: &Constants<'_, '_>,
    told: &[Option<usize>],
    pool: &[PoolItem],
    index: u16,
) -> Option<Value>
    requires room { constants.now.classes + length constants.now.literals.now < 2 ^ 32 }
    requires told { AreOf (literal_number constants.now.literals.now) pool.now told.now }
    ensures { result ≡ constant_value constants.now.classes constants.now.literals.now pool.now
        index }
{
    match pool.get(index as usize) {
        Some(PoolItem::Integer(value)) => Some(Value::Int(*value)),
        Some(PoolItem::Long(value)) => Some(Value::Long(*value)),
        Some(PoolItem::Text(at)) => literal(constants, told, pool, *at),
        _ => None,
    }
}
