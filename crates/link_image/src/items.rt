//! What the items of a file's pool name, each member looked up and each text read once.

ghost use Rattle.std.specs.Prelude.{◌≡◌, IfOk, option_map};
ghost use Rattle.class_names.specs.Texts.{class_text, text_in};
ghost use Rattle.link_arrays.specs.ArrayClasses.{class_number};
ghost use Rattle.link_uses.specs.Items.{AreItems};
ghost use Rattle.link_uses.specs.TextNumbers.{AreOf};
ghost use Rattle.link_image.specs.Kept.Items.{item_field, item_method, item_class, AreTold};
ghost use Rattle.link_image.specs.Seen.{seen_lookup, IsFit};
ghost use Rattle.link_image.specs.Targets.{constant_of};

use crate::constants::{constant, literal_numbers};
use crate::lookup::{Lookup, field, method, number};
use class_format::ClassFile;
use class_names::text;
use constant_pool::class_at;
use jvm_base::{List, NoMemory, PoolItem};
use link_uses::{Found, field_at, method_at};
use program_image::Target;
use std::alloc::Global;

/// Of each item of a pool, by index, the member that it leads to; of each text the number of the
/// class that it names as a class item, and that of the literal of which it is the content.
#[derive(Drop)]
pub(crate) struct Told<'a> {
    pub(crate) found: &'a [Option<Found>],
    pub(crate) classes: List<Option<u32>>,
    pub(crate) literals: List<Option<usize>>,
}

/// The number of the class that each text of a pool names as a class item.
fn class_numbers(
    alloc: Global,
    lookup: &Lookup<'_, '_, '_>,
    pool: &[PoolItem],
) -> Result<List<Option<u32>>, NoMemory>
    requires { IsFit lookup.now }
    ensures { IfOk result
        (λ told. AreOf (class_number lookup.now.resolver.now lookup.now.arrays.now) pool.now told) }
{
    let mut told = List::new(alloc);
    let count = pool.len().min(u16::MAX as usize) as u16;
    for index in 0..count {
        told.push(number(alloc, lookup, text(pool, index))?)?;
    }
    Ok(told)
}

impl<'a> Told<'a> {
    /// What is told of a file's pool, of whose items this was found.
    pub(crate) fn new(
        alloc: Global,
        lookup: &Lookup<'_, '_, '_>,
        file: &ClassFile,
        found: &'a [Option<Found>],
    ) -> Result<Told<'a>, NoMemory>
        requires fit { IsFit lookup.now }
        requires found { AreItems lookup.now.resolver.now file.now.pool found.now }
        ensures { IfOk result (λ told. AreTold (seen_lookup lookup.now) file.now told) }
    {
        let pool = file.pool.as_slice();
        Ok(Told {
            found,
            classes: class_numbers(alloc, lookup, pool)?,
            literals: literal_numbers(alloc, lookup.constants.literals, pool)?,
        })
    }
}

/// The field that the item at an index names.
pub(crate) fn item_field(
    lookup: &Lookup<'_, '_, '_>,
    file: &ClassFile,
    told: &Told<'_>,
    item: u16,
) -> Option<Target>
    requires { AreTold (seen_lookup lookup.now) file.now told.now }
    ensures { result ≡ item_field (seen_lookup lookup.now) file.now item }
{
    let pool = file.pool.as_slice();
    let found = field_at(lookup.resolver, pool, told.found, item)?;
    field(lookup, &found)
}

/// The method that the item at an index names.
pub(crate) fn item_method(
    lookup: &Lookup<'_, '_, '_>,
    file: &ClassFile,
    told: &Told<'_>,
    item: u16,
) -> Option<Target>
    requires { AreTold (seen_lookup lookup.now) file.now told.now }
    ensures { result ≡ item_method (seen_lookup lookup.now) file.now item }
{
    let pool = file.pool.as_slice();
    let found = method_at(lookup.resolver, pool, told.found, item)?;
    method(lookup, &found)
}

/// The number of the class that the text at an index names as a class item.
fn text_class(
    alloc: Global,
    lookup: &Lookup<'_, '_, '_>,
    told: &[Option<u32>],
    pool: &[PoolItem],
    index: u16,
) -> Result<Option<u32>, NoMemory>
    requires fit { IsFit lookup.now }
    requires told { AreOf (class_number lookup.now.resolver.now lookup.now.arrays.now) pool.now
        told.now }
    ensures { IfOk result
        (λ number. number ≡ class_number lookup.now.resolver.now lookup.now.arrays.now
        (text_in pool.now index)) }
{
    match told.get(index as usize) {
        Some(number) => Ok(*number),
        None => number(alloc, lookup, text(pool, index)),
    }
}

/// The number of the class that the class item at an index names.
fn class_at_item(
    alloc: Global,
    lookup: &Lookup<'_, '_, '_>,
    told: &[Option<u32>],
    pool: &[PoolItem],
    item: u16,
) -> Result<Option<u32>, NoMemory>
    requires fit { IsFit lookup.now }
    requires told { AreOf (class_number lookup.now.resolver.now lookup.now.arrays.now) pool.now
        told.now }
    ensures { IfOk result
        (λ number. number ≡ class_number lookup.now.resolver.now lookup.now.arrays.now
        (class_text pool.now item)) }
{
    match class_at(pool, item) {
        Some(name) => text_class(alloc, lookup, told, pool, name),
        None => number(alloc, lookup, &[]),
    }
}

/// The class of a number, if there is one.
fn target(number: Option<u32>) -> Option<Target>
    ensures { result ≡ option_map Target.Class number }
{
    match number {
        Some(number) => Some(Target::Class(number)),
        None => None,
    }
}

/// The class that the item at an index names.
pub(crate) fn item_class(
    alloc: Global,
    lookup: &Lookup<'_, '_, '_>,
    file: &ClassFile,
    told: &Told<'_>,
    item: u16,
) -> Result<Option<Target>, NoMemory>
    requires fit { IsFit lookup.now }
    requires told { AreTold (seen_lookup lookup.now) file.now told.now }
    ensures { IfOk result (λ target. target ≡ item_class (seen_lookup lookup.now) file.now item) }
{
    let (pool, classes) = (file.pool.as_slice(), told.classes.as_slice());
    Ok(target(class_at_item(alloc, lookup, classes, pool, item)?))
}

/// The constant at an index.
pub(crate) fn item_constant(
    lookup: &Lookup<'_, '_, '_>,
    file: &ClassFile,
    told: &Told<'_>,
    item: u16,
) -> Option<Target>
    requires fit { IsFit lookup.now }
    requires told { AreTold (seen_lookup lookup.now) file.now told.now }
    ensures { result ≡ constant_of (seen_lookup lookup.now) file.now item }
{
    let (pool, literals) = (file.pool.as_slice(), told.literals.as_slice());
    let value = constant(&lookup.constants, literals, pool, item)?;
    Some(Target::Constant(value))
}
