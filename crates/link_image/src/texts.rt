//! The names and descriptors of a class's members, each text read once.

ghost use Rattle.std.specs.Prelude.{◌≡◌, map, slice_get, IfOk, IfSome};
ghost use Rattle.class_names.specs.Texts.{text_in};
ghost use Rattle.link_image.specs.Kept.Backs.{AreBacks};
ghost use Rattle.link_image.specs.Kept.Texts.{field_desc_in, method_desc_in};

use class_names::text;
use jvm_base::{Desc, Elem, List, MethodDesc, NoMemory, PoolItem, Units};
use shared_value::Shared;
use std::alloc::Global;

/// The type of a field by its descriptor's index.
fn parsed_desc(alloc: Global, pool: &[PoolItem], index: u16) -> Result<Desc, NoMemory>
    ensures { IfOk result (λ desc. desc ≡ field_desc_in pool.now index) }
{
    match class_names::desc(alloc, text(pool, index))? {
        Some(desc) => Ok(desc),
        None => Ok(Desc {
            dims: 0,
            elem: Elem::Int,
        }),
    }
}

/// The type of a method by its descriptor's index.
fn parsed_method_desc(alloc: Global, pool: &[PoolItem], index: u16) -> Result<MethodDesc, NoMemory>
    ensures { IfOk result (λ desc. desc ≡ method_desc_in pool.now index) }
{
    match class_names::method_desc(alloc, pool, index)? {
        Some(desc) => Ok(desc),
        None => Ok(MethodDesc {
            args: List::new(alloc),
            ret: None,
        }),
    }
}

/// The text at an index, which may have been made already, at a place.
fn name(
    alloc: Global,
    pool: &[PoolItem],
    index: u16,
    made: &[Shared<Units>],
    at: usize,
) -> Result<Shared<Units>, NoMemory>
    requires { IfSome (slice_get made.now at) (λ name. name ≡ text_in pool.now index) }
    ensures { IfOk result (λ name. name ≡ text_in pool.now index) }
{
    match made.get(at) {
        Some(name) => name.share(),
        None => Shared::new(alloc, Units::from_slice(alloc, text(pool, index))?),
    }
}

/// The texts at some indices, where `backs` tells how far back each stood first.
pub(crate) fn shared_names(
    alloc: Global,
    pool: &[PoolItem],
    indices: &[u16],
    backs: &[usize],
) -> Result<List<Shared<Units>>, NoMemory>
    requires { AreBacks indices.now backs.now }
    ensures { IfOk result (λ names. names ≡ map (text_in pool.now) indices.now) }
{
    let mut names = List::new(alloc);
    for place in 0..indices.len() {
        let (index, back) = (indices[place], backs[place]);
        let name = name(alloc, pool, index, names.as_slice(), place - back)?;
        names.push(name)?;
    }
    Ok(names)
}

/// The type of a field at an index, which may have been made already, at a place.
fn desc(
    alloc: Global,
    pool: &[PoolItem],
    index: u16,
    made: &[Shared<Desc>],
    at: usize,
) -> Result<Shared<Desc>, NoMemory>
    requires { IfSome (slice_get made.now at) (λ desc. desc ≡ field_desc_in pool.now index) }
    ensures { IfOk result (λ desc. desc ≡ field_desc_in pool.now index) }
{
    match made.get(at) {
        Some(desc) => desc.share(),
        None => Shared::new(alloc, parsed_desc(alloc, pool, index)?),
    }
}

/// The types of fields at some indices.
pub(crate) fn shared_descs(
    alloc: Global,
    pool: &[PoolItem],
    indices: &[u16],
    backs: &[usize],
) -> Result<List<Shared<Desc>>, NoMemory>
    requires { AreBacks indices.now backs.now }
    ensures { IfOk result (λ descs. descs ≡ map (field_desc_in pool.now) indices.now) }
{
    let mut descs = List::new(alloc);
    for place in 0..indices.len() {
        let (index, back) = (indices[place], backs[place]);
        let desc = desc(alloc, pool, index, descs.as_slice(), place - back)?;
        descs.push(desc)?;
    }
    Ok(descs)
}

/// The type of a method at an index, which may have been made already, at a place.
fn method_desc(
    alloc: Global,
    pool: &[PoolItem],
    index: u16,
    made: &[Shared<MethodDesc>],
    at: usize,
) -> Result<Shared<MethodDesc>, NoMemory>
    requires { IfSome (slice_get made.now at)
        (λ method_desc. method_desc ≡ method_desc_in pool.now index) }
    ensures { IfOk result (λ method_desc. method_desc ≡ method_desc_in pool.now index) }
{
    match made.get(at) {
        Some(method_desc) => method_desc.share(),
        None => Shared::new(alloc, parsed_method_desc(alloc, pool, index)?),
    }
}

/// The types of methods at some indices.
pub(crate) fn shared_method_descs(
    alloc: Global,
    pool: &[PoolItem],
    indices: &[u16],
    backs: &[usize],
) -> Result<List<Shared<MethodDesc>>, NoMemory>
    requires { AreBacks indices.now backs.now }
    ensures { IfOk result (λ method_descs. method_descs ≡ map (method_desc_in pool.now) indices.now) }
{
    let mut method_descs = List::new(alloc);
    for place in 0..indices.len() {
        let (index, back) = (indices[place], backs[place]);
        let method_desc = method_desc(alloc, pool, index, method_descs.as_slice(), place - back)?;
        method_descs.push(method_desc)?;
    }
    Ok(method_descs)
}
