//! Which texts of a file's pool name only classes that are there, each asked once.

ghost use Rattle.std.specs.Prelude.{◌≡◌, true, IfOk};
ghost use Rattle.std.specs.List.{list_all};
ghost use Rattle.jvm_base.specs.Descriptors.{method_of};
ghost use Rattle.jvm_base.specs.Words.{from};
ghost use Rattle.class_names.specs.Texts.{text_in};
ghost use Rattle.link_rules.specs.Marks.{AreTested};
ghost use Rattle.link_rules.specs.Walks.Missing.{knows_desc, knows_method, knows_field_text, knows_method_text, knows_class_text, AreKnown};

use class_names::{Names, desc, is_array, method_desc, text};
use jvm_base::{Desc, Elem, List, MethodDesc, NoMemory, PoolItem};
use std::alloc::Global;

/// Of each text of a pool, by index, whether no class that it names is missing: read as the text of
/// a class item, as the descriptor of a field, and as that of a method.
#[derive(Drop)]
pub(crate) struct Known {
    pub(crate) classes: List<bool>,
    pub(crate) fields: List<bool>,
    pub(crate) methods: List<bool>,
}

fn knows_desc(names: &Names, desc: &Desc) -> bool
    ensures { result ≡ knows_desc names.now desc.now }
{
    match &desc.elem {
        Elem::Object(name) => names.has(name.as_slice()),
        _ => true,
    }
}

fn knows_all(names: &Names, descs: &[Desc]) -> bool
    ensures { result ≡ list_all (knows_desc names.now) descs.now }
{
    descs.iter().all(|desc| knows_desc(names, desc))
}

fn knows_method(names: &Names, desc: &MethodDesc) -> bool
    ensures { result ≡ knows_method names.now desc.now }
{
    if !knows_all(names, desc.args.as_slice()) {
        return false;
    }
    match &desc.ret {
        Some(ret) => knows_desc(names, ret),
        None => true,
    }
}

#[tactic(auto, unfolding(crate::specs::Walks::Missing::knows_field_text))]
fn knows_field_text(alloc: Global, names: &Names, text: &[u16]) -> Result<bool, NoMemory>
    ensures { IfOk result (λ b. b ≡ knows_field_text names.now text.now) }
{
    match desc(alloc, text)? {
        Some(desc) => Ok(knows_desc(names, &desc)),
        None => Ok(true),
    }
}

#[tactic(auto, unfolding(crate::specs::Walks::Missing::knows_method_text))]
fn knows_method_text(
    alloc: Global,
    names: &Names,
    pool: &[PoolItem],
    index: u16,
) -> Result<bool, NoMemory>
    ensures { IfOk result (λ b. b ≡ knows_method_text names.now (text_in pool.now index)) }
{
    match method_desc(alloc, pool, index)? {
        Some(desc) => Ok(knows_method(names, &desc)),
        None => Ok(true),
    }
}

#[tactic(auto, unfolding(crate::specs::Walks::Missing::knows_class_text))]
fn knows_class_text(alloc: Global, names: &Names, text: &[u16]) -> Result<bool, NoMemory>
    ensures { IfOk result (λ b. b ≡ knows_class_text names.now text.now) }
{
    if is_array(text) {
        knows_field_text(alloc, names, text)
    } else {
        Ok(names.has(text))
    }
}

fn known_classes(alloc: Global, names: &Names, pool: &[PoolItem]) -> Result<List<bool>, NoMemory>
    ensures { IfOk result (λ told. AreTested (knows_class_text names.now) pool.now told) }
{
    let mut told = List::new(alloc);
    let count = pool.len().min(u16::MAX as usize) as u16;
    for index in 0..count {
        told.push(knows_class_text(alloc, names, text(pool, index))?)?;
    }
    Ok(told)
}

fn known_fields(alloc: Global, names: &Names, pool: &[PoolItem]) -> Result<List<bool>, NoMemory>
    ensures { IfOk result (λ told. AreTested (knows_field_text names.now) pool.now told) }
{
    let mut told = List::new(alloc);
    let count = pool.len().min(u16::MAX as usize) as u16;
    for index in 0..count {
        told.push(knows_field_text(alloc, names, text(pool, index))?)?;
    }
    Ok(told)
}

fn known_methods(alloc: Global, names: &Names, pool: &[PoolItem]) -> Result<List<bool>, NoMemory>
    ensures { IfOk result (λ told. AreTested (knows_method_text names.now) pool.now told) }
{
    let mut told = List::new(alloc);
    let count = pool.len().min(u16::MAX as usize) as u16;
    for index in 0..count {
        told.push(knows_method_text(alloc, names, pool, index)?)?;
    }
    Ok(told)
}

/// What is told of the texts of a pool.
pub(crate) fn known_texts(
    alloc: Global,
    names: &Names,
    pool: &[PoolItem],
) -> Result<Known, NoMemory>
    ensures { IfOk result (λ known. AreKnown names.now pool.now known) }
{
    Ok(Known {
        classes: known_classes(alloc, names, pool)?,
        fields: known_fields(alloc, names, pool)?,
        methods: known_methods(alloc, names, pool)?,
    })
}
