//! The names and descriptors of methods as numbers, so that each text of a pool is read once.

ghost use Rattle.std.specs.Prelude.{◌≡◌, ◌++◌, [], IfOk, OnOk};
ghost use Rattle.std.specs.List.{flat_map};
ghost use Rattle.class_names.specs.Known.{add_name, add_names};
ghost use Rattle.class_names.specs.Texts.{text_in};
ghost use Rattle.link_members.specs.Declarations.{signature_of};
ghost use Rattle.link_members.specs.Signs.{item_texts, file_texts, text_names, name_number, signed, sign_of};
ghost use Rattle.link_members.specs.Told.{AreTold};

use class_format::{ClassFile, MethodItem};
use class_names::{Names, text};
use jvm_base::{List, NoMemory, PoolItem};
use link_rules::Program;
use std::alloc::Global;

/// The numbers of a name and of a descriptor.
pub(crate) type Sign = (usize, usize);

fn add_text<'a>(names: &mut Names<'a>, text: &'a [u16]) -> Result<(), NoMemory>
    ensures { OnOk result (names.new ≡ add_name names.old text.now) }
{
    names.add(text)?;
    Ok(())
}

/// Adds the text that an item is.
fn add_item<'a>(names: &mut Names<'a>, item: &'a PoolItem) -> Result<(), NoMemory>
    ensures { OnOk result (names.new ≡ add_names names.old (item_texts item.now)) }
{
    match item {
        PoolItem::Utf8(units) => add_text(names, units.as_slice()),
        _ => Ok(()),
    }
}

fn add_pool<'a>(names: &mut Names<'a>, pool: &'a [PoolItem]) -> Result<(), NoMemory>
    ensures { OnOk result (names.new ≡ add_names names.old (flat_map item_texts pool.now)) }
{
    for item in pool {
        add_item(names, item)?;
    }
    Ok(())
}

fn add_file<'a>(names: &mut Names<'a>, file: &'a ClassFile) -> Result<(), NoMemory>
    ensures { OnOk result (names.new ≡ add_names names.old (file_texts file.now)) }
{
    add_pool(names, file.pool.as_slice())
}

fn add_files<'a>(names: &mut Names<'a>, files: &'a [ClassFile]) -> Result<(), NoMemory>
    ensures { OnOk result (names.new ≡ add_names names.old (flat_map file_texts files.now)) }
{
    for file in files {
        add_file(names, file)?;
    }
    Ok(())
}

/// The texts of the pools of all classes.
#[tactic(auto, using(crate::proofs::SignLaws::texts_both), unfolding(crate::specs::Signs::text_names))]
pub(crate) fn text_names<'a>(alloc: Global, program: &'a Program<'_>) -> Result<Names<'a>, NoMemory>
    ensures { IfOk result (λ names. names ≡ text_names program.now) }
{
    let mut names = Names::new(alloc);
    let (boot, files) = program.parts();
    add_text(&mut names, &[])?;
    add_files(&mut names, boot)?;
    add_files(&mut names, files)?;
    Ok(names)
}

/// The numbers of the texts of a pool.
pub(crate) fn name_numbers(
    alloc: Global,
    names: &Names,
    pool: &[PoolItem],
) -> Result<List<Option<usize>>, NoMemory>
    ensures { IfOk result (λ told. AreTold (name_number names.now) pool.now told) }
{
    let mut told = List::new(alloc);
    let count = pool.len().min(u16::MAX as usize) as u16;
    for index in 0..count {
        told.push(names.number(text(pool, index)))?;
    }
    Ok(told)
}

/// The number of the text at an index.
fn number_at(names: &Names, told: &[Option<usize>], pool: &[PoolItem], index: u16) -> Option<usize>
    requires { AreTold (name_number names.now) pool.now told.now }
    ensures { result ≡ name_number names.now (text_in pool.now index) }
{
    match told.get(index as usize) {
        Some(number) => *number,
        None => names.number(text(pool, index)),
    }
}

/// The numbers of both, where both have one.
fn signed(name: Option<usize>, desc: Option<usize>) -> Option<Sign>
    ensures { result ≡ signed name desc }
{
    match (name, desc) {
        (Some(name), Some(desc)) => Some((name, desc)),
        _ => None,
    }
}

/// The numbers of the texts at two indices.
fn sign_at(
    names: &Names,
    told: &[Option<usize>],
    pool: &[PoolItem],
    name: u16,
    desc: u16,
) -> Option<Sign>
    requires { AreTold (name_number names.now) pool.now told.now }
    ensures { result ≡ sign_of names.now (text_in pool.now name, text_in pool.now desc) }
{
    signed(
        number_at(names, told, pool, name),
        number_at(names, told, pool, desc),
    )
}

/// The sign of a method of a file, whose pool's texts have these numbers.
pub(crate) fn sign_of(
    names: &Names,
    told: &[Option<usize>],
    file: &ClassFile,
    method: &MethodItem,
) -> Option<Sign>
    requires { AreTold (name_number names.now) file.now.pool told.now }
    ensures { result ≡ sign_of names.now (signature_of file.now method.now) }
{
    sign_at(names, told, file.pool.as_slice(), method.name, method.desc)
}
