//! What lies directly above each class, by number.

ghost use Rattle.std.specs.Prelude.{◌≡◌, ◌++◌, ◌<◌, ◌^◌, length, map, IfOk, OnOk};
ghost use Rattle.std.specs.List.{filter_map};
ghost use Rattle.std.specs.Option.{option_to_list};
ghost use Rattle.class_names.specs.Classes.{super_text};
ghost use Rattle.class_names.specs.Texts.{class_text, text_in};
ghost use Rattle.hierarchy.specs.Hierarchy.{IsWithin};
ghost use Rattle.link_rules.specs.Numbers.{number_of, super_row, interface_row};
ghost use Rattle.link_members.specs.Rows.{row_by};
ghost use Rattle.link_members.specs.Told.{AreTold};

use class_format::ClassFile;
use class_names::{super_text, text};
use constant_pool::class_at;
use jvm_base::{List, NoMemory, PoolItem};
use link_rules::Program;
use std::alloc::Global;

/// Which classes are above a class, and in which order.
#[derive(Clone, Copy)]
pub enum Step {
    /// The superclass.
    Super,
    /// The listed interfaces.
    Interfaces,
    /// The superclass, then the interfaces.
    Above,
    /// The interfaces, then the superclass: the order in which fields are looked up.
    Fields,
}

/// Adds the number of the class of a name, if it is there.
fn add_number(row: &mut List<u32>, program: &Program, text: &[u16]) -> Result<(), NoMemory>
    requires { length program.now < 2 ^ 32 }
    ensures { OnOk result (row.new ≡ row.old ++ option_to_list (number_of program.now text.now)) }
{
    match program.number(text) {
        Some(number) => row.push(number as u32),
        None => Ok(()),
    }
}

fn add_super(row: &mut List<u32>, program: &Program, file: &ClassFile) -> Result<(), NoMemory>
    requires { length program.now < 2 ^ 32 }
    ensures { OnOk result (row.new ≡ row.old ++ super_row program.now file.now) }
{
    match super_text(file) {
        Some(text) => add_number(row, program, text),
        None => Ok(()),
    }
}

/// The numbers of the classes that the texts of a pool name.
fn class_numbers(
    alloc: Global,
    program: &Program,
    pool: &[PoolItem],
) -> Result<List<Option<usize>>, NoMemory>
    ensures { IfOk result (λ told. AreTold (number_of program.now) pool.now told) }
{
    let mut told = List::new(alloc);
    let count = pool.len().min(u16::MAX as usize) as u16;
    for index in 0..count {
        told.push(program.number(text(pool, index)))?;
    }
    Ok(told)
}

/// The number of the class of the text at an index.
fn text_number(
    program: &Program,
    told: &[Option<usize>],
    pool: &[PoolItem],
    index: u16,
) -> Option<usize>
    requires { AreTold (number_of program.now) pool.now told.now }
    ensures { result ≡ number_of program.now (text_in pool.now index) }
{
    match told.get(index as usize) {
        Some(number) => *number,
        None => program.number(text(pool, index)),
    }
}

/// The number of the class of the class item at an index.
fn item_number(
    program: &Program,
    told: &[Option<usize>],
    pool: &[PoolItem],
    index: u16,
) -> Option<usize>
    requires { AreTold (number_of program.now) pool.now told.now }
    ensures { result ≡ number_of program.now (class_text pool.now index) }
{
    match class_at(pool, index) {
        Some(name) => text_number(program, told, pool, name),
        None => program.number(&[]),
    }
}

/// Adds the number of the class of a class item, if it is there.
fn add_item(
    row: &mut List<u32>,
    program: &Program,
    told: &[Option<usize>],
    pool: &[PoolItem],
    index: u16,
) -> Result<(), NoMemory>
    requires few { length program.now < 2 ^ 32 }
    requires told { AreTold (number_of program.now) pool.now told.now }
    ensures { OnOk result (row.new
        ≡ row.old ++ option_to_list (number_of program.now (class_text pool.now index))) }
{
    match item_number(program, told, pool, index) {
        Some(number) => row.push(number as u32),
        None => Ok(()),
    }
}

fn add_items(
    row: &mut List<u32>,
    program: &Program,
    told: &[Option<usize>],
    pool: &[PoolItem],
    items: &[u16],
) -> Result<(), NoMemory>
    requires few { length program.now < 2 ^ 32 }
    requires told { AreTold (number_of program.now) pool.now told.now }
    ensures { OnOk result (row.new
        ≡ row.old ++ filter_map (number_of program.now) (map (class_text pool.now) items.now)) }
{
    for item in items {
        add_item(row, program, told, pool, *item)?;
    }
    Ok(())
}

/// Adds the numbers of the interfaces. Each text of the pool is looked up once, however many
/// interfaces have it as their name.
fn add_interfaces(
    alloc: Global,
    row: &mut List<u32>,
    program: &Program,
    file: &ClassFile,
) -> Result<(), NoMemory>
    requires { length program.now < 2 ^ 32 }
    ensures { OnOk result (row.new ≡ row.old ++ interface_row program.now file.now) }
{
    let (pool, interfaces) = (file.pool.as_slice(), file.interfaces.as_slice());
    if interfaces.is_empty() {
        return Ok(());
    }
    let told = class_numbers(alloc, program, pool)?;
    add_items(row, program, told.as_slice(), pool, interfaces)
}

/// The numbers directly above a class.
fn row(
    alloc: Global,
    program: &Program,
    step: Step,
    file: &ClassFile,
) -> Result<List<u32>, NoMemory>
    requires { length program.now < 2 ^ 32 }
    ensures { IfOk result (λ row. row ≡ row_by step program.now file.now) }
{
    let mut row = List::new(alloc);
    match step {
        Step::Super => add_super(&mut row, program, file)?,
        Step::Interfaces => add_interfaces(alloc, &mut row, program, file)?,
        Step::Above => {
            add_super(&mut row, program, file)?;
            add_interfaces(alloc, &mut row, program, file)?;
        }
        Step::Fields => {
            add_interfaces(alloc, &mut row, program, file)?;
            add_super(&mut row, program, file)?;
        }
    }
    Ok(row)
}

fn add_rows(
    alloc: Global,
    rows: &mut List<List<u32>>,
    program: &Program,
    step: Step,
    files: &[ClassFile],
) -> Result<(), NoMemory>
    requires { length program.now < 2 ^ 32 }
    ensures { OnOk result (rows.new ≡ rows.old ++ map (row_by step program.now) files.now) }
{
    for file in files {
        rows.push(row(alloc, program, step, file)?)?;
    }
    Ok(())
}

/// For each class the numbers directly above it.
pub fn rows(alloc: Global, program: &Program, step: Step) -> Result<List<List<u32>>, NoMemory>
    requires { length program.now < 2 ^ 32 }
    ensures { IfOk result (λ rows. rows ≡ map (row_by step program.now) program.now) }
{
    let mut rows = List::new(alloc);
    let (boot, files) = program.parts();
    add_rows(alloc, &mut rows, program, step, boot)?;
    add_rows(alloc, &mut rows, program, step, files)?;
    Ok(rows)
}
