//! The declared classes as an image has them.

ghost use Rattle.std.specs.Prelude.{◌≡◌, ◌+◌, ◌<◌, ◌≤◌, ◌^◌, length, map, position, All, IfOk};
ghost use Rattle.class_names.specs.Classes.{this_name};
ghost use Rattle.link_rules.specs.Numbers.{map_from, interface_row, interface_rows};
ghost use Rattle.link_image.specs.Classes.{super_number, class_info, declared_infos};
ghost use Rattle.link_image.specs.Fields.{base_of};
ghost use Rattle.link_image.specs.Methods.{count_methods, first_method, method_numbers, is_initialiser, clinit_number};
ghost use Rattle.link_image.specs.Sizes.{HasFewFields};

use crate::constants::Constants;
use crate::fields::field_infos;
use class_format::{ClassFile, MethodItem};
use class_names::{is_clinit, is_name, super_text, text, this_name};
use jvm_base::{List, NoMemory, Units};
use link_rules::Program;
use program_image::{ClassInfo, ClassName};
use std::alloc::Global;

/// `()V`
const NOTHING: [u16; 3] = [40, 41, 86];

/// The number of the superclass of a class.
fn super_number(program: &Program, file: &ClassFile) -> Option<u32>
    requires { length program.now < 2 ^ 15 }
    ensures { result ≡ super_number program.now file.now }
{
    let number = program.number(super_text(file)?)?;
    Some(number as u32)
}

/// The numbers of a class's methods, of which the first is given.
fn method_numbers(alloc: Global, first: u32, file: &ClassFile) -> Result<List<u32>, NoMemory>
    requires { first + length file.now.methods < 2 ^ 32 }
    ensures { IfOk result (λ numbers. numbers ≡ method_numbers first file.now) }
{
    let mut numbers = List::new(alloc);
    let mut number = first;
    for _method in file.methods.as_slice() {
        numbers.push(number)?;
        number += 1;
    }
    Ok(numbers)
}

fn is_initialiser(file: &ClassFile, method: &MethodItem) -> bool
    ensures { result ≡ is_initialiser file.now method.now }
{
    let pool = file.pool.as_slice();
    is_clinit(text(pool, method.name)) && is_name(&NOTHING, text(pool, method.desc))
}

/// The place of a class's initialiser among its methods.
fn clinit_place(file: &ClassFile, methods: &[MethodItem]) -> Option<usize>
    ensures { result ≡ position (is_initialiser file.now) methods.now }
{
    methods.iter().position(|m| is_initialiser(file, m))
}

/// The number of a class's initialiser.
fn clinit_number(first: u32, file: &ClassFile) -> Option<u32>
    requires { first + length file.now.methods < 2 ^ 32 }
    ensures { result ≡ clinit_number first file.now }
{
    let place = clinit_place(file, file.methods.as_slice())?;
    Some(first + place as u32)
}

/// The class of a number, whose instance fields take places from `base` on, and whose first method
/// has the number `first`.
fn class_info(
    alloc: Global,
    program: &Program,
    constants: &Constants<'_, '_>,
    interfaces: &[u32],
    number: u32,
    base: u32,
    first: u32,
    file: &ClassFile,
) -> Result<ClassInfo, NoMemory>
    requires room { constants.now.classes + length constants.now.literals.now < 2 ^ 32 }
    requires classes { length program.now < 2 ^ 15 }
    requires interfaces { interfaces.now ≡ interface_row program.now file.now }
    requires base { base ≡ base_of program.now number }
    requires places { base + length file.now.fields < 2 ^ 32 }
    requires first { first ≡ first_method program.now number }
    requires methods { first + length file.now.methods < 2 ^ 32 }
    ensures { IfOk result
        (λ info. info ≡ class_info program.now constants.now.classes constants.now.literals.now
        number file.now) }
{
    Ok(ClassInfo {
        name: ClassName::new(alloc, Units::from_slice(alloc, this_name(file))?)?,
        flags: file.flags,
        super_class: super_number(program, file),
        interfaces: List::from_vec(Vec::from_slice(alloc, interfaces)?),
        fields: field_infos(alloc, constants, file, number, base)?,
        methods: method_numbers(alloc, first, file)?,
        clinit: clinit_number(first, file),
        array: None,
    })
}

/// The declared classes, of which the interfaces and the first places of instance fields are given.
pub(crate) fn declared_infos(
    alloc: Global,
    program: &Program,
    constants: &Constants<'_, '_>,
    interfaces: &[List<u32>],
    bases: &[u32],
) -> Result<List<ClassInfo>, NoMemory>
    requires room { constants.now.classes + length constants.now.literals.now < 2 ^ 32 }
    requires classes { length program.now < 2 ^ 15 }
    requires fields { All HasFewFields program.now }
    requires methods { count_methods program.now < 2 ^ 32 }
    requires interfaces { interfaces.now ≡ interface_rows program.now }
    requires bases { bases.now ≡ map_from (λ c f. base_of program.now c) 0 program.now }
    requires places { All (λ base. base ≤ 2 ^ 31) bases.now }
    ensures { IfOk result
        (λ infos. infos ≡ declared_infos program.now constants.now.classes
        constants.now.literals.now) }
{
    let mut infos = List::new(alloc);
    let mut first = 0;
    for number in 0..bases.len() {
        let Some(file) = program.class(number) else {
            continue;
        };
        let row = interfaces[number].as_slice();
        infos.push(class_info(
            alloc,
            program,
            constants,
            row,
            number as u32,
            bases[number],
            first,
            file,
        )?)?;
        first += file.methods.len() as u32;
    }
    Ok(infos)
}
