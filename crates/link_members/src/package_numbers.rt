//! The packages of classes as numbers, so that no class's name is read for each class below it.

ghost use Rattle.std.specs.Prelude.{◌≡◌, ◌<◌, ◌^◌, length, IfOk};
ghost use Rattle.class_names.specs.Classes.{this_name};
ghost use Rattle.link_rules.specs.Numbers.{name_at};
ghost use Rattle.link_rules.specs.Packages.{is_one_package};
ghost use Rattle.link_members.specs.Near.{AreNumbered, ArePackages, IsOwn};
ghost use Rattle.link_members.specs.Signs.{is_number};

use crate::packages::{is_one_package, package};
use class_format::ClassFile;
use class_names::{Names, this_name};
use jvm_base::{List, NoMemory};
use link_rules::Program;
use std::alloc::Global;

/// The packages of all classes, and the number of each class's package among them.
#[derive(Drop)]
pub struct Packages<'a> {
    /// The packages, each once.
    pub names: Names<'a>,
    /// For each class the place of its package among them.
    pub numbers: List<Option<usize>>,
}

/// The package of a class, its number, and those of the packages of all classes.
#[derive(Clone, Copy)]
pub struct OwnPackage<'a> {
    /// The class's name up to the last `/`.
    pub name: &'a [u16],
    /// Its number among the packages of a program.
    pub number: Option<usize>,
    /// The number of each class's package.
    pub numbers: &'a [Option<usize>],
}

/// The name of the class of a number.
fn name_at<'a>(program: &'a Program, number: u32) -> &'a [u16]
    ensures { result.now ≡ name_at program.now number }
{
    match program.class(number as usize) {
        Some(class) => this_name(class),
        None => &[],
    }
}

/// How many classes there are.
fn count(program: &Program) -> u32
    requires { length program.now < 2 ^ 25 }
    ensures { result ≡ length program.now }
{
    let (boot, files) = program.parts();
    (boot.len() + files.len()) as u32
}

/// The packages of all classes.
fn package_names<'a>(alloc: Global, program: &'a Program<'_>) -> Result<Names<'a>, NoMemory>
    requires { length program.now < 2 ^ 25 }
{
    let mut names = Names::new(alloc);
    for number in 0..count(program) {
        names.add(package(name_at(program, number)))?;
    }
    Ok(names)
}

/// The number of each class's package.
fn package_numbers(
    alloc: Global,
    program: &Program,
    names: &Names,
) -> Result<List<Option<usize>>, NoMemory>
    requires { length program.now < 2 ^ 25 }
    ensures { IfOk result (λ numbers. AreNumbered program.now names.now numbers) }
{
    let mut numbers = List::new(alloc);
    for number in 0..count(program) {
        numbers.push(names.number(package(name_at(program, number))))?;
    }
    Ok(numbers)
}

impl<'a> Packages<'a> {
    /// The packages of a program's classes.
    pub fn new(alloc: Global, program: &'a Program<'_>) -> Result<Packages<'a>, NoMemory>
        requires { length program.now < 2 ^ 25 }
        ensures { IfOk result (λ packages. ArePackages program.now packages) }
    {
        let names = package_names(alloc, program)?;
        let numbers = package_numbers(alloc, program, &names)?;
        Ok(Packages { names, numbers })
    }
}

/// The package of a class among those of a program.
pub fn own_package<'a>(
    program: &Program,
    packages: &'a Packages<'_>,
    f: &'a ClassFile,
) -> OwnPackage<'a>
    requires { ArePackages program.now packages.now }
    ensures { IsOwn program.now f.now result }
{
    let _program = program;
    let name = package(this_name(f));
    OwnPackage {
        name,
        number: packages.names.number(name),
        numbers: packages.numbers.as_slice(),
    }
}

fn is_number(number: Option<usize>, other: usize) -> bool
    ensures { result ≡ is_number number other }
{
    match number {
        Some(number) => number == other,
        None => false,
    }
}

/// Whether the class of a number is in the package of `f`.
pub fn is_near(program: &Program, f: &ClassFile, own: &OwnPackage<'_>, number: u32) -> bool
    requires { IsOwn program.now f.now own.now }
    ensures { result ≡ is_one_package (this_name f.now) (name_at program.now number) }
{
    match own.numbers.get(number as usize) {
        Some(Some(package)) => is_number(own.number, *package),
        _ => is_one_package(this_name(f), name_at(program, number)),
    }
}
