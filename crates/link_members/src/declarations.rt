//! The methods that classes declare, by the numbers of their name and descriptor.

ghost use Rattle.std.specs.Prelude.{◌≡◌, ◌++◌, ◌∷◌, ◌+◌, ◌<◌, ◌^◌, [], length, IfOk, OnOk, if◌then◌else◌};
ghost use Rattle.std.specs.List.{flat_map};
ghost use Rattle.link_rules.specs.Numbers.{numbered};
ghost use Rattle.link_members.specs.Declarations.{methods_at, signed_if, signed_in, AreDeclared, Gains, IsPut};
ghost use Rattle.link_members.specs.Signs.{Sign, is_sign, name_number, text_names};
ghost use Rattle.link_members.specs.Told.{AreTold};

use crate::signs::{Sign, name_numbers, sign_of, text_names};
use class_format::ClassFile;
use class_names::Names;
use jvm_base::{List, NoMemory};
use link_rules::Program;
use std::alloc::Global;
use std::collections::HashMap;

/// A method that a class declares: the number of the class and the method's flags.
#[derive(Clone, Copy)]
pub(crate) struct Declared {
    pub class: u32,
    pub flags: u16,
}

/// The methods of each sign, class by class.
pub(crate) type Methods = HashMap<Sign, List<Declared>>;

/// The texts of all classes, and their methods by sign.
#[derive(Drop)]
pub(crate) struct Declarations<'a> {
    pub names: Names<'a>,
    pub methods: Methods,
}

/// Takes the methods of a sign out.
fn take(alloc: Global, methods: &mut Methods, sign: &Sign) -> List<Declared>
    ensures taken { result ≡ methods_at methods.old.entries sign.now }
    ensures left { IsPut methods.old.entries methods.new.entries sign.now [] }
{
    match methods.remove(sign) {
        Some(taken) => taken,
        None => List::new(alloc),
    }
}

/// Puts methods at a sign.
fn put(methods: &mut Methods, sign: Sign, some: List<Declared>) -> Result<(), NoMemory>
    ensures { OnOk result (IsPut methods.old.entries methods.new.entries sign some) }
{
    methods.insert(sign, some)?;
    Ok(())
}

/// Adds a method of a sign.
fn add_one(
    alloc: Global,
    methods: &mut Methods,
    sign: Sign,
    method: Declared,
) -> Result<(), NoMemory>
    ensures { OnOk result (Gains methods.old.entries methods.new.entries
        (λ k. if is_sign sign k then method ∷ [] else [])) }
{
    let mut some = take(alloc, methods, &sign);
    some.push(method)?;
    put(methods, sign, some)?;
    Ok(())
}

/// Adds a method, where it has a sign.
fn add_signed(
    alloc: Global,
    methods: &mut Methods,
    sign: Option<Sign>,
    method: Declared,
) -> Result<(), NoMemory>
    ensures { OnOk result (Gains methods.old.entries methods.new.entries
        (signed_if sign method)) }
{
    match sign {
        Some(sign) => add_one(alloc, methods, sign, method),
        None => Ok(()),
    }
}

/// Adds the methods of the class of a number, whose pool's texts have these numbers.
fn add_methods(
    alloc: Global,
    methods: &mut Methods,
    names: &Names,
    told: &[Option<usize>],
    class: u32,
    file: &ClassFile,
) -> Result<(), NoMemory>
    requires { AreTold (name_number names.now) file.now.pool told.now }
    ensures { OnOk result (Gains methods.old.entries methods.new.entries
        (λ k. signed_in names.now k class file.now)) }
{
    let added = file.methods.as_slice();
    for method in added {
        let sign = sign_of(names, told, file, method);
        let flags = method.flags;
        add_signed(alloc, methods, sign, Declared { class, flags })?;
    }
    Ok(())
}

/// Adds the methods of the class of a number.
fn add_class(
    alloc: Global,
    methods: &mut Methods,
    names: &Names,
    class: u32,
    file: &ClassFile,
) -> Result<(), NoMemory>
    ensures { OnOk result (Gains methods.old.entries methods.new.entries
        (λ k. signed_in names.now k class file.now)) }
{
    let told = name_numbers(alloc, names, file.pool.as_slice())?;
    add_methods(alloc, methods, names, told.as_slice(), class, file)
}

/// Adds the methods of some classes, which are numbered from `first` on.
fn add_classes(
    alloc: Global,
    methods: &mut Methods,
    names: &Names,
    first: usize,
    files: &[ClassFile],
) -> Result<(), NoMemory>
    requires { first + length files.now < 2 ^ 25 }
    ensures { OnOk result (Gains methods.old.entries methods.new.entries
        (λ k. numbered (signed_in names.now k) first files.now)) }
{
    let mut number = first;
    for file in files {
        add_class(alloc, methods, names, number as u32, file)?;
        number += 1;
    }
    Ok(())
}

/// The methods of all classes by sign.
fn all_methods(alloc: Global, program: &Program, names: &Names) -> Result<Methods, NoMemory>
    requires { length program.now < 2 ^ 25 }
    ensures { IfOk result (λ methods. (k : Sign) → methods_at methods.entries k
        ≡ numbered (signed_in names.now k) 0 program.now) }
{
    let mut methods = HashMap::new(alloc);
    let (boot, files) = program.parts();
    add_classes(alloc, &mut methods, names, 0, boot)?;
    add_classes(alloc, &mut methods, names, boot.len(), files)?;
    Ok(methods)
}

/// The methods of all classes.
pub(crate) fn declare_all<'a>(
    alloc: Global,
    program: &'a Program<'_>,
) -> Result<Declarations<'a>, NoMemory>
    requires { length program.now < 2 ^ 25 }
    ensures { IfOk result (λ declarations.
        AreDeclared program.now declarations.names declarations.methods.entries) }
{
    let names = text_names(alloc, program)?;
    let methods = all_methods(alloc, program, &names)?;
    Ok(Declarations { names, methods })
}
