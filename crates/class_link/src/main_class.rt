//! The main class is there, with the method that a run starts with.

ghost use Rattle.std.specs.Prelude.{◌≡◌, ◌≤◌, length, position, Some, IfOk};
ghost use Rattle.std.specs.List.{list_any};
ghost use Rattle.link_rules.specs.Answers.{IsAnswer};
ghost use Rattle.link_rules.specs.declared.error.LinkErr.TheVariants.{Bad};
ghost use Rattle.class_link.specs.Mains.{is_main, declares_main, no_main, main_in, main_found};

use crate::tables::FIRST;
use class_format::{ClassFile, MethodItem, PUBLIC, STATIC, has_flag};
use class_names::{is_name, text, this_name};
use jvm_base::{NoMemory, Units};
use link_rules::{LinkErr, LinkWhy};
use link_uses::Found;
use std::alloc::Global;

/// `main`
const MAIN: [u16; 4] = [109, 97, 105, 110];

/// `([Ljava/lang/String;)V`
const MAIN_DESC: [u16; 22] = [
    40, 91, 76, 106, 97, 118, 97, 47, 108, 97, 110, 103, 47, 83, 116, 114, 105, 110, 103, 59, 41,
    86,
];

/// Whether the method is `public static void main(String[])`.
fn is_main(file: &ClassFile, method: &MethodItem) -> bool
    ensures { result ≡ is_main file.now method.now }
{
    let pool = file.pool.as_slice();
    has_flag(method.flags, PUBLIC)
        && has_flag(method.flags, STATIC)
        && is_name(&MAIN, text(pool, method.name))
        && is_name(&MAIN_DESC, text(pool, method.desc))
}

fn has_main(file: &ClassFile, methods: &[MethodItem]) -> bool
    ensures { result ≡ list_any (is_main file.now) methods.now }
{
    methods.iter().any(|method| is_main(file, method))
}

/// Whether the file declares the class of that name, and such a method in it.
fn declares_main(main: &[u16], file: &ClassFile) -> bool
    ensures { result ≡ declares_main main.now file.now }
{
    is_name(main, this_name(file)) && has_main(file, file.methods.as_slice())
}

fn main_place(file: &ClassFile, methods: &[MethodItem]) -> Option<usize>
    ensures { result ≡ position (is_main file.now) methods.now }
{
    methods.iter().position(|method| is_main(file, method))
}

/// The method that a run starts with, in the class of a number.
fn main_in(number: u32, file: &ClassFile) -> Option<Found>
    ensures { result ≡ main_in number file.now }
{
    let place = main_place(file, file.methods.as_slice())?;
    Some(Found {
        class: number,
        place,
    })
}

/// It, in the first file that declares it.
fn find_main(files: &[ClassFile], main: &[u16]) -> Option<Found>
    requires { length files.now ≤ 1024 }
    ensures { result ≡ main_found files.now main.now }
{
    let mut number = FIRST;
    for file in files {
        if declares_main(main, file) {
            return main_in(number, file);
        }
        number += 1;
    }
    None
}

/// A refusal of the main class.
pub(crate) fn refusal(
    alloc: Global,
    why: LinkWhy,
    main: &[u16],
    other: &[u16],
) -> Result<LinkErr, NoMemory>
    ensures { IfOk result (λ e. e ≡ Bad why main.now other.now) }
{
    Ok(LinkErr::Bad {
        why,
        class: Units::from_slice(alloc, main)?,
        other: Units::from_slice(alloc, other)?,
    })
}

/// The method that a run starts with, which one of the files declares in the main class.
#[tactic(auto, using(crate::proofs::MainLaws::main_is_declared, crate::proofs::MainLaws::no_main_found))]
pub(crate) fn main_method(
    alloc: Global,
    files: &[ClassFile],
    main: &[u16],
) -> Result<Found, LinkErr>
    requires { length files.now ≤ 1024 }
    ensures found { IfOk result (λ found. main_found files.now main.now ≡ Some found) }
    ensures answer { IsAnswer (no_main files.now main.now) result }
{
    match find_main(files, main) {
        Some(found) => Ok(found),
        None => Err(refusal(alloc, LinkWhy::NoMain, main, &MAIN)?),
    }
}
