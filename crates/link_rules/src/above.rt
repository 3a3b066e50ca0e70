//! Superclasses and interfaces are of the right kind.

ghost use Rattle.std.specs.Prelude.{◌≡◌, [], ◌∷◌, IfOk};
ghost use Rattle.std.specs.List.{flat_map};
ghost use Rattle.std.specs.Option.{option_copied};
ghost use Rattle.class_names.specs.Classes.{super_text, interface_texts};
ghost use Rattle.class_names.specs.Texts.{class_text, text_in};
ghost use Rattle.link_rules.specs.Answers.{IsAnswer, refusal};
ghost use Rattle.link_rules.specs.Classes.{is_wrong_super, names_interface, wrong_super, wrong_interface, wrong_above, final_super_named, final_super};
ghost use Rattle.link_rules.specs.Marks.{AreTested};
ghost use Rattle.link_rules.specs.Walks.Kinds.{wrong_interface_item};

use crate::error::{LinkErr, LinkWhy};
use crate::program::Program;
use crate::refuse::refuse_class_if;
use class_format::{ClassFile, FINAL, INTERFACE, has_flag};
use class_names::{class_text, is_array, is_object, super_text, text};
use constant_pool::class_at;
use jvm_base::{List, NoMemory, PoolItem};
use std::alloc::Global;

fn is_wrong_super(program: &Program, file: &ClassFile, text: &[u16]) -> bool
    ensures { result ≡ is_wrong_super program.now file.now text.now }
{
    is_array(text)
        || has_flag(program.flags_of(text), INTERFACE)
        || has_flag(file.flags, INTERFACE) && !is_object(text)
}

/// A class lies below a class, and an interface below Object.
fn check_super(alloc: Global, program: &Program, file: &ClassFile) -> Result<(), LinkErr>
    ensures { IsAnswer (wrong_super program.now file.now (super_text file.now)) result }
{
    match super_text(file) {
        None => refuse_class_if(alloc, true, LinkWhy::WrongKind, file, &[]),
        Some(text) => {
            let is_wrong = is_wrong_super(program, file, text);
            refuse_class_if(alloc, is_wrong, LinkWhy::WrongKind, file, text)
        }
    }
}

/// Which texts of a pool name an interface.
fn interface_names(
    alloc: Global,
    program: &Program,
    pool: &[PoolItem],
) -> Result<List<bool>, NoMemory>
    ensures { IfOk result (λ told. AreTested (names_interface program.now) pool.now told) }
{
    let mut told = List::new(alloc);
    let count = pool.len().min(u16::MAX as usize) as u16;
    for index in 0..count {
        told.push(program.names_interface(text(pool, index)))?;
    }
    Ok(told)
}

/// Whether the text at an index names an interface.
fn text_names_interface(program: &Program, told: &[bool], pool: &[PoolItem], index: u16) -> bool
    requires { AreTested (names_interface program.now) pool.now told.now }
    ensures { result ≡ names_interface program.now (text_in pool.now index) }
{
    match told.get(index as usize) {
        Some(is_interface) => *is_interface,
        None => program.names_interface(text(pool, index)),
    }
}

/// Whether the class item at an index names an interface.
fn item_names_interface(program: &Program, told: &[bool], pool: &[PoolItem], index: u16) -> bool
    requires { AreTested (names_interface program.now) pool.now told.now }
    ensures { result ≡ names_interface program.now (class_text pool.now index) }
{
    match class_at(pool, index) {
        Some(name) => text_names_interface(program, told, pool, name),
        None => program.names_interface(&[]),
    }
}

#[tactic(auto, unfolding(crate::specs::Walks::Kinds::wrong_interface_item))]
fn check_interface(
    alloc: Global,
    program: &Program,
    file: &ClassFile,
    told: &[bool],
    interface: u16,
) -> Result<(), LinkErr>
    requires { AreTested (names_interface program.now) file.now.pool told.now }
    ensures { IsAnswer (wrong_interface_item program.now file.now interface) result }
{
    let pool = file.pool.as_slice();
    let is_wrong = !item_names_interface(program, told, pool, interface);
    let text = class_text(pool, interface);
    refuse_class_if(alloc, is_wrong, LinkWhy::WrongKind, file, text)
}

#[tactic(auto, using(crate::proofs::Firsts::items_break))]
fn check_interfaces(
    alloc: Global,
    program: &Program,
    file: &ClassFile,
    told: &[bool],
    interfaces: &[u16],
) -> Result<(), LinkErr>
    requires { AreTested (names_interface program.now) file.now.pool told.now }
    ensures { IsAnswer (flat_map (wrong_interface_item program.now file.now) interfaces.now)
        result }
{
    for interface in interfaces {
        check_interface(alloc, program, file, told, *interface)?;
    }
    Ok(())
}

/// The listed interfaces are interfaces. Of each text of the file's pool this is asked once.
fn check_listed(alloc: Global, program: &Program, file: &ClassFile) -> Result<(), LinkErr>
    ensures { IsAnswer (flat_map (wrong_interface_item program.now file.now) file.now.interfaces)
        result }
{
    let interfaces = file.interfaces.as_slice();
    if interfaces.is_empty() {
        return Ok(());
    }
    let told = interface_names(alloc, program, file.pool.as_slice())?;
    check_interfaces(alloc, program, file, told.as_slice(), interfaces)
}

/// The superclass and the listed interfaces are of the right kind.
#[tactic(auto, using(crate::proofs::Firsts::answer_back, crate::proofs::KindLaws::of_interfaces))]
fn check_above(alloc: Global, program: &Program, file: &ClassFile) -> Result<(), LinkErr>
    ensures { IsAnswer (wrong_above program.now file.now) result }
{
    check_super(alloc, program, file)?;
    check_listed(alloc, program, file)
}

/// The same of each file.
#[tactic(auto, using(crate::proofs::Firsts::places_break))]
pub fn check_kinds(alloc: Global, program: &Program, files: &[ClassFile]) -> Result<(), LinkErr>
    ensures { IsAnswer (flat_map (wrong_above program.now) files.now) result }
{
    for file in files {
        check_above(alloc, program, file)?;
    }
    Ok(())
}

/// The superclass isn't final.
fn check_final(alloc: Global, program: &Program, file: &ClassFile) -> Result<(), LinkErr>
    ensures { IsAnswer (final_super program.now file.now) result }
{
    match super_text(file) {
        None => Ok(()),
        Some(text) => {
            let is_final = has_flag(program.flags_of(text), FINAL);
            refuse_class_if(alloc, is_final, LinkWhy::FinalSuper, file, text)
        }
    }
}

/// No superclass is final.
#[tactic(auto, using(crate::proofs::Firsts::places_break))]
pub fn check_finals(alloc: Global, program: &Program, files: &[ClassFile]) -> Result<(), LinkErr>
    ensures { IsAnswer (flat_map (final_super program.now) files.now) result }
{
    for file in files {
        check_final(alloc, program, file)?;
    }
    Ok(())
}
