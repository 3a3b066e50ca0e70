//! No method stands in place of a superclass's that it may not replace.

ghost use Rattle.std.specs.Prelude.{◌≡◌, ◌+◌, ◌<◌, ◌≤◌, ◌^◌, ◌&&◌, not, false, length};
ghost use Rattle.std.specs.List.{flat_map, list_any};
ghost use Rattle.hierarchy.specs.Hierarchy.{IsRanked};
ghost use Rattle.hierarchy.specs.Walks.{IsWalked};
ghost use Rattle.jvm_base.specs.Words.{from};
ghost use Rattle.link_rules.specs.Answers.{IsAnswer};
ghost use Rattle.link_rules.specs.Members.{access, is_unlike, is_initialiser, bad_overrides};
ghost use Rattle.link_rules.specs.Numbers.{numbered, super_rows};
ghost use Rattle.link_members.specs.Declarations.{signature_of, methods_at, declared_at, AreDeclared, near_at, is_inherited_if, is_inherited_at, replaces_badly, replaces_any, is_bad_by, bad_by};
ghost use Rattle.link_members.specs.Near.{ArePackages};
ghost use Rattle.link_members.specs.Signs.{name_number, sign_of};
ghost use Rattle.link_members.specs.Told.{AreTold};

use crate::declarations::{Declarations, Declared, Methods, declare_all};
use crate::declared::{method_desc, method_name};
use crate::near::near_supers;
use crate::package_numbers::Packages;
use crate::signs::{Sign, name_numbers, sign_of};
use class_format::{ClassFile, FINAL, MethodItem, PRIVATE, PROTECTED, PUBLIC, STATIC, has_flag};
use class_names::{is_clinit, is_init};
use jvm_base::List;
use link_rules::{LinkErr, LinkWhy, Program, refuse_member_if};
use std::alloc::Global;

/// Private, package, protected, public.
fn access(flags: u16) -> u8
    ensures { result ≡ access flags }
{
    if has_flag(flags, PUBLIC) {
        3
    } else if has_flag(flags, PROTECTED) {
        2
    } else if has_flag(flags, PRIVATE) {
        0
    } else {
        1
    }
}

/// Whether a method of these flags is accessible from below; `is_near` tells whether its class is of
/// the same package.
fn is_inherited(flags: u16, is_near: bool) -> bool
    ensures { result ≡ is_inherited_if flags is_near }
{
    has_flag(flags, PUBLIC) || has_flag(flags, PROTECTED) || !has_flag(flags, PRIVATE) && is_near
}

/// Whether a method of the flags `m` may not replace one of the flags `o`.
fn is_unlike(m: u16, o: u16) -> bool
    ensures { result ≡ is_unlike m o }
{
    has_flag(o, FINAL) || has_flag(m, STATIC) != has_flag(o, STATIC) || access(m) < access(o)
}

/// Whether the method's class is one of the superclasses that `near` tells of, and it is accessible.
fn is_inherited_there(near: &[Option<bool>], o: &Declared) -> bool
    ensures { result ≡ is_inherited_at near.now o.now }
{
    match near.get(o.class as usize) {
        Some(Some(is_near)) => is_inherited(o.flags, *is_near),
        _ => false,
    }
}

/// Whether a method of the flags `m` replaces that one, and may not.
fn replaces_badly(near: &[Option<bool>], m: u16, o: &Declared) -> bool
    ensures { result ≡ replaces_badly near.now m o.now }
{
    is_unlike(m, o.flags) && is_inherited_there(near, o)
}

fn replaces_some(near: &[Option<bool>], m: u16, others: &[Declared]) -> bool
    ensures { result ≡ list_any (replaces_badly near.now m) others.now }
{
    others.iter().any(|o| replaces_badly(near, m, o))
}

/// Whether a method of these flags replaces one of the same sign, and may not.
fn replaces_signed(methods: &Methods, near: &[Option<bool>], m: u16, sign: &Sign) -> bool
    ensures { result
        ≡ list_any (replaces_badly near.now m) (methods_at methods.now.entries sign.now) }
{
    match methods.get(sign) {
        Some(others) => replaces_some(near, m, others.as_slice()),
        None => false,
    }
}

/// Whether a method of the class `f` replaces one of the same name and descriptor, and may not.
fn replaces_declared(
    declarations: &Declarations<'_>,
    told: &[Option<usize>],
    near: &[Option<bool>],
    f: &ClassFile,
    m: &MethodItem,
) -> bool
    requires { AreTold (name_number declarations.now.names) f.now.pool told.now }
    ensures { result ≡ replaces_any declarations.now.names declarations.now.methods.entries near.now
        m.now.flags (signature_of f.now m.now) }
{
    match sign_of(&declarations.names, told, f, m) {
        Some(sign) => replaces_signed(&declarations.methods, near, m.flags, &sign),
        None => false,
    }
}

fn is_initialiser(name: &[u16]) -> bool
    ensures { result ≡ is_initialiser name.now }
{
    is_init(name) || is_clinit(name)
}

fn is_bad(
    declarations: &Declarations<'_>,
    told: &[Option<usize>],
    near: &[Option<bool>],
    f: &ClassFile,
    m: &MethodItem,
) -> bool
    requires { AreTold (name_number declarations.now.names) f.now.pool told.now }
    ensures { result ≡ is_bad_by declarations.now.names declarations.now.methods.entries near.now
        f.now m.now }
{
    !is_initialiser(method_name(f, m)) && replaces_declared(declarations, told, near, f, m)
}

fn check_method(
    alloc: Global,
    declarations: &Declarations<'_>,
    told: &[Option<usize>],
    near: &[Option<bool>],
    f: &ClassFile,
    m: &MethodItem,
) -> Result<(), LinkErr>
    requires { AreTold (name_number declarations.now.names) f.now.pool told.now }
    ensures { IsAnswer (bad_by declarations.now.names declarations.now.methods.entries near.now
        f.now m.now) result }
{
    let is_bad = is_bad(declarations, told, near, f, m);
    let name = method_name(f, m);
    let desc = method_desc(f, m);
    refuse_member_if(alloc, is_bad, LinkWhy::BadOverride, f, name, desc)
}

#[tactic(auto, using(link_rules::proofs::Firsts::places_break))]
fn check_each(
    alloc: Global,
    declarations: &Declarations<'_>,
    told: &[Option<usize>],
    near: &[Option<bool>],
    f: &ClassFile,
    methods: &[MethodItem],
) -> Result<(), LinkErr>
    requires { AreTold (name_number declarations.now.names) f.now.pool told.now }
    ensures { IsAnswer (flat_map (bad_by declarations.now.names declarations.now.methods.entries
        near.now f.now) methods.now) result }
{
    for method in methods {
        check_method(alloc, declarations, told, near, f, method)?;
    }
    Ok(())
}

fn check_methods(
    alloc: Global,
    declarations: &Declarations<'_>,
    near: &[Option<bool>],
    f: &ClassFile,
) -> Result<(), LinkErr>
    ensures { IsAnswer (flat_map (bad_by declarations.now.names declarations.now.methods.entries
        near.now f.now) f.now.methods) result }
{
    let told = name_numbers(alloc, &declarations.names, f.pool.as_slice())?;
    let methods = f.methods.as_slice();
    check_each(alloc, declarations, told.as_slice(), near, f, methods)
}

fn check_class(
    alloc: Global,
    program: &Program,
    supers: &[List<u32>],
    ranks: &[u32],
    declarations: &Declarations<'_>,
    packages: &Packages<'_>,
    number: u32,
    f: &ClassFile,
) -> Result<(), LinkErr>
    requires ranked { IsRanked (super_rows program.now) ranks.now }
    requires walked { IsWalked (super_rows program.now) supers.now }
    requires inside { number < length (super_rows program.now) }
    requires declared { AreDeclared program.now declarations.now.names
        declarations.now.methods.entries }
    requires packages { ArePackages program.now packages.now }
    ensures { IsAnswer (bad_overrides program.now number f.now) result }
{
    let near = near_supers(alloc, program, packages, supers, ranks, number, f)?;
    check_methods(alloc, declarations, near.as_slice(), f)
}

/// No method of these classes, which are numbered from `first` on, replaces one of a superclass
/// that it may not replace. `supers` has the walk over superclasses from each class. Methods are
/// looked up by name and descriptor, so that two classes' methods aren't compared each with each.
#[tactic(auto, using(link_rules::proofs::Firsts::numbered_break))]
pub fn check_overrides(
    alloc: Global,
    program: &Program,
    supers: &[List<u32>],
    ranks: &[u32],
    first: u32,
    files: &[ClassFile],
) -> Result<(), LinkErr>
    requires ranked { IsRanked (super_rows program.now) ranks.now }
    requires walked { IsWalked (super_rows program.now) supers.now }
    requires files_in { first + length files.now ≤ length (super_rows program.now) }
    requires few { length (super_rows program.now) < 2 ^ 25 }
    ensures { IsAnswer (numbered (bad_overrides program.now) first files.now) result }
{
    let declarations = declare_all(alloc, program)?;
    let packages = Packages::new(alloc, program)?;
    let mut number = first;
    for file in files {
        check_class(
            alloc,
            program,
            supers,
            ranks,
            &declarations,
            &packages,
            number,
            file,
        )?;
        number += 1;
    }
    Ok(())
}
