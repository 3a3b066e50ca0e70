//! Which method a call runs.

ghost use Rattle.std.specs.Prelude.{◌≡◌, ◌<◌, length, slice_get};
ghost use Rattle.program_image.specs.Signatures.{same_text};
ghost use Rattle.program_image.specs.Selection.{package_at, is_accessible, open_in, found_up, chosen, is_abstract_body, select_of};
ghost use Rattle.program_image.specs.Built.Ancestry.{IsAncestry};
ghost use Rattle.program_image.specs.Built.Members.{IsMembers};
ghost use Rattle.program_image.specs.Built.Packages.{ArePackages};

use crate::ancestry::Ancestry;
use crate::info::{Body, ClassInfo, MethodInfo};
use crate::members::Members;
use crate::subclass::is_below;
use class_format::{PRIVATE, PROTECTED, PUBLIC, has_flag};

/// What a call runs: a method, or why none: there is none with something to run, the receiver
/// doesn't implement the interface, or the method that is found isn't public.
#[derive(Clone, Copy, Debug, PartialEq, Eq)]
pub enum Selected {
    Found(u32),
    NoBody,
    NoInterface,
    NotPublic,
}

/// Whether two classes are in one package.
fn is_one_package(classes: &[ClassInfo], packages: &[usize], a: u32, b: u32) -> bool
    requires packaged { ArePackages classes.now packages.now }
    requires first_in { a < length classes.now }
    requires second_in { b < length classes.now }
    ensures { result ≡ same_text (package_at classes.now a) (package_at classes.now b) }
{
    packages[a as usize] == packages[b as usize]
}

/// Whether the method is accessible from the class (JVMS2 5.4.4).
fn is_accessible(
    classes: &[ClassInfo],
    ancestry: &Ancestry,
    packages: &[usize],
    method: &MethodInfo,
    class: u32,
) -> bool
    requires ancestry { IsAncestry classes.now ancestry.now }
    requires packaged { ArePackages classes.now packages.now }
    requires owner_in { method.now.owner < length classes.now }
    requires class_in { class < length classes.now }
    ensures { result ≡ is_accessible classes.now method.now class }
{
    if has_flag(method.flags, PUBLIC) {
        return true;
    }
    if has_flag(method.flags, PRIVATE) {
        return method.owner == class;
    }
    is_one_package(classes, packages, method.owner, class)
        || has_flag(method.flags, PROTECTED) && is_below(classes, ancestry, class, method.owner)
}

/// The method of the called one's name and descriptor that a class declares, where the called one
/// is accessible from the class.
fn open_declared(
    classes: &[ClassInfo],
    methods: &[MethodInfo],
    ancestry: &Ancestry,
    members: &Members,
    called: u32,
    class: u32,
) -> Option<u32>
    requires ancestry { IsAncestry classes.now ancestry.now }
    requires members { IsMembers classes.now methods.now members.now }
    requires called_in { called < length methods.now }
    requires class_in { class < length classes.now }
    ensures { result ≡ open_in classes.now methods.now called class }
{
    let method = &methods[called as usize];
    if is_accessible(
        classes,
        ancestry,
        members.packages.as_slice(),
        method,
        class,
    ) {
        return members.declared_by(classes, methods, called, class);
    }
    None
}

/// The first such method upwards from the class.
fn find_up(
    classes: &[ClassInfo],
    methods: &[MethodInfo],
    ancestry: &Ancestry,
    members: &Members,
    called: u32,
    class: u32,
) -> Option<u32>
    requires ancestry { IsAncestry classes.now ancestry.now }
    requires members { IsMembers classes.now methods.now members.now }
    requires called_in { called < length methods.now }
    requires class_in { class < length classes.now }
    ensures { result ≡ found_up classes.now methods.now called class }
{
    let mut at = Some(class);
    while let Some(k) = at {
        let found = open_declared(classes, methods, ancestry, members, called, k);
        if found.is_some() {
            return found;
        }
        at = classes[k as usize].super_class;
    }
    None
}

/// Whether the method has nothing to run.
fn is_abstract(body: &Body) -> bool
    ensures { result ≡ is_abstract_body body.now }
{
    match body {
        Body::Abstract => true,
        _ => false,
    }
}

/// What a call does with the method that is found.
fn chosen(methods: &[MethodInfo], interface: bool, m: u32) -> Selected
    ensures { result ≡ chosen interface m (slice_get methods.now m) }
{
    match methods.get(m as usize) {
        None => Selected::NoBody,
        Some(info) if is_abstract(&info.body) => Selected::NoBody,
        Some(info) if interface && !has_flag(info.flags, PUBLIC) => Selected::NotPublic,
        Some(_) => Selected::Found(m),
    }
}

/// What a call of a method runs on a receiver of the class; `interface` says that an interface's
/// method is called.
pub(crate) fn select(
    classes: &[ClassInfo],
    methods: &[MethodInfo],
    ancestry: &Ancestry,
    members: &Members,
    class: u32,
    called: u32,
    interface: bool,
) -> Selected
    requires ancestry { IsAncestry classes.now ancestry.now }
    requires members { IsMembers classes.now methods.now members.now }
    requires called_in { called < length methods.now }
    requires class_in { class < length classes.now }
    ensures { result ≡ select_of classes.now methods.now class called interface }
{
    let owner = methods[called as usize].owner;
    if interface && !is_below(classes, ancestry, class, owner) {
        return Selected::NoInterface;
    }
    match find_up(classes, methods, ancestry, members, called, class) {
        Some(m) => chosen(methods, interface, m),
        None => Selected::NoBody,
    }
}
