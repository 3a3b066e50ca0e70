//! The superclasses of a class by package.

ghost use Rattle.std.specs.Prelude.{◌≡◌, ℕ, ◌<◌, ◌==◌, ◌&&◌, not, Some, length, IfOk, if◌then◌else◌};
ghost use Rattle.std.specs.List.{list_any};
ghost use Rattle.hierarchy.specs.Hierarchy.{IsRanked};
ghost use Rattle.hierarchy.specs.Walks.{IsWalked};
ghost use Rattle.link_rules.specs.Numbers.{super_rows};
ghost use Rattle.link_members.specs.Declarations.{near_at, near_to, is_other, AreMarked, AreNear};
ghost use Rattle.link_members.specs.Near.{ArePackages, IsOwn};

use crate::package_numbers::{OwnPackage, Packages, is_near, own_package};
use class_format::ClassFile;
use jvm_base::{List, NoMemory};
use link_rules::Program;
use std::alloc::Global;

/// Marks a class above `f`, whose number is `number`.
fn mark(
    program: &Program,
    f: &ClassFile,
    own: &OwnPackage<'_>,
    number: u32,
    near: &mut [Option<bool>],
    k: u32,
)
    requires { IsOwn program.now f.now own.now }
    ensures long { length near.new ≡ length near.old }
    ensures marked { AreMarked program.now f.now near.old near.new (λ d. is_other number d k) }
{
    if k != number && (k as usize) < near.len() {
        near[k as usize] = Some(is_near(program, f, own, k));
    }
}

/// Marks the classes of a walk from `f`, but for itself.
fn mark_all(
    program: &Program,
    f: &ClassFile,
    own: &OwnPackage<'_>,
    number: u32,
    near: &mut [Option<bool>],
    walk: &[u32],
)
    requires { IsOwn program.now f.now own.now }
    ensures long { length near.new ≡ length near.old }
    ensures marked { AreMarked program.now f.now near.old near.new
        (λ d. list_any (is_other number d) walk.now) }
{
    for k in walk {
        mark(program, f, own, number, near, *k);
    }
}

/// For each class whether it is of the package of `f`, where it is one of its superclasses.
pub(crate) fn near_supers(
    alloc: Global,
    program: &Program,
    packages: &Packages<'_>,
    supers: &[List<u32>],
    ranks: &[u32],
    number: u32,
    f: &ClassFile,
) -> Result<List<Option<bool>>, NoMemory>
    requires packages { ArePackages program.now packages.now }
    requires ranked { IsRanked (super_rows program.now) ranks.now }
    requires walked { IsWalked (super_rows program.now) supers.now }
    requires inside { number < length (super_rows program.now) }
    ensures { IfOk result (λ near. AreNear program.now f.now number near) }
{
    let own = own_package(program, packages, f);
    let walk = supers[number as usize].as_slice();
    let mut near = vec![in alloc; None; supers.len()]?;
    mark_all(program, f, &own, number, &mut near, walk);
    Ok(List::from_vec(near))
}
