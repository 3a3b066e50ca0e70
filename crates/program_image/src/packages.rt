//! Packages of classes as numbers.

ghost use Rattle.std.specs.Prelude.{◌≡◌, ◌≤◌, length, map, IfOk};
ghost use Rattle.program_image.specs.Built.Alike.{AreAlike};
ghost use Rattle.program_image.specs.declared.alike.By.TheVariants.{Package};
ghost use Rattle.program_image.specs.Built.Packages.{ArePackages, package_number};

use crate::alike::{Alike, By, alike, first, text_of};
use crate::info::ClassInfo;
use jvm_base::{List, NoMemory};
use std::alloc::Global;

/// The number of a class's package: that of the first class there.
fn package_number(classes: &[ClassInfo], alike: &Alike, class: &ClassInfo) -> usize
    requires { AreAlike Package classes.now classes.now alike.now.entries }
    ensures { result ≡ package_number classes.now class.now }
{
    match first(By::Package, classes, alike, text_of(By::Package, class)) {
        Some(number) => number as usize,
        None => 0,
    }
}

/// For each class the number of its package.
pub(crate) fn packages(alloc: Global, classes: &[ClassInfo]) -> Result<List<usize>, NoMemory>
    requires { length classes.now ≤ 16777216 }
    ensures { IfOk result (λ packages. ArePackages classes.now packages) }
{
    let alike = alike(alloc, By::Package, classes)?;
    let mut packages = List::new(alloc);
    for class in classes {
        packages.push(package_number(classes, &alike, class))?;
    }
    Ok(packages)
}
