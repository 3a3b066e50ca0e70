//! What names are looked up in, once classes, fields and methods have numbers.

ghost use Rattle.std.specs.Prelude.{◌≡◌, IfOk};
ghost use Rattle.link_arrays.specs.ArrayClasses.{class_number};
ghost use Rattle.link_image.specs.Seen.{IsFit};
ghost use Rattle.link_image.specs.Targets.{field_at, method_at};

use crate::constants::Constants;
use class_format::{STATIC, has_flag};
use jvm_base::NoMemory;
use link_arrays::{Arrays, class_number};
use link_uses::{Found, Resolver};
use program_image::{ClassInfo, Target};
use std::alloc::Global;

/// What names are looked up in: the declared classes, the array types, the literals, and all classes
/// as the image has them.
#[derive(Clone, Copy)]
pub(crate) struct Lookup<'a, 'p, 'b> {
    pub(crate) resolver: &'a Resolver<'p, 'b>,
    pub(crate) arrays: &'a Arrays,
    pub(crate) constants: Constants<'a, 'b>,
    pub(crate) infos: &'a [ClassInfo],
}

/// The field that was found.
pub(crate) fn field(lookup: &Lookup<'_, '_, '_>, found: &Found) -> Option<Target>
    ensures { result ≡ field_at lookup.now.infos.now found.now }
{
    let class = lookup.infos.get(found.class as usize)?;
    let field = class.fields.get(found.place)?;
    Some(Target::Field {
        class: found.class,
        place: field.place,
        fixed: has_flag(field.flags, STATIC),
    })
}

/// The method that was found.
pub(crate) fn method(lookup: &Lookup<'_, '_, '_>, found: &Found) -> Option<Target>
    ensures { result ≡ method_at lookup.now.infos.now found.now }
{
    let class = lookup.infos.get(found.class as usize)?;
    let method = class.methods.get(found.place)?;
    Some(Target::Method(*method))
}

/// The number of the class of a class item's text.
pub(crate) fn number(
    alloc: Global,
    lookup: &Lookup<'_, '_, '_>,
    text: &[u16],
) -> Result<Option<u32>, NoMemory>
    requires { IsFit lookup.now }
    ensures { IfOk result
        (λ number. number ≡ class_number lookup.now.resolver.now lookup.now.arrays.now text.now) }
{
    class_number(alloc, lookup.resolver.program(), lookup.arrays, text)
}
