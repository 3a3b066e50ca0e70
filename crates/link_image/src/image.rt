//! The image.

ghost use Rattle.std.specs.Prelude.{◌≡◌, ◌+◌, ◌++◌, ◌<◌, ◌≤◌, ◌^◌, length, map, IfOk};
ghost use Rattle.class_names.specs.Classes.{codes_of};
ghost use Rattle.hierarchy.specs.Hierarchy.{IsRanked};
ghost use Rattle.link_rules.specs.Numbers.{above_rows, methods_at};
ghost use Rattle.link_uses.specs.Items.{HaveItems};
ghost use Rattle.link_image.specs.Classes.{class_infos};
ghost use Rattle.link_image.specs.Image.{image_of, method_number};
ghost use Rattle.link_image.specs.Methods.{count_methods};
ghost use Rattle.link_image.specs.Parts.{AreSmall, Fit};

use crate::bases::bases;
use crate::classes::declared_infos;
use crate::constants::Constants;
use crate::lookup::Lookup;
use crate::methods::method_infos;
use crate::reversed::joined;
use crate::signs::method_signs;
use crate::targets::all_targets;
use code_table::Code;
use jvm_base::{List, NoMemory};
use link_arrays::{Arrays, Literals, array_classes};
use link_members::{Step, rows};
use link_rules::Program;
use link_uses::{Found, Resolver};
use program_image::{ClassInfo, Image};
use std::alloc::Global;

/// All classes, the array classes behind the declared ones.
#[tactic(auto, using(link_members::proofs::RowLaws::ranked_by), unfolding(crate::specs::Classes::class_infos))]
fn class_infos(
    alloc: Global,
    program: &Program,
    ranks: &[u32],
    arrays: &Arrays,
    constants: &Constants<'_, '_>,
) -> Result<List<ClassInfo>, NoMemory>
    requires small { AreSmall program.now }
    requires ranked { IsRanked (above_rows program.now) ranks.now }
    requires classes { constants.now.classes ≡ length program.now + length arrays.now }
    requires few { constants.now.classes ≤ 16777216 }
    requires room { constants.now.classes + length constants.now.literals.now < 2 ^ 32 }
    ensures { IfOk result
        (λ infos. infos ≡ class_infos program.now arrays.now constants.now.literals.now) }
{
    let supers = rows(alloc, program, Step::Super)?;
    let interfaces = rows(alloc, program, Step::Interfaces)?;
    let bases = bases(alloc, program, supers.as_slice(), ranks)?;
    let declared = declared_infos(
        alloc,
        program,
        constants,
        interfaces.as_slice(),
        bases.as_slice(),
    )?;
    joined(alloc, declared, array_classes(alloc, program, arrays)?)
}

/// The number of a declared method.
fn method_number(lookup: &Lookup<'_, '_, '_>, x: &Found) -> u32
    requires infos { lookup.now.infos.now
        ≡ class_infos lookup.now.resolver.now lookup.now.arrays.now lookup.now.constants.literals.now }
    requires inside { x.now.place < length (methods_at lookup.now.resolver.now x.now.class) }
    requires few { count_methods lookup.now.resolver.now < 2 ^ 32 }
    ensures { result ≡ method_number lookup.now.resolver.now x.now }
{
    let class = &lookup.infos[x.class as usize];
    class.methods.as_slice()[x.place]
}

/// The image of a program, of which each class has a rank above those of the classes directly above
/// it. `boot_items` and `items` are the members that the items of the boot classes and of the files
/// lead to, `boot_codes` and `codes` their decoded code, and `main` is the method where a run begins.
pub fn build(
    alloc: Global,
    resolver: &Resolver<'_, '_>,
    ranks: &[u32],
    arrays: &Arrays,
    literals: &Literals<'_>,
    boot_items: List<List<Option<Found>>>,
    items: List<List<Option<Found>>>,
    boot_codes: List<List<Option<Code>>>,
    codes: List<List<Option<Code>>>,
    main: Found,
) -> Result<Image, NoMemory>
    requires small { AreSmall resolver.now }
    requires fit { Fit resolver.now arrays.now literals.now main }
    requires ranked { IsRanked (above_rows resolver.now) ranks.now }
    requires items { HaveItems resolver.now resolver.now (boot_items ++ items) }
    requires codes { boot_codes ++ codes ≡ map codes_of resolver.now }
    ensures { IfOk result (λ image. image ≡ image_of resolver.now arrays.now literals.now main) }
{
    let program = resolver.program();
    let (boot, files) = program.parts();
    let constants = Constants {
        classes: (boot.len() + files.len() + arrays.len()) as u32,
        literals,
    };
    let items = joined(alloc, boot_items, items)?;
    let codes = joined(alloc, boot_codes, codes)?;
    let classes = class_infos(alloc, program, ranks, arrays, &constants)?;
    let lookup = Lookup {
        resolver,
        arrays,
        constants,
        infos: classes.as_slice(),
    };
    let targets = all_targets(alloc, &lookup, items.as_slice(), codes.as_slice())?;
    let number = method_number(&lookup, &main);
    let methods = method_infos(alloc, program, codes)?;
    let signs = method_signs(alloc, program, methods.as_slice())?;
    let contents = literals.contents(alloc)?;
    Image::with_signs(alloc, classes, methods, signs, targets, contents, number)
}
