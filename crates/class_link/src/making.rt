//! The image of files that no rule refuses.

ghost use Rattle.std.specs.Prelude.{◌≡◌, ◌+◌, ◌<◌, ◌≤◌, [], false, length, map, All, IfOk};
ghost use Rattle.std.specs.List.{flat_map};
ghost use Rattle.boot_table.specs.Files.{boot_files};
ghost use Rattle.class_format.specs.Meaning.{IsClass};
ghost use Rattle.class_names.specs.Classes.{codes_of};
ghost use Rattle.hierarchy.specs.Hierarchy.{IsRanked};
ghost use Rattle.link_arrays.specs.Arrays.{array_types};
ghost use Rattle.link_arrays.specs.ArrayClasses.{too_many};
ghost use Rattle.link_arrays.specs.Literals.{literals};
ghost use Rattle.link_image.specs.Image.{image_of};
ghost use Rattle.link_rules.specs.Members.{wrong_members};
ghost use Rattle.link_rules.specs.Numbers.{above_rows, methods_at};
ghost use Rattle.link_uses.specs.Items.{HaveItems};
ghost use Rattle.class_link.specs.Refusals.{classes_of};

use crate::tables::FIRST;
use class_format::ClassFile;
use code_table::Code;
use jvm_base::{List, NoMemory};
use link_arrays::{Arrays, Literals};
use link_image::build;
use link_rules::{LinkErr, decode_files};
use link_uses::{Found, Resolver, all_items};
use program_image::Image;
use std::alloc::Global;

/// The code of the boot classes, all of which is decoded.
#[tactic(auto, using(crate::proofs::BootCodes::boot_answers))]
fn boot_codes(alloc: Global, boot: &[ClassFile]) -> Result<List<List<Option<Code>>>, NoMemory>
    requires { boot.now ≡ boot_files }
    ensures { IfOk result (λ codes. codes ≡ map codes_of boot.now) }
{
    match decode_files(alloc, boot) {
        Ok(codes) => Ok(codes),
        Err(LinkErr::NoMemory) => Err(NoMemory),
        Err(_) => unreachable!(),
    }
}

/// The image of the boot classes and the files, which begins in a method of theirs; `items` are the
/// members that the files' items lead to.
pub(crate) fn image(
    alloc: Global,
    resolver: &Resolver<'_, '_>,
    ranks: &[u32],
    arrays: &Arrays,
    boot: &[ClassFile],
    files: &[ClassFile],
    items: List<List<Option<Found>>>,
    codes: List<List<Option<Code>>>,
    start: Found,
) -> Result<Image, NoMemory>
    requires boot { boot.now ≡ boot_files }
    requires few { length files.now ≤ 1024 }
    requires formed { All IsClass files.now }
    requires program { resolver.now ≡ classes_of files.now }
    requires ranked { IsRanked (above_rows resolver.now) ranks.now }
    requires arrays { arrays.now ≡ array_types files.now }
    requires count { too_many (FIRST + length files.now) files.now ≡ false }
    requires declared { flat_map wrong_members files.now ≡ [] }
    requires items { HaveItems resolver.now files.now items }
    requires codes { codes ≡ map codes_of files.now }
    requires start { start.place < length (methods_at (classes_of files.now) start.class) }
    ensures { IfOk result (λ image. image
        ≡ image_of (classes_of files.now) (array_types files.now) (literals files.now) start) }
{
    let boot_codes = boot_codes(alloc, boot)?;
    let boot_items = all_items(alloc, resolver, boot)?;
    let literals = Literals::of(alloc, files, codes.as_slice())?;
    build(
        alloc, resolver, ranks, arrays, &literals, boot_items, items, boot_codes, codes, start,
    )
}
