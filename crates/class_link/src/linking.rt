//! All refusals of linking, in order.

ghost use Rattle.std.specs.Prelude.{OnOk, ◌≡◌, ◌++◌, ◌+◌, ◌<◌, ◌≤◌, ◌^◌, length, map, All, IfOk};
ghost use Rattle.std.specs.List.{flat_map};
ghost use Rattle.boot_table.specs.Files.{boot_files};
ghost use Rattle.class_format.specs.Meaning.{IsClass};
ghost use Rattle.class_names.specs.Classes.{codes_of};
ghost use Rattle.hierarchy.specs.Hierarchy.{IsRanked};
ghost use Rattle.hierarchy.specs.Walks.{IsWalked};
ghost use Rattle.link_rules.specs.Answers.{IsAnswer};
ghost use Rattle.link_rules.specs.Numbers.{numbered, above_rows, super_rows};
ghost use Rattle.link_uses.specs.Items.{HaveItems};
ghost use Rattle.link_uses.specs.Tables.{HasRanks};
ghost use Rattle.class_link.specs.Linked.{linked};
ghost use Rattle.class_link.specs.Mains.{first_number};
ghost use Rattle.class_link.specs.Refusals.{classes_of, name_refusals, above_refusals, declared_refusals, use_refusals, member_refusals, rule_refusals, link_refusals};

use crate::count::array_types;
use crate::main_class::main_method;
use crate::making::image;
use crate::names::named_program;
use crate::tables::{FIRST, ranks, resolver, walk_table};
use boot_table::boot_classes;
use class_format::ClassFile;
use code_table::Code;
use jvm_base::{List, Units};
use link_members::{Step, check_declared, check_overrides};
use link_rules::{LinkErr, Program, check_descs, check_finals, check_kinds, decode_files};
use link_uses::{Found, Resolver, all_items, check_access, check_members, check_uses};
use program_image::Image;
use std::alloc::Global;

/// What lies above each class is of the right kind. It answers ranks of the classes.
#[tactic(auto, using(link_rules::proofs::Firsts::answer_back), unfolding(crate::specs::Refusals::above_refusals))]
fn check_above(alloc: Global, program: &Program, files: &[ClassFile]) -> Result<List<u32>, LinkErr>
    requires program { program.now ≡ classes_of files.now }
    requires count { length program.now ≡ FIRST + length files.now }
    requires few { length files.now ≤ 1024 }
    ensures ranked { IfOk result (λ ranks. IsRanked (above_rows program.now) ranks) }
    ensures answer { IsAnswer (above_refusals program.now first_number files.now) result }
{
    check_kinds(alloc, program, files)?;
    check_finals(alloc, program, files)?;
    ranks(alloc, program, files)
}

/// What the files declare may be declared.
#[tactic(auto, using(link_rules::proofs::Firsts::answer_back), unfolding(crate::specs::Refusals::declared_refusals))]
fn check_declarations(
    alloc: Global,
    program: &Program,
    supers: &[List<u32>],
    ranks: &[u32],
    files: &[ClassFile],
    codes: &[List<Option<Code>>],
) -> Result<(), LinkErr>
    requires program { program.now ≡ classes_of files.now }
    requires count { length program.now ≡ FIRST + length files.now }
    requires few { length files.now ≤ 1024 }
    requires ranked { IsRanked (super_rows program.now) ranks.now }
    requires walked { IsWalked (super_rows program.now) supers.now }
    requires codes { codes.now ≡ map codes_of files.now }
    ensures { IsAnswer (declared_refusals program.now first_number files.now) result }
{
    check_descs(alloc, files, codes)?;
    check_declared(alloc, files)?;
    check_overrides(alloc, program, supers, ranks, FIRST, files)
}

/// What the files' code uses is there, of the right kind, and accessible. It answers the members that
/// their items lead to.
#[tactic(auto, using(link_rules::proofs::Firsts::answer_back), unfolding(crate::specs::Refusals::use_refusals))]
fn check_code(
    alloc: Global,
    resolver: &Resolver,
    files: &[ClassFile],
    codes: &[List<Option<Code>>],
) -> Result<List<List<Option<Found>>>, LinkErr>
    requires count { length resolver.now ≡ FIRST + length files.now }
    requires few { length files.now ≤ 1024 }
    requires codes { codes.now ≡ map codes_of files.now }
    ensures items { IfOk result (λ items. HaveItems resolver.now files.now items) }
    ensures answer { IsAnswer (use_refusals resolver.now first_number files.now) result }
{
    let found = all_items(alloc, resolver, files)?;
    let items = found.as_slice();
    check_members(alloc, resolver, files, items, codes)?;
    check_uses(alloc, resolver, files, items, codes)?;
    check_access(alloc, resolver, FIRST, files, items, codes)?;
    Ok(found)
}

/// What looks members up, and the members that the files' items lead to, where the rules on members
/// hold.
#[tactic(auto, using(link_rules::proofs::Firsts::answer_back), unfolding(crate::specs::Refusals::member_refusals))]
fn resolved<'p, 'a>(
    alloc: Global,
    program: &'p Program<'a>,
    ranks: &[u32],
    files: &[ClassFile],
    codes: &[List<Option<Code>>],
) -> Result<(Resolver<'p, 'a>, List<List<Option<Found>>>), LinkErr>
    requires program { program.now ≡ classes_of files.now }
    requires count { length program.now ≡ FIRST + length files.now }
    requires few { length files.now ≤ 1024 }
    requires ranked { IsRanked (above_rows program.now) ranks.now }
    requires codes { codes.now ≡ map codes_of files.now }
    ensures resolver { IfOk result (λ r. r.0 ≡ program.now) }
    ensures items { IfOk result (λ r. HaveItems r.0 files.now r.1) }
    ensures answer { IsAnswer (member_refusals program.now first_number files.now) result }
{
    let supers = walk_table(alloc, program, ranks, Step::Super)?;
    check_declarations(alloc, program, supers.as_slice(), ranks, files, codes)?;
    let resolver = resolver(alloc, program, ranks, supers)?;
    let items = check_code(alloc, &resolver, files, codes)?;
    Ok((resolver, items))
}

/// The image of the program, where no rule refuses it.
#[tactic(auto, using(link_rules::proofs::Firsts::answer_back, crate::proofs::BootLaws::class_count), unfolding(crate::specs::Refusals::rule_refusals))]
fn link_program<'a>(
    alloc: Global,
    boot: &'a [ClassFile],
    files: &'a [ClassFile],
    codes: List<List<Option<Code>>>,
    main: &[u16],
) -> Result<Image, LinkErr>
    requires boot { boot.now ≡ boot_files }
    requires few { length files.now ≤ 1024 }
    requires formed { All IsClass files.now }
    requires codes { codes ≡ map codes_of files.now }
    ensures answer { IsAnswer (rule_refusals files.now main.now) result }
    ensures image { IfOk result (λ image. image ≡ linked files.now main.now) }
    ensures ranked { OnOk result (HasRanks (above_rows (classes_of files.now))) }
{
    let program = named_program(alloc, boot, files, codes.as_slice())?;
    let ranks = check_above(alloc, &program, files)?;
    let (resolver, items) = resolved(alloc, &program, ranks.as_slice(), files, codes.as_slice())?;
    let start = main_method(alloc, files, main)?;
    let arrays = array_types(alloc, files, codes.as_slice(), main)?;
    let ranks = ranks.as_slice();
    let image = image(
        alloc, &resolver, ranks, &arrays, boot, files, items, codes, start,
    )?;
    Ok(image)
}

/// Links the files with a main class of that name: the image exactly where none of linking's
/// refusals comes, else the first of them.
#[tactic(auto, using(link_rules::proofs::Firsts::answer_back), unfolding(crate::specs::Refusals::link_refusals))]
pub fn link(alloc: Global, files: &List<ClassFile>, main: &Units) -> Result<Image, LinkErr>
    requires few { length files.now ≤ 1024 }
    requires formed { All IsClass files.now }
    ensures answer { IsAnswer (link_refusals files.now main.now) result }
    ensures image { IfOk result (λ image. image ≡ linked files.now main.now) }
    ensures ranked { OnOk result (HasRanks (above_rows (classes_of files.now))) }
{
    let codes = decode_files(alloc, files.as_slice())?;
    let boot = boot_classes(alloc)?;
    link_program(
        alloc,
        boot.as_slice(),
        files.as_slice(),
        codes,
        main.as_slice(),
    )
}
