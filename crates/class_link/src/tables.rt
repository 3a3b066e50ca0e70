//! Ranks of classes, and the walks upwards from each.

ghost use Rattle.std.specs.Prelude.{◌≡◌, ◌++◌, ◌+◌, ◌<◌, ◌≤◌, ◌^◌, length, map, IfOk};
ghost use Rattle.boot_table.specs.Files.{boot_files};
ghost use Rattle.hierarchy.specs.Hierarchy.{IsRanked};
ghost use Rattle.hierarchy.specs.Walks.{IsWalked};
ghost use Rattle.link_members.specs.Rows.{row_by};
ghost use Rattle.link_rules.specs.Answers.{IsAnswer};
ghost use Rattle.link_rules.specs.Classes.{super_loop};
ghost use Rattle.link_rules.specs.Numbers.{numbered, above_rows, super_rows, interface_rows, field_rows};
ghost use Rattle.class_link.specs.Mains.{first_number};
ghost use Rattle.class_link.specs.Refusals.{classes_of};

use class_format::ClassFile;
use hierarchy::walks;
use jvm_base::{List, NoMemory};
use link_members::{Step, check_loops, rows};
use link_rules::{LinkErr, Program};
use link_uses::Resolver;
use std::alloc::Global;

/// The number of the first file's class: there are so many boot classes.
pub(crate) const FIRST: u32 = 34;

/// A rank for each class above those of the classes directly above it. No class lies above itself.
pub(crate) fn ranks(
    alloc: Global,
    program: &Program,
    files: &[ClassFile],
) -> Result<List<u32>, LinkErr>
    requires program { program.now ≡ classes_of files.now }
    requires count { length program.now ≡ FIRST + length files.now }
    requires few { length files.now ≤ 1024 }
    ensures ranked { IfOk result (λ ranks. IsRanked (above_rows program.now) ranks) }
    ensures answer { IsAnswer
        (numbered (super_loop (above_rows program.now)) first_number files.now) result }
{
    let rows = rows(alloc, program, Step::Above)?;
    check_loops(alloc, rows.as_slice(), FIRST, files)
}

/// For each class the walk upwards from it by a step.
#[tactic(auto, using(link_members::proofs::RowLaws::rows_within, link_members::proofs::RowLaws::ranked_by))]
pub(crate) fn walk_table(
    alloc: Global,
    program: &Program,
    ranks: &[u32],
    step: Step,
) -> Result<List<List<u32>>, NoMemory>
    requires ranked { IsRanked (above_rows program.now) ranks.now }
    requires few { length program.now < 2 ^ 25 }
    ensures { IfOk result (λ table. IsWalked (map (row_by step program.now) program.now) table) }
{
    let rows = rows(alloc, program, step)?;
    walks(alloc, rows.as_slice(), ranks)
}

/// What looks members up, over the walks upwards from each class.
pub(crate) fn resolver<'p, 'a>(
    alloc: Global,
    program: &'p Program<'a>,
    ranks: &[u32],
    supers: List<List<u32>>,
) -> Result<Resolver<'p, 'a>, NoMemory>
    requires ranked { IsRanked (above_rows program.now) ranks.now }
    requires some { 0 < length program.now }
    requires few { length program.now < 2 ^ 25 }
    requires supers { IsWalked (super_rows program.now) supers }
    ensures { IfOk result (λ resolver. resolver ≡ program.now) }
{
    let interfaces = walk_table(alloc, program, ranks, Step::Interfaces)?;
    let fields = walk_table(alloc, program, ranks, Step::Fields)?;
    Resolver::new(alloc, program, supers, interfaces, fields)
}
