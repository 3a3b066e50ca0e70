//! No class lies above itself.

ghost use Rattle.std.specs.Prelude.{◌≡◌, ◌+◌, ◌<◌, ◌≤◌, ◌^◌, length, IfOk};
ghost use Rattle.hierarchy.specs.Hierarchy.{IsWithin, IsRanked};
ghost use Rattle.link_rules.specs.Answers.{IsAnswer};
ghost use Rattle.link_members.specs.Rows.{IsFalling};
ghost use Rattle.link_rules.specs.Classes.{super_loop};
ghost use Rattle.link_rules.specs.Numbers.{numbered};

use class_format::ClassFile;
use class_names::this_name;
use hierarchy::{is_on_loop, order};
use jvm_base::List;
use link_rules::{LinkErr, LinkWhy, refuse_class_if};
use std::alloc::Global;

/// The class of a number doesn't lie above itself.
fn check_loop(
    alloc: Global,
    rows: &[List<u32>],
    number: u32,
    file: &ClassFile,
) -> Result<(), LinkErr>
    requires within { IsWithin rows.now }
    requires inside { number < length rows.now }
    ensures { IsAnswer (super_loop rows.now number file.now) result }
{
    let loops = is_on_loop(alloc, rows, number)?;
    refuse_class_if(alloc, loops, LinkWhy::SuperLoop, file, this_name(file))
}

/// None of these classes, which are numbered from `first` on, lies above itself.
#[tactic(auto, using(link_rules::proofs::Firsts::numbered_break))]
fn check_each(
    alloc: Global,
    rows: &[List<u32>],
    first: u32,
    files: &[ClassFile],
) -> Result<(), LinkErr>
    requires within { IsWithin rows.now }
    requires files_in { first + length files.now ≤ length rows.now }
    requires few { length rows.now < 2 ^ 25 }
    ensures { IsAnswer (numbered (super_loop rows.now) first files.now) result }
{
    let mut number = first;
    for file in files {
        check_loop(alloc, rows, number, file)?;
        number += 1;
    }
    Ok(())
}

/// None of these classes, which are numbered from `first` on, lies above itself. It answers a rank
/// for each class, which is above the ranks of the classes directly above it. Ranks are sought
/// first, in one walk; only where there are none is each class asked by itself.
pub fn check_loops(
    alloc: Global,
    rows: &[List<u32>],
    first: u32,
    files: &[ClassFile],
) -> Result<List<u32>, LinkErr>
    requires within { IsWithin rows.now }
    requires files_in { first + length files.now ≡ length rows.now }
    requires falling { IsFalling rows.now first }
    requires few { length rows.now < 2 ^ 25 }
    ensures answer { IsAnswer (numbered (super_loop rows.now) first files.now) result }
    ensures ranked { IfOk result (λ ranks. IsRanked rows.now ranks) }
{
    match order(alloc, rows)? {
        Some(ranks) => Ok(ranks),
        None => {
            check_each(alloc, rows, first, files)?;
            unreachable!()
        }
    }
}
