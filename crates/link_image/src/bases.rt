//! The first places of instance fields.

ghost use Rattle.std.specs.Prelude.{◌≡◌, ◌+◌, ◌++◌, ◌<◌, ◌≤◌, ◌^◌, length, map, IfOk, OnOk};
ghost use Rattle.std.specs.List.{All, count_by};
ghost use Rattle.hierarchy.specs.Hierarchy.{IsRanked};
ghost use Rattle.link_rules.specs.Numbers.{map_from, super_rows};
ghost use Rattle.link_image.specs.Fields.{is_instance, instances_at, base_of};
ghost use Rattle.link_image.specs.Kept.Bases.{AreKnown};
ghost use Rattle.link_image.specs.Sizes.{HasFewFields};

use class_format::{FieldItem, STATIC, has_flag};
use jvm_base::{List, NoMemory};
use link_rules::Program;
use std::alloc::Global;

/// How many of some fields are instance fields.
fn instances(fields: &[FieldItem]) -> u32
    requires { length fields.now < 2 ^ 16 }
    ensures { result ≡ count_by is_instance fields.now }
{
    let mut count = 0;
    for field in fields {
        if !has_flag(field.flags, STATIC) {
            count += 1;
        }
    }
    count
}

/// How many instance fields the class of a number declares.
fn instances_at(program: &Program, number: u32) -> u32
    requires { All HasFewFields program.now }
    ensures value { result ≡ instances_at program.now number }
    ensures few { result < 2 ^ 16 }
{
    match program.class(number as usize) {
        Some(class) => instances(class.fields.as_slice()),
        None => 0,
    }
}

/// The first place for instance fields of the class of a number. What is found out on the way is
/// kept in `known`, so that each class is asked once.
fn base(
    program: &Program,
    supers: &[List<u32>],
    ranks: &[u32],
    known: &mut [Option<u32>],
    c: u32,
) -> u32
    requires rows { supers.now ≡ super_rows program.now }
    requires ranked { IsRanked (super_rows program.now) ranks.now }
    requires few_classes { length program.now < 2 ^ 15 }
    requires few_fields { All HasFewFields program.now }
    requires lens { length known.old ≡ length program.now }
    requires inside { c < length program.now }
    requires known { AreKnown program.now known.old }
    ensures value { result ≡ base_of program.now c }
    ensures known { AreKnown program.now known.new }
{
    if let Some(base) = known[c as usize] {
        return base;
    }
    let mut sum = 0;
    for k in supers[c as usize].as_slice() {
        sum += instances_at(program, *k) + base(program, supers, ranks, known, *k);
    }
    known[c as usize] = Some(sum);
    sum
}

/// Adds the first place of each class; those that are known are in `known`.
fn add_bases(
    all: &mut List<u32>,
    program: &Program,
    supers: &[List<u32>],
    ranks: &[u32],
    known: &mut [Option<u32>],
) -> Result<(), NoMemory>
    requires rows { supers.now ≡ super_rows program.now }
    requires ranked { IsRanked (super_rows program.now) ranks.now }
    requires few_classes { length program.now < 2 ^ 15 }
    requires few_fields { All HasFewFields program.now }
    requires lens { length known.old ≡ length program.now }
    requires known { AreKnown program.now known.old }
    ensures { OnOk result
        (all.new ≡ all.old ++ map_from (λ c f. base_of program.now c) 0 program.now) }
{
    for c in 0..supers.len() {
        all.push(base(program, supers, ranks, known, c as u32))?;
    }
    Ok(())
}

/// For each class the first place for its instance fields.
pub(crate) fn bases(
    alloc: Global,
    program: &Program,
    supers: &[List<u32>],
    ranks: &[u32],
) -> Result<List<u32>, NoMemory>
    requires rows { supers.now ≡ super_rows program.now }
    requires ranked { IsRanked (super_rows program.now) ranks.now }
    requires few_classes { length program.now < 2 ^ 15 }
    requires few_fields { All HasFewFields program.now }
    ensures bases { IfOk result
        (λ bases. bases ≡ map_from (λ c f. base_of program.now c) 0 program.now) }
    ensures few { IfOk result (λ bases. All (λ base. base ≤ 2 ^ 31) bases) }
{
    let mut known = vec![in alloc; None; supers.len()]?;
    let mut bases = List::new(alloc);
    add_bases(&mut bases, program, supers, ranks, &mut known)?;
    Ok(bases)
}
