//! What lies above each class, found once.

ghost use Rattle.std.specs.Prelude.{◌≡◌, ℕ, ◌<◌, ◌≤◌, length, map, IfOk};
ghost use Rattle.std.specs.List.{All};
ghost use Rattle.hierarchy.specs.Hierarchy.{IsWithin, Under};
ghost use Rattle.program_image.specs.Subclass.{above, all_above, part_of};
ghost use Rattle.program_image.specs.Built.Ancestry.{IsAncestry, parts_in};

use crate::info::ClassInfo;
use hierarchy::{closure, order};
use jvm_base::{List, NoMemory};
use std::alloc::Global;

/// For each class a rank above the ranks of all that lies above it, the sorted set of itself and of
/// the classes and interfaces above it, and the parts of the arrays among these.
#[derive(Drop)]
pub(crate) struct Ancestry {
    pub ranks: List<u32>,
    pub above: List<List<u32>>,
    pub parts: List<List<u32>>,
}

/// The superclass and the superinterfaces of a class.
fn above_row(alloc: Global, class: &ClassInfo) -> Result<List<u32>, NoMemory>
    ensures { IfOk result (λ row. row ≡ above class.now) }
{
    let mut row = List::new(alloc);
    if let Some(k) = class.super_class {
        row.push(k)?;
    }
    row.append(class.interfaces.as_slice())?;
    Ok(row)
}

/// For each class its superclass and its superinterfaces.
fn above_rows(alloc: Global, classes: &[ClassInfo]) -> Result<List<List<u32>>, NoMemory>
    ensures { IfOk result (λ rows. rows ≡ map above classes.now) }
{
    let mut rows = List::new(alloc);
    for class in classes {
        rows.push(above_row(alloc, class)?)?;
    }
    Ok(rows)
}

/// What lies directly above a class, the part of an array too.
fn whole_row(alloc: Global, class: &ClassInfo) -> Result<List<u32>, NoMemory>
    ensures { IfOk result (λ row. row ≡ all_above class.now) }
{
    let mut row = above_row(alloc, class)?;
    if let Some(array) = &class.array {
        if let Some(part) = array.part {
            row.push(part)?;
        }
    }
    Ok(row)
}

/// For each class what lies directly above it, the part of an array too.
fn whole_rows(alloc: Global, classes: &[ClassInfo]) -> Result<List<List<u32>>, NoMemory>
    ensures { IfOk result (λ rows. rows ≡ map all_above classes.now) }
{
    let mut rows = List::new(alloc);
    for class in classes {
        rows.push(whole_row(alloc, class)?)?;
    }
    Ok(rows)
}

/// The class of an array's parts, where they are references.
pub(crate) fn part(classes: &[ClassInfo], class: u32) -> Option<u32>
    ensures { result ≡ part_of classes.now class }
{
    match classes.get(class as usize) {
        Some(info) => match &info.array {
            Some(array) => array.part,
            None => None,
        },
        None => None,
    }
}

/// The parts of the arrays in a row.
fn parts_row(alloc: Global, classes: &[ClassInfo], row: &[u32]) -> Result<List<u32>, NoMemory>
    ensures { IfOk result (λ parts. parts ≡ parts_in classes.now row.now) }
{
    let mut parts = List::new(alloc);
    for class in row {
        if let Some(part) = part(classes, *class) {
            parts.push(part)?;
        }
    }
    Ok(parts)
}

/// The parts of the arrays in each row.
fn parts_rows(
    alloc: Global,
    classes: &[ClassInfo],
    rows: &[List<u32>],
) -> Result<List<List<u32>>, NoMemory>
    ensures { IfOk result (λ parts. parts ≡ map (parts_in classes.now) rows.now) }
{
    let mut parts = List::new(alloc);
    for row in rows {
        parts.push(parts_row(alloc, classes, row.as_slice())?)?;
    }
    Ok(parts)
}

impl Ancestry {
    /// What lies above each class, where none lies above itself.
    pub fn new(alloc: Global, classes: &[ClassInfo]) -> Result<Ancestry, NoMemory>
        requires few { length classes.now ≤ 16777216 }
        requires within { IsWithin (map all_above classes.now) }
        requires apart { (c : ℕ) → Under (map all_above classes.now) c c → ⊥ }
        ensures { IfOk result (λ ancestry. IsAncestry classes.now ancestry) }
    {
        let whole = whole_rows(alloc, classes)?;
        let rows = above_rows(alloc, classes)?;
        let ranks = match order(alloc, whole.as_slice())? {
            Some(ranks) => ranks,
            None => unreachable!(),
        };
        let above = closure(alloc, rows.as_slice(), ranks.as_slice())?;
        let parts = parts_rows(alloc, classes, above.as_slice())?;
        Ok(Ancestry {
            ranks,
            above,
            parts,
        })
    }
}
