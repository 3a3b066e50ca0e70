//! An order of a hierarchy, or a loop in it.

ghost use Rattle.std.specs.Prelude.{◌≡◌, ℕ, ◌<◌, ◌≤◌, ◌+◌, ◌^◌, length, slice_index, MatchResult, IfOk, MatchOption};
ghost use Rattle.hierarchy.specs.Hierarchy.{Under, IsWithin, IsRanked};
ghost use Rattle.hierarchy.specs.Steps.Marks.{AreDone, Leads, Grew, unseen};

use jvm_base::{List, NoMemory};
use std::alloc::Global;

/// Marks the number and all above it, or gives a number that lies above itself.
fn visit(rows: &[List<u32>], marks: &mut [u32], last: u32, c: u32) -> Result<u32, u32>
    requires within { IsWithin rows.now }
    requires lens { length marks.old ≡ length rows.now }
    requires inside { c < length rows.now }
    requires new { slice_index marks.old c ≡ 0 }
    requires open { Leads rows.now marks.old c }
    requires done { AreDone rows.now marks.old last }
    requires room { last + unseen marks.old < 2 ^ 32 }
    ensures { MatchResult result
        (λ next. AreDone rows.now marks.new next × Grew marks.old marks.new
        × (2 ≤ slice_index marks.new c) × (last ≤ next)
        × (next + unseen marks.new ≤ last + unseen marks.old))
        (λ x. Under rows.now x x) }
{
    marks[c as usize] = 1;
    let mut next = last;
    for k in rows[c as usize].as_slice() {
        let mark = marks[*k as usize];
        if mark == 1 {
            return Err(*k);
        }
        if mark == 0 {
            next = visit(rows, marks, next, *k)?;
        }
    }
    next += 1;
    marks[c as usize] = next;
    Ok(next)
}

/// For each number a rank that is above those of the numbers above it, or None where a number lies
/// above itself.
pub fn order(alloc: Global, rows: &[List<u32>]) -> Result<Option<List<u32>>, NoMemory>
    requires within { IsWithin rows.now }
    requires few { length rows.now < 2 ^ 25 }
    ensures { IfOk result (λ o. MatchOption o
        ((c : ℕ) × Under rows.now c c)
        (λ ranks. IsRanked rows.now ranks)) }
{
    let mut marks: Vec<u32> = vec![in alloc; 0; rows.len()]?;
    let mut last = 1;
    for c in 0..rows.len() {
        if marks[c] == 0 {
            match visit(rows, &mut marks, last, c as u32) {
                Ok(next) => last = next,
                Err(_) => return Ok(None),
            }
        }
    }
    Ok(Some(List::from_vec(marks)))
}
