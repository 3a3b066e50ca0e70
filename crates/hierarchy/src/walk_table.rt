//! For each number its walk, each item where it stands first.

ghost use Rattle.std.specs.Prelude.{◌≡◌, ℕ, ◌<◌, ◌≤◌, ◌^◌, true, length, OnOk, IfOk};
ghost use Rattle.std.specs.List.{All, Contains};
ghost use Rattle.hierarchy.specs.Hierarchy.{row_of, IsWithin, IsRanked};
ghost use Rattle.hierarchy.specs.Steps.Filled.{AreWalked, is_seen, AreUnseen, AreMarked, Adds, AddsAll};
ghost use Rattle.hierarchy.specs.Walks.{all_from, firsts, has, IsWalked};

use jvm_base::{List, NoMemory};
use std::alloc::Global;

/// Adds the number where it isn't there yet; `seen` tells which are.
fn add(all: &mut List<u32>, seen: &mut [bool], x: u32) -> Result<(), NoMemory>
    requires inside { x < length seen.old }
    requires marked { AreMarked seen.old all.old }
    ensures { OnOk result (Adds seen.old seen.new all.old all.new x) }
{
    if seen[x as usize] {
        return Ok(());
    }
    all.push(x)?;
    seen[x as usize] = true;
    Ok(())
}

/// Adds what isn't there yet.
pub(crate) fn add_all(all: &mut List<u32>, seen: &mut [bool], more: &[u32]) -> Result<(), NoMemory>
    requires inside { All (λ x. x < length seen.old) more.now }
    requires marked { AreMarked seen.old all.old }
    ensures { OnOk result (AddsAll seen.old seen.new all.old all.new more.now) }
{
    for x in more {
        add(all, seen, *x)?;
    }
    Ok(())
}

/// Marks none of the numbers any more.
fn clear(seen: &mut [bool], all: &[u32])
    requires inside { All (λ x. x < length seen.old) all.now }
    requires marked { (d : ℕ) → is_seen seen.old d ≡ true → has all.now d ≡ true }
    ensures { AreUnseen seen.new }
{
    for x in all {
        seen[*x as usize] = false;
    }
}

/// The walk of a number, from the table's walks of the numbers in its row.
fn gather(
    alloc: Global,
    rows: &[List<u32>],
    ranks: &[u32],
    table: &[List<u32>],
    seen: &mut [bool],
    c: u32,
) -> Result<List<u32>, NoMemory>
    requires within { IsWithin rows.now }
    requires ranked { IsRanked rows.now ranks.now }
    requires lens { length table.now ≡ length rows.now }
    requires marks { length seen.old ≡ length rows.now }
    requires inside { c < length rows.now }
    requires right { AreWalked rows.now table.now }
    requires filled { (k : ℕ) → Contains (row_of rows.now c) k → 1 ≤ length (row_of table.now k) }
    requires unseen { AreUnseen seen.old }
    ensures walk { IfOk result (λ all. all ≡ firsts (all_from rows.now c)) }
    ensures unseen { OnOk result (AreUnseen seen.new) }
{
    let mut all = List::new(alloc);
    add(&mut all, seen, c)?;
    for k in rows[c as usize].as_slice() {
        add_all(&mut all, seen, table[*k as usize].as_slice())?;
    }
    clear(seen, all.as_slice());
    Ok(all)
}

/// Fills the row of the number, and those of all above it.
fn fill(
    alloc: Global,
    rows: &[List<u32>],
    ranks: &[u32],
    table: &mut [List<u32>],
    seen: &mut [bool],
    c: u32,
) -> Result<(), NoMemory>
    requires within { IsWithin rows.now }
    requires ranked { IsRanked rows.now ranks.now }
    requires lens { length table.old ≡ length rows.now }
    requires marks { length seen.old ≡ length rows.now }
    requires inside { c < length rows.now }
    requires right { AreWalked rows.now table.old }
    requires unseen { AreUnseen seen.old }
    ensures right { OnOk result (AreWalked rows.now table.new) }
    ensures filled { OnOk result (1 ≤ length (row_of table.new c)) }
    ensures kept { OnOk result ((d : ℕ) → 1 ≤ length (row_of table.old d) → 1 ≤ length (row_of table.new d)) }
    ensures unseen { OnOk result (AreUnseen seen.new) }
{
    if table[c as usize].len() > 0 {
        return Ok(());
    }
    for k in rows[c as usize].as_slice() {
        fill(alloc, rows, ranks, table, seen, *k)?;
    }
    let walk = gather(alloc, rows, ranks, table, seen, c)?;
    table[c as usize] = walk;
    Ok(())
}

/// For each number its walk, each item where it stands first. The ranks are those that `order`
/// gives.
pub fn walks(alloc: Global, rows: &[List<u32>], ranks: &[u32]) -> Result<List<List<u32>>, NoMemory>
    requires within { IsWithin rows.now }
    requires ranked { IsRanked rows.now ranks.now }
    requires few { length rows.now < 2 ^ 25 }
    ensures { IfOk result (λ table. IsWalked rows.now table) }
{
    let mut table = Vec::new(alloc);
    for _row in rows {
        table.push(List::new(alloc))?;
    }
    let mut seen = vec![in alloc; false; rows.len()]?;
    for c in 0..rows.len() {
        fill(alloc, rows, ranks, &mut table, &mut seen, c as u32)?;
    }
    Ok(List::from_vec(table))
}
