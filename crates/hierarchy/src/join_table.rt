//! For each list of numbers the rows that a table has of them, one behind the other.

ghost use Rattle.std.specs.Prelude.{◌≡◌, [], length, IfOk};
ghost use Rattle.std.specs.List.{flat_map};
ghost use Rattle.hierarchy.specs.Hierarchy.{row_of, IsWithin};
ghost use Rattle.hierarchy.specs.Walks.{firsts};
ghost use Rattle.hierarchy.specs.Steps.Filled.{AreMarked};
ghost use Rattle.hierarchy.specs.Joined.{AreJoined};

use crate::walk_table::add_all;
use jvm_base::{List, NoMemory};
use std::alloc::Global;

fn row(table: &[List<u32>], number: u32) -> &[u32]
    ensures { result.now ≡ row_of table.now number }
{
    match table.get(number as usize) {
        Some(row) => row.as_slice(),
        None => &[],
    }
}

/// The rows of some numbers, each item where it stands first; `seen` tells which are there.
fn add_rows(
    alloc: Global,
    table: &[List<u32>],
    seen: &mut [bool],
    list: &[u32],
) -> Result<List<u32>, NoMemory>
    requires within { IsWithin table.now }
    requires lens { length seen.old ≡ length table.now }
    requires unseen { AreMarked seen.old [] }
    ensures { IfOk result (λ all. all ≡ firsts (flat_map (row_of table.now) list.now)) }
{
    let mut all = List::new(alloc);
    for k in list {
        add_all(&mut all, seen, row(table, *k))?;
    }
    Ok(all)
}

/// The rows of some numbers, each item where it stands first.
fn join(alloc: Global, table: &[List<u32>], list: &[u32]) -> Result<List<u32>, NoMemory>
    requires { IsWithin table.now }
    ensures { IfOk result (λ all. all ≡ firsts (flat_map (row_of table.now) list.now)) }
{
    let mut seen = vec![in alloc; false; table.len()]?;
    add_rows(alloc, table, &mut seen, list)
}

/// For each list the rows of its numbers, one behind the other, each item where it stands first.
pub fn joins(
    alloc: Global,
    lists: &[List<u32>],
    table: &[List<u32>],
) -> Result<List<List<u32>>, NoMemory>
    requires { IsWithin table.now }
    ensures { IfOk result (λ joined. AreJoined lists.now table.now joined) }
{
    let mut joined = List::new(alloc);
    for list in lists {
        joined.push(join(alloc, table, list.as_slice())?)?;
    }
    Ok(joined)
}
