//! For each number the set of itself and all that lies above it, in rising order.

ghost use Rattle.std.specs.Prelude.{◌≡◌, ◌<◌, ◌^◌, length, IfOk};
ghost use Rattle.std.specs.Ordering.{nat_cmp};
ghost use Rattle.std.specs.List.Sorted.{IsPermutation, IsSorted};
ghost use Rattle.hierarchy.specs.Closure.{IsClosure};
ghost use Rattle.hierarchy.specs.Walks.{has};
ghost use Rattle.hierarchy.specs.Hierarchy.{IsWithin, IsRanked};

use crate::walk_table::walks;
use jvm_base::{List, NoMemory};
use std::alloc::Global;

/// The numbers in rising order.
fn sorted(alloc: Global, numbers: &[u32]) -> Result<List<u32>, NoMemory>
    ensures permutation { IfOk result (λ row. IsPermutation numbers.now row) }
    ensures sorted { IfOk result (λ row. IsSorted nat_cmp row) }
{
    let mut row = Vec::from_slice(alloc, numbers)?;
    row.sort_unstable();
    Ok(List::from_vec(row))
}

/// For each number itself and all that lies above it, in rising order. The ranks are those that
/// `order` gives.
pub fn closure(
    alloc: Global,
    rows: &[List<u32>],
    ranks: &[u32],
) -> Result<List<List<u32>>, NoMemory>
    requires within { IsWithin rows.now }
    requires ranked { IsRanked rows.now ranks.now }
    requires few { length rows.now < 2 ^ 25 }
    ensures { IfOk result (λ table. IsClosure rows.now table) }
{
    let walked = walks(alloc, rows, ranks)?;
    let mut table = List::new(alloc);
    for walk in walked.as_slice() {
        table.push(sorted(alloc, walk.as_slice())?)?;
    }
    Ok(table)
}

/// Whether the number is one of these, which rise.
pub fn is_among(numbers: &[u32], n: u32) -> bool
    requires { IsSorted nat_cmp numbers.now }
    ensures { result ≡ has numbers.now n }
{
    numbers.binary_search(&n).is_ok()
}
