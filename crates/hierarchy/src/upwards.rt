//! A search upwards.

ghost use Rattle.std.specs.Prelude.{◌≡◌, ℕ, ◌<◌, ◌≤◌, length, IfOk};
ghost use Rattle.std.specs.List.{All};
ghost use Rattle.hierarchy.specs.Hierarchy.{IsWithin};
ghost use Rattle.hierarchy.specs.Loops.{on_loop};
ghost use Rattle.hierarchy.specs.Steps.Search.{Marked, Outcome, Reached};

use jvm_base::{List, NoMemory};
use std::alloc::Global;

/// Marks a number and puts it among those to do, where it wasn't seen.
fn mark(seen: &mut [u32], todo: &mut List<u32>, m: u32) -> Result<(), NoMemory>
    requires { m < length seen.old }
    ensures { IfOk result (λ _. Marked seen.old todo.old seen.new todo.new m) }
{
    if seen[m as usize] == 0 {
        todo.push(m)?;
        seen[m as usize] = 1;
    }
    Ok(())
}

/// Does the same with each number of a row; true where c is one of them.
fn spread(row: &[u32], seen: &mut [u32], todo: &mut List<u32>, c: u32) -> Result<bool, NoMemory>
    requires { All (λ k. k < length seen.old) row.now }
    ensures { IfOk result (λ met. Outcome met row.now c seen.old todo.old seen.new todo.new) }
{
    for m in row {
        if *m == c {
            return Ok(true);
        }
        mark(seen, todo, *m)?;
    }
    Ok(false)
}

/// Goes on with what is to do until c is met.
fn search(
    rows: &[List<u32>],
    seen: &mut [u32],
    todo: &mut List<u32>,
    c: u32,
) -> Result<bool, NoMemory>
    requires within { IsWithin rows.now }
    requires inside { c < length rows.now }
    requires reached { Reached rows.now c seen.old todo.old }
    ensures { IfOk result (λ r. r ≡ on_loop rows.now c) }
{
    while let Some(k) = todo.pop() {
        if spread(rows[k as usize].as_slice(), seen, todo, c)? {
            return Ok(true);
        }
    }
    Ok(false)
}

/// Whether the number lies above itself.
pub fn is_on_loop(alloc: Global, rows: &[List<u32>], c: u32) -> Result<bool, NoMemory>
    requires within { IsWithin rows.now }
    requires inside { c < length rows.now }
    ensures { IfOk result (λ r. r ≡ on_loop rows.now c) }
{
    let mut seen: Vec<u32> = vec![in alloc; 0; rows.len()]?;
    let mut todo = List::new(alloc);
    todo.push(c)?;
    search(rows, &mut seen, &mut todo, c)
}
