//! Lists the other way round.

ghost use Rattle.std.specs.Prelude.{◌≡◌, ◌++◌, reverse, IfOk};

use jvm_base::{List, NoMemory};
use std::alloc::Global;

/// The items from the end to the front: `pop` then takes them in their order.
pub(crate) fn reversed<T: Drop>(alloc: Global, items: List<T>) -> Result<List<T>, NoMemory>
    ensures { IfOk result (λ other. other ≡ reverse items) }
{
    let mut items = items;
    let mut other = List::new(alloc);
    while let Some(item) = items.pop() {
        other.push(item)?;
    }
    Ok(other)
}

/// The items of the first list, and those of the second behind them.
pub(crate) fn joined<T: Drop>(
    alloc: Global,
    first: List<T>,
    second: List<T>,
) -> Result<List<T>, NoMemory>
    ensures { IfOk result (λ all. all ≡ first ++ second) }
{
    let mut all = first;
    let mut rest = reversed(alloc, second)?;
    while let Some(item) = rest.pop() {
        all.push(item)?;
    }
    Ok(all)
}
