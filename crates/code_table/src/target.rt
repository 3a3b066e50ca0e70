//! Addresses that must be those of instructions.

ghost use Rattle.std.specs.Prelude.{◌≡◌, ◌<◌, ◌^◌, length, find, position, map, All, IfOk, IfSome};
ghost use Rattle.std.specs.Option.{option_copied};
ghost use Rattle.code_table.specs.declared.error.CodeErr.TheVariants.{TargetOff, BadTable};
ghost use Rattle.code_table.specs.Targets.{targets_of, is_start, leads_off, is_bad_entry, refused, flag_at};
ghost use Rattle.std.specs.List.{list_all};
ghost use Rattle.jvm_base.specs.Told.{Gives, itself};
ghost use Rattle.code_table.specs.Told.{told};

use crate::code::Placed;
use crate::error::CodeErr;
use crate::op::Op;
use jvm_base::{NoMemory, TableItem};
use std::alloc::Global;

/// A flag for each address of the code: whether an instruction begins there.
pub(crate) fn starts(alloc: Global, ops: &[Placed], len: usize) -> Result<Vec<bool>, NoMemory>
    requires { All (λ p. p.at < len) ops.now }
    ensures { IfOk result (λ flags. flag_at flags.items ≡ is_start ops.now) }
{
    let mut flags = vec![in alloc; false; len]?;
    for placed in ops {
        flags[placed.at as usize] = true;
    }
    Ok(flags)
}

/// The flag of an address; `false` past the code.
#[tactic(auto, unfolding(crate::specs::Targets::flag_at))]
fn flag_at(flags: &[bool], at: u32) -> bool
    ensures { result ≡ flag_at flags.now at }
{
    flags.get(at as usize).copied().unwrap_or(false)
}

fn all_start(targets: &[u32], flags: &[bool]) -> bool
    ensures { result ≡ list_all (flag_at flags.now) targets.now }
{
    targets.iter().all(|to| flag_at(flags, *to))
}

fn all_pairs_start(pairs: &[(i32, u32)], flags: &[bool]) -> bool
    ensures { result ≡ list_all (flag_at flags.now) (map (λ p. p.1) pairs.now) }
{
    pairs.iter().map(|pair| pair.1).all(|to| flag_at(flags, to))
}

/// Tells whether each target of an instruction is a start.
fn lands(op: &Op, flags: &[bool]) -> bool
    ensures { result ≡ list_all (flag_at flags.now) (targets_of op.now) }
{
    match op {
        Op::IfZero { to, .. } | Op::IfInts { to, .. } => flag_at(flags, *to),
        Op::IfRefs { to, .. } | Op::IfNull { to, .. } => flag_at(flags, *to),
        Op::Goto(to) => flag_at(flags, *to),
        Op::TableSwitch { other, to, .. } => flag_at(flags, *other)
            && all_start(to.as_slice(), flags),
        Op::LookupSwitch { other, pairs } => flag_at(flags, *other)
            && all_pairs_start(pairs.as_slice(), flags),
        _ => true,
    }
}

#[tactic(auto, unfolding(crate::specs::Targets::leads_off))]
fn leads_off(placed: &Placed, flags: &[bool]) -> bool
    ensures { result ≡ leads_off (flag_at flags.now) placed.now }
{
    !lands(&placed.op, flags)
}

/// The first instruction with a target that isn't a start.
fn first_off<'a>(ops: &'a [Placed], flags: &[bool]) -> Option<&'a Placed>
    ensures { option_copied result ≡ find (leads_off (flag_at flags.now)) ops.now }
{
    ops.iter().find(|placed| leads_off(placed, flags))
}

/// Refuses the first instruction with a target that isn't a start.
pub(crate) fn check_targets(ops: &[Placed], flags: &[bool]) -> Result<(), CodeErr>
    ensures { Gives told itself result
        (refused (λ p. TargetOff p.at) (find (leads_off (flag_at flags.now)) ops.now)) }
{
    match first_off(ops, flags) {
        Some(placed) => Err(CodeErr::TargetOff(placed.at)),
        None => Ok(()),
    }
}

/// Tells whether an entry's addresses aren't starts or its range is empty.
#[tactic(auto, unfolding(crate::specs::Targets::is_bad_entry))]
fn is_bad_entry(entry: &TableItem, flags: &[bool], end: usize) -> bool
    ensures { result ≡ is_bad_entry (flag_at flags.now) end entry.now }
{
    let is_whole = flag_at(flags, u32::from(entry.start))
        && (flag_at(flags, u32::from(entry.end)) || entry.end as usize == end)
        && flag_at(flags, u32::from(entry.handler));
    !(is_whole && entry.start < entry.end)
}

/// The place of the first bad entry.
fn first_bad(table: &[TableItem], flags: &[bool], end: usize) -> Option<usize>
    ensures value { result ≡ position (is_bad_entry (flag_at flags.now) end) table.now }
    ensures within { IfSome result (λ place. place < length table.now) }
{
    table
        .iter()
        .position(|entry| is_bad_entry(entry, flags, end))
}

/// Refuses the first bad entry.
pub(crate) fn check_table(table: &[TableItem], flags: &[bool], end: usize) -> Result<(), CodeErr>
    requires { length table.now < 2 ^ 32 }
    ensures { Gives told itself result
        (refused BadTable (position (is_bad_entry (flag_at flags.now) end) table.now)) }
{
    match first_bad(table, flags, end) {
        Some(place) => Err(CodeErr::BadTable(place as u32)),
        None => Ok(()),
    }
}
