//! Switches.

ghost use Rattle.std.specs.Prelude.{◌≡◌, ◌+◌, ◌*◌, ◌≤◌, ◌<◌, ◌^◌, length, IfOk};
ghost use Rattle.jvm_base.specs.Told.{Gives, itself};
ghost use Rattle.code_table.specs.Told.{told};
ghost use Rattle.code_table.specs.Sequences.{EndsWithin};
ghost use Rattle.code_table.specs.Switches.{operands_from, targets_from, pairs_from, rise, table_switch_at, lookup_switch_at};

use crate::bytes::i4;
use crate::code::Placed;
use crate::error::CodeErr;
use crate::op::Op;
use jvm_base::{List, NoMemory};
use std::alloc::Global;

/// Where the operands of a switch begin.
fn operands_from(at: u32) -> usize
    ensures { result ≡ operands_from at }
{
    at as usize / 4 * 4 + 4
}

/// So many targets, of which the offsets lie from a place on.
#[tactic(auto, using(crate::proofs::SwitchLoops::targets_from_none, crate::proofs::SwitchLoops::targets_from_more))]
fn targets_from(
    alloc: Global,
    code: &[u8],
    at: u32,
    place: usize,
    count: usize,
) -> Result<List<u32>, NoMemory>
    requires room { length code.now < 2 ^ 31 }
    requires whole { place + 4 * count ≤ length code.now }
    ensures { IfOk result (λ to. to ≡ targets_from code.now at place count) }
{
    let mut to = List::new(alloc);
    for k in 0..count {
        to.push(at.wrapping_add_signed(i4(code, place + 4 * k)))?;
    }
    Ok(to)
}

/// So many keys, each with its target, which lie from a place on.
#[tactic(auto, using(crate::proofs::SwitchLoops::pairs_from_none, crate::proofs::SwitchLoops::pairs_from_more))]
fn pairs_from(
    alloc: Global,
    code: &[u8],
    at: u32,
    place: usize,
    count: usize,
) -> Result<List<(i32, u32)>, NoMemory>
    requires room { length code.now < 2 ^ 31 }
    requires whole { place + 8 * count ≤ length code.now }
    ensures { IfOk result (λ pairs. pairs ≡ pairs_from code.now at place count) }
{
    let mut pairs = List::new(alloc);
    for k in 0..count {
        let key = i4(code, place + 8 * k);
        let to = at.wrapping_add_signed(i4(code, place + 8 * k + 4));
        pairs.push((key, to))?;
    }
    Ok(pairs)
}

/// Tells whether each key is below the next.
fn rise(pairs: &[(i32, u32)]) -> bool
    ensures { result ≡ rise pairs.now }
{
    pairs
        .iter()
        .zip(pairs.iter().skip(1))
        .all(|(a, b)| a.0 < b.0)
}

/// The tableswitch at an address.
#[tactic(auto, unfolding(crate::specs::Switches::table_switch_at))]
pub(crate) fn table_switch_at(alloc: Global, code: &[u8], at: u32) -> Result<Placed, CodeErr>
    requires { length code.now < 2 ^ 31 }
    ensures exact { Gives told itself result (table_switch_at code.now at) }
    ensures within { IfOk result (λ p. EndsWithin at (length code.now) p) }
{
    let place = operands_from(at);
    if code.len() < place + 12 {
        return Err(CodeErr::CutOp(at));
    }
    let low = i4(code, place + 4);
    let high = i4(code, place + 8);
    if high < low {
        return Err(CodeErr::BadSwitch(at));
    }
    let count = high.abs_diff(low) as usize + 1;
    let next = place + 12 + 4 * count;
    if code.len() < next {
        return Err(CodeErr::BadSwitch(at));
    }
    let other = at.wrapping_add_signed(i4(code, place));
    let to = targets_from(alloc, code, at, place + 12, count)?;
    let op = Op::TableSwitch {
        other,
        low,
        high,
        to,
    };
    Ok(Placed {
        at,
        next: next as u32,
        op,
    })
}

/// The lookupswitch at an address.
#[tactic(auto, unfolding(crate::specs::Switches::lookup_switch_at))]
pub(crate) fn lookup_switch_at(alloc: Global, code: &[u8], at: u32) -> Result<Placed, CodeErr>
    requires { length code.now < 2 ^ 31 }
    ensures exact { Gives told itself result (lookup_switch_at code.now at) }
    ensures within { IfOk result (λ p. EndsWithin at (length code.now) p) }
{
    let place = operands_from(at);
    if code.len() < place + 8 {
        return Err(CodeErr::CutOp(at));
    }
    let count = i4(code, place + 4);
    if count < 0 {
        return Err(CodeErr::BadSwitch(at));
    }
    let count = count.unsigned_abs() as usize;
    let next = place + 8 + 8 * count;
    if code.len() < next {
        return Err(CodeErr::BadSwitch(at));
    }
    let other = at.wrapping_add_signed(i4(code, place));
    let pairs = pairs_from(alloc, code, at, place + 8, count)?;
    if !rise(pairs.as_slice()) {
        return Err(CodeErr::BadSwitch(at));
    }
    let op = Op::LookupSwitch { other, pairs };
    Ok(Placed {
        at,
        next: next as u32,
        op,
    })
}
