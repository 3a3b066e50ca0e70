//! The instruction at an address.

ghost use Rattle.std.specs.Prelude.{◌≡◌, ◌+◌, ◌≤◌, ◌<◌, ◌^◌, length, slice_range, IfOk, List, Ok as Fine};
ghost use Rattle.std.specs.Int.{w16};
ghost use Rattle.code_table.specs.Forms.{size};
ghost use Rattle.code_table.specs.Instructions.{sized_at, wide_of, widened, wide_at, by_form, instruction_at};
ghost use Rattle.code_table.specs.Steps.Kinds.{form_of};
ghost use Rattle.jvm_base.specs.Told.{Gives, itself};
ghost use Rattle.code_table.specs.Told.{told};
ghost use Rattle.code_table.specs.Sequences.{EndsWithin};

use crate::bytes::{i2, u1, u2};
use crate::code::Placed;
use crate::descs::Descs;
use crate::error::CodeErr;
use crate::kind::{Kind, kind_at, size};
use crate::meaning::{access, meaning};
use crate::op::Op;
use crate::switches::{lookup_switch_at, table_switch_at};
use std::alloc::Global;

/// The instruction at an address whose opcode tells its length.
#[tactic(auto, using(jvm_base::proofs::Telling::fails_on), unfolding(crate::specs::Instructions::sized_at))]
fn sized_at(kind: Kind, op: u8, code: &[u8], descs: &Descs<'_>, at: u32) -> Result<Placed, CodeErr>
    requires room { length code.now < 2 ^ 31 }
    requires here { at < length code.now }
    ensures exact { Gives told itself result (sized_at (form_of kind op) code.now descs.now at) }
    ensures within { IfOk result (λ p. EndsWithin at (length code.now) p) }
{
    let next = at + 1 + u32::from(size(kind, op));
    if code.len() < next as usize {
        return Err(CodeErr::CutOp(at));
    }
    let operands = &code[at as usize + 1..next as usize];
    let op = meaning(kind, op, operands, descs, at)?;
    Ok(Placed { at, next, op })
}

/// The instruction behind `wide`, by its kind and opcode, and the `wide` before it.
#[tactic(auto, using(crate::proofs::Rows::no_wide_form), unfolding(crate::specs::Instructions::wide_of))]
fn widened(kind: Kind, op: u8, code: &[u8], at: u32) -> Result<Placed, CodeErr>
    requires room { length code.now < 2 ^ 31 }
    requires here { at + 1 < length code.now }
    ensures exact { Gives told itself result (widened (form_of kind op) code.now at) }
    ensures within { IfOk result (λ p. EndsWithin at (length code.now) p) }
{
    let size = match kind {
        Kind::Local(_) => 2,
        Kind::LocalAndByte => 4,
        Kind::LeftOutLocal => return Err(CodeErr::LeftOutOp(at)),
        _ => return Err(CodeErr::UnknownOp(at)),
    };
    let next = at + 2 + size;
    if code.len() < next as usize {
        return Err(CodeErr::CutOp(at));
    }
    let operands = &code[at as usize + 2..next as usize];
    let local = u2(operands, 0);
    let op = match kind {
        Kind::Local(kind) => access(kind, op, local),
        _ => Op::Iinc {
            local,
            by: i2(operands, 2),
        },
    };
    Ok(Placed { at, next, op })
}

/// The `wide` at an address, with the instruction that it widens.
#[tactic(auto, unfolding(crate::specs::Instructions::wide_at))]
fn wide_at(code: &[u8], at: u32) -> Result<Placed, CodeErr>
    requires room { length code.now < 2 ^ 31 }
    requires here { at < length code.now }
    ensures exact { Gives told itself result (wide_at code.now at) }
    ensures within { IfOk result (λ p. EndsWithin at (length code.now) p) }
{
    let place = at as usize + 1;
    if code.len() <= place {
        return Err(CodeErr::CutOp(at));
    }
    let op = u1(code, place);
    widened(kind_at(op), op, code, at)
}

/// The instruction of this kind and opcode at an address.
#[tactic(auto, using(crate::proofs::Rows::sized))]
fn by_kind(
    alloc: Global,
    kind: Kind,
    op: u8,
    code: &[u8],
    descs: &Descs<'_>,
    at: u32,
) -> Result<Placed, CodeErr>
    requires room { length code.now < 2 ^ 31 }
    requires here { at < length code.now }
    ensures exact { Gives told itself result (by_form (form_of kind op) code.now descs.now at) }
    ensures within { IfOk result (λ p. EndsWithin at (length code.now) p) }
{
    match kind {
        Kind::Unknown => Err(CodeErr::UnknownOp(at)),
        Kind::LeftOut | Kind::LeftOutLocal => Err(CodeErr::LeftOutOp(at)),
        Kind::TableSwitch => table_switch_at(alloc, code, at),
        Kind::LookupSwitch => lookup_switch_at(alloc, code, at),
        Kind::Wide => wide_at(code, at),
        _ => sized_at(kind, op, code, descs, at),
    }
}

/// The instruction at an address below the code's length.
#[tactic(auto, unfolding(crate::specs::Instructions::instruction_at))]
pub(crate) fn instruction_at(
    alloc: Global,
    code: &[u8],
    descs: &Descs<'_>,
    at: u32,
) -> Result<Placed, CodeErr>
    requires room { length code.now < 2 ^ 31 }
    requires here { at < length code.now }
    ensures exact { Gives told itself result (instruction_at code.now descs.now at) }
    ensures within { IfOk result (λ p. EndsWithin at (length code.now) p) }
{
    let op = u1(code, at as usize);
    by_kind(alloc, kind_at(op), op, code, descs, at)
}
