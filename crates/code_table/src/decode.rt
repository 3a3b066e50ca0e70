//! Decoding whole code.

ghost use Rattle.std.specs.Prelude.{◌≡◌, ◌<◌, ◌^◌, ℕ, pos, ◌+ℤ◌, length, IfOk, IfErr, AllPairs, List as Items};
ghost use Rattle.jvm_base.specs.Told.{Gives, itself};
ghost use Rattle.code_table.specs.Told.{told};
ghost use Rattle.code_table.specs.Accepted.{IsCode, IsDue, IsHere, IsRefused};
ghost use Rattle.code_table.specs.Decoded.{decoded};
ghost use Rattle.code_table.specs.Instructions.{instruction_at};
ghost use Rattle.code_table.specs.Numbers.{target};
ghost use Rattle.code_table.specs.Sequences.{Covers, EndsWithin};
ghost use Rattle.code_table.specs.declared.code.Code.{Code};
ghost use Rattle.code_table.specs.declared.code.Placed.{Placed};
ghost use Rattle.code_table.specs.declared.error.CodeErr.{CodeErr};

use crate::code::{Code, Placed};
use crate::descs::Descs;
use crate::error::CodeErr;
use crate::sequence::instructions_of;
use crate::target::{check_table, check_targets, starts};
use jvm_base::{CodeItem, List, NoMemory, Pool, TableItem};
use std::alloc::Global;

/// A copy of an exception table.
fn table_copy(alloc: Global, table: &[TableItem]) -> Result<List<TableItem>, NoMemory>
    ensures { IfOk result (λ copy. copy ≡ table.now) }
{
    Ok(List::from_vec(Vec::from_slice(alloc, table)?))
}

/// The computed answer.
#[tactic(auto, unfolding(crate::specs::Decoded::decoded))]
fn decoded(alloc: Global, item: &CodeItem, descs: &Descs<'_>) -> Result<Code, CodeErr>
    ensures { Gives told itself result (decoded item.now descs.now) }
{
    let code = item.code.as_slice();
    let table = item.table.as_slice();
    if code.len() >= 1 << 31 || table.len() >= 1 << 32 {
        return Err(CodeErr::NoMemory);
    }
    let ops = instructions_of(alloc, code, descs)?;
    let flags = starts(alloc, ops.as_slice(), code.len())?;
    check_targets(ops.as_slice(), flags.as_slice())?;
    check_table(table, flags.as_slice(), code.len())?;
    Ok(Code {
        max_stack: u32::from(item.max_stack),
        max_locals: u32::from(item.max_locals),
        ops,
        table: table_copy(alloc, table)?,
    })
}

/// Decodes the code of a method of the class that has this pool (JVMS2 4.8.1, 6). First each
/// instruction is judged by itself, from address 0 on, up to one that is refused; then the jumps,
/// then the exception table, each from its first one on. Code of 2^31 bytes or more, or with a table
/// of 2^32 entries or more, which no class file has, is answered by `NoMemory`. Empty code has no
/// instructions.
pub fn decode_code_with(alloc: Global, item: &CodeItem, descs: &Descs<'_>) -> Result<Code, CodeErr>
    ensures found { IfOk result (λ code. IsCode item.now descs.now code) }
    ensures only { (code : Code)
        → IsCode item.now descs.now code → Gives told itself result (Ok code) }
    ensures refused { IfErr result (λ e. IsDue item.now descs.now e) }
    ensures due { (e : CodeErr)
        → IsRefused item.now descs.now e → Gives told itself result (Err e) }
    ensures exact { Gives told itself result (decoded item.now descs.now) }
{
    decoded(alloc, item, descs)
}

/// Decodes the code of one method as `decode_code_with` does, and reads the descriptors of the whole
/// pool for it: where several methods are decoded, read them once and call that.
pub fn decode_code(alloc: Global, item: &CodeItem, pool: &Pool) -> Result<Code, CodeErr>
    ensures found { IfOk result (λ code. IsCode item.now pool.now code) }
    ensures only { (code : Code)
        → IsCode item.now pool.now code → Gives told itself result (Ok code) }
    ensures refused { IfErr result (λ e. IsDue item.now pool.now e) }
    ensures due { (e : CodeErr)
        → IsRefused item.now pool.now e → Gives told itself result (Err e) }
    ensures exact { Gives told itself result (decoded item.now pool.now) }
{
    decode_code_with(alloc, item, &Descs::of(alloc, pool)?)
}

/// At most one decoded code is that of an item, and then no refusal is due; at most one is due.
pub fn one_answer(item: &CodeItem, pool: &Pool)
    ensures code { (a b : Code)
        → IsCode item.now pool.now a → IsCode item.now pool.now b → a ≡ b }
    ensures either { (a : Code) (e : CodeErr)
        → IsCode item.now pool.now a → ¬ IsRefused item.now pool.now e }
    ensures refusal { (d e : CodeErr)
        → IsRefused item.now pool.now d → IsRefused item.now pool.now e → d ≡ e }
{}

/// The instructions that cover some code are the only ones, and their addresses rise.
pub fn one_cover(code: &[u8], pool: &Pool)
    ensures only { (a b : Items Placed)
        → Covers code.now pool.now a → Covers code.now pool.now b → a ≡ b }
    ensures rise { (a : Items Placed)
        → Covers code.now pool.now a → AllPairs (λ p q. p.at < q.at) a }
{}

/// An instruction ends behind its address and within the code, and its refusal names its address.
pub fn one_instruction(code: &[u8], pool: &Pool)
    ensures within { (at : ℕ) (p : Placed)
        → instruction_at code.now pool.now at ≡ Ok p → EndsWithin at (length code.now) p }
    ensures here { (at : ℕ) (e : CodeErr)
        → instruction_at code.now pool.now at ≡ Err e → IsHere at e }
{}

/// The target of an offset is the address and the offset added, as far as that is an address of
/// code that is decoded.
pub fn target_is_sum(at: u32, offset: i32)
    requires { at < 2 ^ 31 }
    ensures lands { target at offset < 2 ^ 31 → pos (target at offset) ≡ pos at +ℤ offset }
    ensures reaches { (to : ℕ)
        → to < 2 ^ 31 → pos to ≡ pos at +ℤ offset → target at offset ≡ to }
{}
