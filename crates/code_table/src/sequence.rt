//! The instructions of some code, one behind the other.

ghost use Rattle.std.specs.Prelude.{◌≡◌, ◌<◌, ◌^◌, length, IfOk, All};
ghost use Rattle.code_table.specs.Sequences.{instructions_of};
ghost use Rattle.jvm_base.specs.Told.{Gives, itself};
ghost use Rattle.code_table.specs.Told.{told};

use crate::code::Placed;
use crate::descs::Descs;
use crate::error::CodeErr;
use crate::instruction::instruction_at;
use jvm_base::List;
use std::alloc::Global;

/// All instructions of the code.
pub(crate) fn instructions_of(
    alloc: Global,
    code: &[u8],
    descs: &Descs<'_>,
) -> Result<List<Placed>, CodeErr>
    requires { length code.now < 2 ^ 31 }
    ensures exact { Gives told itself result (instructions_of code.now descs.now) }
    ensures within { IfOk result (λ ops. All (λ p. p.at < length code.now) ops) }
{
    let mut ops = List::new(alloc);
    let mut at = 0;
    while (at as usize) < code.len() {
        let placed = instruction_at(alloc, code, descs, at)?;
        at = placed.next;
        ops.push(placed)?;
    }
    Ok(ops)
}
