//! Instructions on fields and methods.

ghost use Rattle.std.specs.Prelude.{◌≡◌, ◌≤◌, length};
ghost use Rattle.std.specs.Option.{option_copied};
ghost use Rattle.code_table.specs.declared.error.CodeErr.TheVariants.{BadIndex};
ghost use Rattle.code_table.specs.declared.op.Op.TheVariants.{Invoke};
ghost use Rattle.code_table.specs.Pooled.{field, method, interface_method};
ghost use Rattle.code_table.specs.Steps.Kinds.{member_of};
ghost use Rattle.jvm_base.specs.Refusing.{want};
ghost use Rattle.jvm_base.specs.Told.{Gives, itself};
ghost use Rattle.code_table.specs.Told.{told};

use crate::bytes::{u1, u2};
use crate::descs::Descs;
use crate::error::CodeErr;
use crate::items::{field_desc, interface_method_desc, method_desc};
use crate::kind::Member;
use crate::op::Op;
use shared_value::Shared;

/// One more owner of a descriptor, as far as there is one.
fn share<T: Drop>(desc: Option<&Shared<T>>, at: u32) -> Result<Shared<T>, CodeErr>
    ensures { Gives told itself result (want (option_copied desc.entry) (BadIndex at)) }
{
    match desc {
        Some(desc) => Ok(desc.share()?),
        None => Err(CodeErr::BadIndex(at)),
    }
}

/// A field instruction, with the descriptor of its item.
#[tactic(auto, unfolding(crate::specs::Pooled::field))]
pub(crate) fn on_field(
    kind: Member,
    op: u8,
    descs: &Descs<'_>,
    item: u16,
    at: u32,
) -> Result<Op, CodeErr>
    ensures { Gives told itself result (field (member_of kind op) descs.now item at) }
{
    let desc = share(field_desc(descs, item), at)?;
    Ok(match kind {
        Member::Static => Op::Static { op, item, desc },
        Member::Field => Op::Field { op, item, desc },
    })
}

/// A call of a class's method, with the descriptor of its item.
#[tactic(auto, unfolding(crate::specs::Pooled::method))]
pub(crate) fn on_method(op: u8, descs: &Descs<'_>, item: u16, at: u32) -> Result<Op, CodeErr>
    ensures { Gives told itself result (method (Invoke op) descs.now item at) }
{
    let desc = share(method_desc(descs, item), at)?;
    Ok(Op::Invoke { op, item, desc })
}

/// A call of an interface's method: its count is that of the argument slots, its last byte 0.
#[tactic(auto, unfolding(crate::specs::Pooled::interface_method))]
pub(crate) fn on_interface(
    op: u8,
    operands: &[u8],
    descs: &Descs<'_>,
    at: u32,
) -> Result<Op, CodeErr>
    requires { 4 ≤ length operands.now }
    ensures { Gives told itself result (interface_method (Invoke op) operands.now descs.now at) }
{
    let item = u2(operands, 0);
    let Some(desc) = interface_method_desc(descs, item) else {
        return Err(CodeErr::BadIndex(at));
    };
    let slots = 1 + desc.get().args_slots();
    if u32::from(u1(operands, 2)) != slots || u1(operands, 3) != 0 {
        return Err(CodeErr::BadIndex(at));
    }
    let desc = desc.share()?;
    Ok(Op::Invoke { op, item, desc })
}
