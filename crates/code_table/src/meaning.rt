//! An instruction by its kind, its opcode and its operands.

ghost use Rattle.std.specs.Prelude.{◌≡◌, ◌-◌, ◌%◌, ◌≤◌, length};
ghost use Rattle.std.specs.Int.{w16, w32};
ghost use Rattle.code_table.specs.declared.op.Op.TheVariants.{AnewArray, MultiNewArray, NewArray};
ghost use Rattle.code_table.specs.Forms.{size, meaning};
ghost use Rattle.code_table.specs.Numbers.{signed_at, target};
ghost use Rattle.code_table.specs.Pooled.{constant, constant_2w, class, element_class, element_kind, dimensions};
ghost use Rattle.code_table.specs.Steps.Kinds.{form_of, simple_of, access_of, jump_of, use_of};
ghost use Rattle.jvm_base.specs.Told.{Gives, itself};
ghost use Rattle.code_table.specs.Told.{told};

use crate::bytes::{i1, i2, i4, u1, u2};
use crate::descs::Descs;
use crate::element_kind::{T_BOOLEAN, T_DOUBLE, T_FLOAT, T_LONG};
use crate::error::CodeErr;
use crate::items::class_dimensions;
use crate::kind::{Access, Jump, Kind, Simple, Use};
use crate::members::{on_field, on_interface, on_method};
use crate::op::Op;
use crate::opcode::{ICONST_0, ILOAD, ILOAD_0, ISTORE, ISTORE_0, LCONST_0};
use constant_pool::class_at;
use jvm_base::{Pool, PoolItem};

/// The local of a short form, of which the first opcode of its kind is given.
fn short_local(op: u8, first: u8) -> u16
    ensures { result ≡ (op - first) % 4 }
{
    u16::from(op.saturating_sub(first) % 4)
}

/// An instruction without operands.
fn simple(kind: Simple, op: u8) -> Op
    ensures { result ≡ simple_of kind op }
{
    match kind {
        Simple::Nop => Op::Nop,
        Simple::AconstNull => Op::AconstNull,
        Simple::Iconst => Op::Iconst(i32::from(op) - i32::from(ICONST_0)),
        Simple::Lconst => Op::Lconst(i64::from(op) - i64::from(LCONST_0)),
        Simple::LoadN => Op::Load {
            op: ILOAD + op.saturating_sub(ILOAD_0) / 4,
            local: short_local(op, ILOAD_0),
        },
        Simple::ArrayLoad => Op::ArrayLoad(op),
        Simple::StoreN => Op::Store {
            op: ISTORE + op.saturating_sub(ISTORE_0) / 4,
            local: short_local(op, ISTORE_0),
        },
        Simple::ArrayStore => Op::ArrayStore(op),
        Simple::Pop => Op::Pop(op),
        Simple::Dup => Op::Dup(op),
        Simple::Swap => Op::Swap,
        Simple::Arith => Op::Arith(op),
        Simple::Divide => Op::Divide(op),
        Simple::Negate => Op::Negate(op),
        Simple::Shift => Op::Shift(op),
        Simple::Bits => Op::Bits(op),
        Simple::Resize => Op::Resize(op),
        Simple::Lcmp => Op::Lcmp,
        Simple::Return => Op::Return(op),
        Simple::ArrayLength => Op::ArrayLength,
        Simple::Athrow => Op::Athrow,
        Simple::Monitor => Op::Monitor(op),
    }
}

/// A load or store of a local.
pub(crate) fn access(kind: Access, op: u8, local: u16) -> Op
    ensures { result ≡ access_of kind op local }
{
    match kind {
        Access::Load => Op::Load { op, local },
        Access::Store => Op::Store { op, local },
    }
}

/// A jump to an address.
fn jump(kind: Jump, op: u8, to: u32) -> Op
    ensures { result ≡ jump_of kind op to }
{
    match kind {
        Jump::IfZero => Op::IfZero { op, to },
        Jump::IfInts => Op::IfInts { op, to },
        Jump::IfRefs => Op::IfRefs { op, to },
        Jump::IfNull => Op::IfNull { op, to },
        Jump::Goto => Op::Goto(to),
    }
}

/// Where an offset of two bytes leads.
fn near(operands: &[u8], at: u32) -> u32
    requires { 2 ≤ length operands.now }
    ensures { result ≡ target at (signed_at w16 operands.now 0) }
{
    at.wrapping_add_signed(i32::from(i2(operands, 0)))
}

/// Where an offset of four bytes leads.
fn far(operands: &[u8], at: u32) -> u32
    requires { 4 ≤ length operands.now }
    ensures { result ≡ target at (signed_at w32 operands.now 0) }
{
    at.wrapping_add_signed(i4(operands, 0))
}

fn constant(pool: &Pool, item: u16, at: u32) -> Result<Op, CodeErr>
    ensures { Gives told itself result (constant pool.now item at) }
{
    match pool.get(item as usize) {
        Some(PoolItem::Integer(_) | PoolItem::Text(_)) => Ok(Op::Ldc(item)),
        Some(PoolItem::Float(_)) => Err(CodeErr::LeftOutOp(at)),
        _ => Err(CodeErr::BadIndex(at)),
    }
}

fn constant_2w(pool: &Pool, item: u16, at: u32) -> Result<Op, CodeErr>
    ensures { Gives told itself result (constant_2w pool.now item at) }
{
    match pool.get(item as usize) {
        Some(PoolItem::Long(_)) => Ok(Op::Ldc2(item)),
        Some(PoolItem::Double(_)) => Err(CodeErr::LeftOutOp(at)),
        _ => Err(CodeErr::BadIndex(at)),
    }
}

fn on_class(kind: Use, op: u8, pool: &Pool, item: u16, at: u32) -> Result<Op, CodeErr>
    ensures { Gives told itself result (class (use_of kind op) pool.now item at) }
{
    if class_at(pool.as_slice(), item).is_none() {
        return Err(CodeErr::BadIndex(at));
    }
    Ok(match kind {
        Use::New => Op::New(item),
        Use::Cast => Op::Cast { op, item },
    })
}

fn element_class(pool: &Pool, item: u16, at: u32) -> Result<Op, CodeErr>
    ensures { Gives told itself result (element_class AnewArray pool.now item at) }
{
    match class_dimensions(pool, item) {
        Some(0..=254) => Ok(Op::AnewArray(item)),
        _ => Err(CodeErr::BadIndex(at)),
    }
}

fn element_kind(kind: u8, at: u32) -> Result<Op, CodeErr>
    ensures { Gives told itself result (element_kind NewArray kind at) }
{
    match kind {
        T_FLOAT | T_DOUBLE => Err(CodeErr::LeftOutOp(at)),
        T_BOOLEAN..=T_LONG => Ok(Op::NewArray(kind)),
        _ => Err(CodeErr::BadIndex(at)),
    }
}

fn dimensions(pool: &Pool, item: u16, dims: u8, at: u32) -> Result<Op, CodeErr>
    ensures { Gives told itself result (dimensions MultiNewArray pool.now item dims at) }
{
    match class_dimensions(pool, item) {
        Some(most) if dims != 0 && dims as usize <= most => Ok(Op::MultiNewArray { item, dims }),
        _ => Err(CodeErr::BadIndex(at)),
    }
}

/// The instruction with these operands; a kind without a number of operands has none.
pub(crate) fn meaning(
    kind: Kind,
    op: u8,
    operands: &[u8],
    descs: &Descs<'_>,
    at: u32,
) -> Result<Op, CodeErr>
    requires { size (form_of kind op) ≤ length operands.now }
    ensures { Gives told itself result (meaning (form_of kind op) operands.now descs.now at) }
{
    let pool = descs.pool();
    match kind {
        Kind::Alone(kind) => Ok(simple(kind, op)),
        Kind::Byte => Ok(Op::Push(i32::from(i1(operands, 0)))),
        Kind::Short => Ok(Op::Push(i32::from(i2(operands, 0)))),
        Kind::Local(kind) => Ok(access(kind, op, u16::from(u1(operands, 0)))),
        Kind::LocalAndByte => Ok(Op::Iinc {
            local: u16::from(u1(operands, 0)),
            by: i16::from(i1(operands, 1)),
        }),
        Kind::Near(kind) => Ok(jump(kind, op, near(operands, at))),
        Kind::Far => Ok(Op::Goto(far(operands, at))),
        Kind::Constant => constant(pool, u16::from(u1(operands, 0)), at),
        Kind::ConstantW => constant(pool, u2(operands, 0), at),
        Kind::Constant2W => constant_2w(pool, u2(operands, 0), at),
        Kind::OnField(kind) => on_field(kind, op, descs, u2(operands, 0), at),
        Kind::OnMethod => on_method(op, descs, u2(operands, 0), at),
        Kind::OnInterface => on_interface(op, operands, descs, at),
        Kind::OnClass(kind) => on_class(kind, op, pool, u2(operands, 0), at),
        Kind::ElementClass => element_class(pool, u2(operands, 0), at),
        Kind::ElementKind => element_kind(u1(operands, 0), at),
        Kind::Dimensions => dimensions(pool, u2(operands, 0), u1(operands, 2), at),
        Kind::TableSwitch | Kind::LookupSwitch | Kind::Wide => Err(CodeErr::UnknownOp(at)),
        Kind::LeftOut | Kind::LeftOutLocal | Kind::Unknown => Err(CodeErr::UnknownOp(at)),
    }
}
