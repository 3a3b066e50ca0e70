//! Instructions.

use jvm_base::{Desc, List, MethodDesc};
use shared_value::Shared;

/// An instruction. A `u8` is its opcode, where a short form and one behind `wide` have that of the
/// plain form; `NewArray` holds the number of its element kind instead (JVMS2 6, newarray), and
/// `dims` counts dimensions. A `u16` is an index of the pool or, as `local`, of a local variable.
/// `to` and `other` are addresses, where `other` is the default's. A member's descriptor stands
/// beside its index, so that no pool is needed to know the operands; all instructions of a class
/// that name one descriptor share it.
#[derive(Drop)]
pub enum Op {
    Nop,
    AconstNull,
    Iconst(i32),
    Lconst(i64),
    Push(i32),
    Ldc(u16),
    Ldc2(u16),
    Load {
        op: u8,
        local: u16,
    },
    ArrayLoad(u8),
    Store {
        op: u8,
        local: u16,
    },
    ArrayStore(u8),
    Pop(u8),
    Dup(u8),
    Swap,
    Arith(u8),
    Divide(u8),
    Negate(u8),
    Shift(u8),
    Bits(u8),
    Iinc {
        local: u16,
        by: i16,
    },
    Resize(u8),
    Lcmp,
    IfZero {
        op: u8,
        to: u32,
    },
    IfInts {
        op: u8,
        to: u32,
    },
    IfRefs {
        op: u8,
        to: u32,
    },
    IfNull {
        op: u8,
        to: u32,
    },
    Goto(u32),
    TableSwitch {
        other: u32,
        low: i32,
        high: i32,
        to: List<u32>,
    },
    LookupSwitch {
        other: u32,
        pairs: List<(i32, u32)>,
    },
    Return(u8),
    Static {
        op: u8,
        item: u16,
        desc: Shared<Desc>,
    },
    Field {
        op: u8,
        item: u16,
        desc: Shared<Desc>,
    },
    Invoke {
        op: u8,
        item: u16,
        desc: Shared<MethodDesc>,
    },
    New(u16),
    NewArray(u8),
    AnewArray(u16),
    ArrayLength,
    Athrow,
    Cast {
        op: u8,
        item: u16,
    },
    Monitor(u8),
    MultiNewArray {
        item: u16,
        dims: u8,
    },
}
