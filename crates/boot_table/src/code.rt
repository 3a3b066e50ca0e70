//! Code of the boot classes as bytes, with what it names in the pool (JVMS2 6).

ghost use Rattle.std.specs.Prelude.{◌≡◌, ◌+◌, ◌*◌, ◌<◌, ◌≤◌, ◌∷◌, ◌++◌, length, map, option_map, IfOk, OnOk};
ghost use Rattle.boot_table.specs.Files.{with_member, with_op, op_bytes, with_ops, ops_bytes, with_code, code_item};
ghost use Rattle.boot_table.specs.Seen.{seen_reference, seen_op, seen_code};
ghost use Rattle.boot_table.specs.Sizes.{IsShort};
ghost use Rattle.class_format.specs.Spelling.{number2};
ghost use Rattle.jvm_base.specs.declared.pool.PoolItem.TheVariants.{Field as FieldOf, Method as MethodOf, InterfaceMethod};

use crate::op::{BootOp, Reference};
use crate::pool::{add_reference, next_index};
use crate::row::BootCode;
use code_table::opcode::{
    ALOAD_0, ALOAD_1, ARETURN, GETFIELD, IFNULL, INVOKEINTERFACE, INVOKESPECIAL, PUTFIELD, RETURN,
};
use jvm_base::{CodeItem, List, NoMemory, Pool, PoolItem};
use std::alloc::Global;

fn add_field(alloc: Global, pool: &mut Pool, field: &Reference) -> Result<(), NoMemory>
    requires { length pool.old < 60000 }
    ensures { OnOk result (pool.new ≡ with_member FieldOf pool.old (seen_reference field.now)) }
{
    let at = add_reference(alloc, pool, field)?;
    pool.push(PoolItem::Field {
        class: at + 1,
        pair: at + 4,
    })
}

fn add_method(alloc: Global, pool: &mut Pool, method: &Reference) -> Result<(), NoMemory>
    requires { length pool.old < 60000 }
    ensures { OnOk result (pool.new ≡ with_member MethodOf pool.old (seen_reference method.now)) }
{
    let at = add_reference(alloc, pool, method)?;
    pool.push(PoolItem::Method {
        class: at + 1,
        pair: at + 4,
    })
}

fn add_interface_method(alloc: Global, pool: &mut Pool, method: &Reference) -> Result<(), NoMemory>
    requires { length pool.old < 60000 }
    ensures { OnOk result (pool.new ≡ with_member InterfaceMethod pool.old (seen_reference method.now)) }
{
    let at = add_reference(alloc, pool, method)?;
    pool.push(PoolItem::InterfaceMethod {
        class: at + 1,
        pair: at + 4,
    })
}

/// Adds what an instruction names.
fn add_op(alloc: Global, pool: &mut Pool, op: &BootOp) -> Result<(), NoMemory>
    requires { length pool.old < 60000 }
    ensures added { OnOk result (pool.new ≡ with_op pool.old (seen_op op.now)) }
{
    match op {
        BootOp::Getfield(field) | BootOp::Putfield(field) => add_field(alloc, pool, field),
        BootOp::Invokespecial(method) => add_method(alloc, pool, method),
        BootOp::Invokeinterface(method) => add_interface_method(alloc, pool, method),
        _ => Ok(()),
    }
}

fn push_u2(code: &mut List<u8>, number: u16) -> Result<(), NoMemory>
    ensures { OnOk result (code.new ≡ code.old ++ number2 number) }
{
    code.append(&number.to_be_bytes())
}

/// An instruction of an opcode and a number.
fn push_op(code: &mut List<u8>, op: u8, number: u16) -> Result<(), NoMemory>
    ensures { OnOk result (code.new ≡ code.old ++ op ∷ number2 number) }
{
    code.push(op)?;
    push_u2(code, number)
}

/// Adds the bytes of an instruction, what it names being added to the pool next.
fn push_bytes(code: &mut List<u8>, pool: &Pool, op: &BootOp) -> Result<(), NoMemory>
    requires { length pool.now < 60000 }
    ensures { OnOk result (code.new ≡ code.old ++ op_bytes pool.now (seen_op op.now)) }
{
    let item = next_index(pool) + 5;
    match op {
        BootOp::Aload0 => code.push(ALOAD_0),
        BootOp::Aload1 => code.push(ALOAD_1),
        BootOp::Areturn => code.push(ARETURN),
        BootOp::Return => code.push(RETURN),
        BootOp::Getfield(_) => push_op(code, GETFIELD, item),
        BootOp::Putfield(_) => push_op(code, PUTFIELD, item),
        BootOp::Invokespecial(_) => push_op(code, INVOKESPECIAL, item),
        BootOp::Invokeinterface(_) => {
            push_op(code, INVOKEINTERFACE, item)?;
            code.append(&[1, 0])
        }
        BootOp::Ifnull(to) => push_op(code, IFNULL, *to),
    }
}

/// The bytes of code, with what it names added to the pool.
fn add_ops(alloc: Global, pool: &mut Pool, ops: &[BootOp]) -> Result<List<u8>, NoMemory>
    requires pool { length pool.old < 10000 }
    requires ops { length ops.now ≤ 8 }
    ensures added { OnOk result (pool.new ≡ with_ops pool.old (map seen_op ops.now)) }
    ensures bytes { IfOk result (λ code. code ≡ ops_bytes pool.old (map seen_op ops.now)) }
    ensures few { OnOk result (length pool.new ≤ length pool.old + 48) }
{
    let mut code = List::new(alloc);
    for op in ops {
        push_bytes(&mut code, pool, op)?;
        add_op(alloc, pool, op)?;
    }
    Ok(code)
}

/// The code of a method, if it has some, with what it names added to the pool.
pub(crate) fn add_code(
    alloc: Global,
    pool: &mut Pool,
    code: &Option<BootCode>,
) -> Result<Option<CodeItem>, NoMemory>
    requires pool { length pool.old < 10000 }
    requires few { IsShort (option_map seen_code code.now) }
    ensures added { OnOk result (pool.new ≡ with_code pool.old (option_map seen_code code.now)) }
    ensures code { IfOk result (λ item. item ≡ code_item pool.old (option_map seen_code code.now)) }
    ensures few { OnOk result (length pool.new ≤ length pool.old + 48) }
{
    match code {
        None => Ok(None),
        Some(code) => Ok(Some(CodeItem {
            max_stack: code.max_stack,
            max_locals: code.max_locals,
            code: add_ops(alloc, pool, code.ops)?,
            table: List::new(alloc),
        })),
    }
}
