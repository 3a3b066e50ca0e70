//! Fields, methods and their attributes (JVMS2 4.5 to 4.7).

ghost use Rattle.std.specs.Prelude.{◌≡◌, ◌++◌, ◌∷◌, ◌<◌, ◌^◌, ◌*◌, ◌+◌, [], length, Some, None, OnOk};
ghost use Rattle.std.specs.List.{flat_map};
ghost use Rattle.class_format.specs.Spelling.{number2, number4, listed, table_bytes, attribute_bytes, code_bytes};
ghost use Rattle.class_write.specs.Writing.Parts.{constant_bytes, method_code_bytes, field_bytes, method_bytes};
ghost use Rattle.class_write.specs.Writing.Written.{FitsCode};

use crate::number::{push_u2, push_u4};
use class_format::{FieldItem, MethodItem};
use jvm_base::{CodeItem, NoMemory, TableItem};

fn push_table_item(out: &mut Vec<u8>, item: &TableItem) -> Result<(), NoMemory>
    ensures { OnOk result (out.new.items ≡ out.old.items ++ table_bytes item.now) }
{
    push_u2(out, item.start)?;
    push_u2(out, item.end)?;
    push_u2(out, item.handler)?;
    push_u2(out, item.class)
}

fn push_table(out: &mut Vec<u8>, table: &[TableItem]) -> Result<(), NoMemory>
    requires { length table.now < 2 ^ 16 }
    ensures { OnOk result (out.new.items ≡ out.old.items ++ listed table_bytes table.now) }
{
    push_u2(out, table.len() as u16)?;
    for item in table {
        push_table_item(out, item)?;
    }
    Ok(())
}

fn push_code_contents(out: &mut Vec<u8>, code: &CodeItem) -> Result<(), NoMemory>
    requires { FitsCode (Some code.now) }
    ensures { OnOk result (out.new.items ≡ out.old.items ++ code_bytes code.now []) }
{
    push_u2(out, code.max_stack)?;
    push_u2(out, code.max_locals)?;
    push_u4(out, code.code.len() as u32)?;
    out.extend_from_slice(code.code.as_slice())?;
    push_table(out, code.table.as_slice())?;
    push_u2(out, 0)
}

/// How many bytes the contents of a Code attribute take.
fn code_len(code: &CodeItem) -> u32
    requires { FitsCode (Some code.now) }
    ensures { result ≡ length (code_bytes code.now []) }
{
    12 + code.code.len() as u32 + 8 * code.table.len() as u32
}

fn push_code_attribute(out: &mut Vec<u8>, name: u16, code: &CodeItem) -> Result<(), NoMemory>
    requires { FitsCode (Some code.now) }
    ensures { OnOk result (out.new.items ≡ out.old.items
        ++ attribute_bytes (record { name = name; contents = code_bytes code.now [] })) }
{
    push_u2(out, name)?;
    push_u4(out, code_len(code))?;
    push_code_contents(out, code)
}

/// The attributes of a method: its code, if it has one. `name` is the index of their name.
fn push_code(out: &mut Vec<u8>, name: u16, code: &Option<CodeItem>) -> Result<(), NoMemory>
    requires { FitsCode code.now }
    ensures { OnOk result (out.new.items ≡ out.old.items ++ method_code_bytes name code.now) }
{
    match code {
        None => push_u2(out, 0),
        Some(code) => {
            push_u2(out, 1)?;
            push_code_attribute(out, name, code)
        }
    }
}

/// The attributes of a field: its constant, if it has one. `name` is the index of their name.
fn push_constant(out: &mut Vec<u8>, name: u16, constant: Option<u16>) -> Result<(), NoMemory>
    ensures { OnOk result (out.new.items ≡ out.old.items ++ constant_bytes name constant) }
{
    match constant {
        None => push_u2(out, 0),
        Some(value) => {
            push_u2(out, 1)?;
            push_u2(out, name)?;
            push_u4(out, 2)?;
            push_u2(out, value)
        }
    }
}

/// A field with its constant (JVMS2 4.5); `ConstantValue` stands at that index.
pub(crate) fn push_field(out: &mut Vec<u8>, name: u16, field: &FieldItem) -> Result<(), NoMemory>
    ensures { OnOk result (out.new.items ≡ out.old.items ++ field_bytes name field.now) }
{
    push_u2(out, field.flags)?;
    push_u2(out, field.name)?;
    push_u2(out, field.desc)?;
    push_constant(out, name, field.constant)
}

/// A method with its code (JVMS2 4.6); `Code` stands at that index.
pub(crate) fn push_method(out: &mut Vec<u8>, name: u16, method: &MethodItem) -> Result<(), NoMemory>
    requires { FitsCode method.now.code }
    ensures { OnOk result (out.new.items ≡ out.old.items ++ method_bytes name method.now) }
{
    push_u2(out, method.flags)?;
    push_u2(out, method.name)?;
    push_u2(out, method.desc)?;
    push_code(out, name, &method.code)
}
