//! The whole file (JVMS2 4.1).

ghost use Rattle.std.specs.Prelude.{◌≡◌, ◌++◌, ◌<◌, ◌^◌, length, position, All, IfOk, IfSome, OnOk, false};
ghost use Rattle.constant_pool.specs.Items.{is_item_that, is_the_text};
ghost use Rattle.class_file.specs.Reading.Classes.{class_at};
ghost use Rattle.class_format.specs.Spelling.{number2, listed, item_bytes};
ghost use Rattle.class_format.specs.Meaning.{lowest_that, spelling, IsClass};
ghost use Rattle.class_write.specs.Writing.Parts.{field_bytes, method_bytes, class_bytes};
ghost use Rattle.class_write.specs.Writing.Written.{FitsWritten, FitsCode, IsWritable};

use crate::item::push_item;
use crate::member::{push_field, push_method};
use crate::number::{push_u2, push_u4};
use class_format::{CODE, CONSTANT_VALUE, ClassFile, FieldItem, MAGIC, MethodItem};
use constant_pool::is_text;
use jvm_base::{List, NoMemory, Pool, PoolItem};
use std::alloc::Global;

/// The lowest index of the text.
fn text_place(pool: &[PoolItem], text: &[u16]) -> Option<usize>
    ensures within { IfSome result (λ i. i < length pool.now) }
    ensures value { result ≡ position (is_item_that (is_the_text text.now)) pool.now }
{
    pool.iter().position(|item| is_text(item, text))
}

/// The lowest index of the text; where there is none, how many indices there are.
fn text_index(pool: &[PoolItem], text: &[u16]) -> u16
    requires { length pool.now < 2 ^ 16 }
    ensures { result ≡ lowest_that (is_the_text text.now) pool.now }
{
    match text_place(pool, text) {
        Some(place) => place as u16,
        None => pool.len() as u16,
    }
}

fn push_pool(alloc: Global, out: &mut Vec<u8>, pool: &[PoolItem]) -> Result<(), NoMemory>
    requires count { length pool.now < 2 ^ 16 }
    requires items { All FitsWritten pool.now }
    ensures { OnOk result (out.new.items ≡ out.old.items ++ listed item_bytes pool.now) }
{
    push_u2(out, pool.len() as u16)?;
    for item in pool {
        push_item(alloc, out, item)?;
    }
    Ok(())
}

fn push_interfaces(out: &mut Vec<u8>, interfaces: &[u16]) -> Result<(), NoMemory>
    requires { length interfaces.now < 2 ^ 16 }
    ensures { OnOk result (out.new.items ≡ out.old.items ++ listed number2 interfaces.now) }
{
    push_u2(out, interfaces.len() as u16)?;
    for class in interfaces {
        push_u2(out, *class)?;
    }
    Ok(())
}

fn push_fields(out: &mut Vec<u8>, name: u16, fields: &[FieldItem]) -> Result<(), NoMemory>
    requires { length fields.now < 2 ^ 16 }
    ensures { OnOk result (out.new.items ≡ out.old.items ++ listed (field_bytes name) fields.now) }
{
    push_u2(out, fields.len() as u16)?;
    for field in fields {
        push_field(out, name, field)?;
    }
    Ok(())
}

fn push_methods(out: &mut Vec<u8>, name: u16, methods: &[MethodItem]) -> Result<(), NoMemory>
    requires count { length methods.now < 2 ^ 16 }
    requires codes { All (λ m. FitsCode m.code) methods.now }
    ensures { OnOk result (out.new.items ≡ out.old.items
        ++ listed (method_bytes name) methods.now) }
{
    push_u2(out, methods.len() as u16)?;
    for method in methods {
        push_method(out, name, method)?;
    }
    Ok(())
}

fn write(
    alloc: Global,
    class: &ClassFile,
    constant_name: u16,
    code_name: u16,
) -> Result<List<u8>, NoMemory>
    requires { IsWritable class.now }
    ensures { IfOk result (λ bytes. bytes ≡ class_bytes constant_name code_name class.now) }
{
    let mut out = Vec::new(alloc);
    push_u4(&mut out, MAGIC)?;
    push_u2(&mut out, class.minor)?;
    push_u2(&mut out, class.major)?;
    push_pool(alloc, &mut out, class.pool.as_slice())?;
    push_u2(&mut out, class.flags)?;
    push_u2(&mut out, class.this_class)?;
    push_u2(&mut out, class.super_class)?;
    push_interfaces(&mut out, class.interfaces.as_slice())?;
    push_fields(&mut out, constant_name, class.fields.as_slice())?;
    push_methods(&mut out, code_name, class.methods.as_slice())?;
    push_u2(&mut out, 0)?;
    Ok(List::from_vec(out))
}

/// The bytes of a class file with its constants and code, and no other attribute. Reading them
/// gives the class file back.
pub fn write_class(alloc: Global, class: &ClassFile) -> Result<List<u8>, NoMemory>
    requires { IsClass class.now }
    ensures spelled { IfOk result (λ bytes. bytes ≡ spelling class.now) }
    ensures read_back { IfOk result (λ bytes. class_at bytes ≡ Ok class.now) }
{
    let pool = class.pool.as_slice();
    let constant_name = text_index(pool, &CONSTANT_VALUE);
    let code_name = text_index(pool, &CODE);
    write(alloc, class, constant_name, code_name)
}
