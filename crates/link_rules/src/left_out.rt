//! No descriptor that is declared or that code uses has a float or a double.

ghost use Rattle.std.specs.Prelude.{◌≡◌, false, map, IfOk};
ghost use Rattle.std.specs.List.{flat_map, list_any};
ghost use Rattle.class_names.specs.Texts.{text_in, member_in};
ghost use Rattle.class_names.specs.Classes.{code_of, codes_of};
ghost use Rattle.link_rules.specs.Answers.{IsAnswer};
ghost use Rattle.link_rules.specs.Marks.{AreTested};
ghost use Rattle.link_rules.specs.Descriptors.{is_left_out, leaves_out, is_left_out_text, leaves_out_text, is_left_out_class, AreLeftOut, left_out_class, left_out_item, left_out_member, left_out_op, left_out_placed, left_out_entry, left_out_field, left_out_declared, left_out_body, left_out_method, left_out_desc};

use crate::body::{ops, table};
use crate::error::{LinkErr, LinkWhy};
use crate::marks::{told_class, told_owner};
use crate::refuse::{refuse_class_if, refuse_member_if};
use class_format::{ClassFile, FieldItem, MethodItem};
use class_names::{class_text, desc, is_array, member, method_desc, text};
use code_table::{Code, Op, Placed};
use jvm_base::{Desc, Elem, List, MethodDesc, NoMemory, PoolItem, TableItem};
use std::alloc::Global;

/// Of each text of a pool, by index, whether it leaves a type out: read as the text of a class
/// item, as the descriptor of a field, and as that of a method.
#[derive(Drop)]
pub(crate) struct LeftOut {
    pub(crate) classes: List<bool>,
    pub(crate) fields: List<bool>,
    pub(crate) methods: List<bool>,
}

fn is_left_out(desc: &Desc) -> bool
    ensures { result ≡ is_left_out desc.now }
{
    matches!(desc.elem, Elem::Float | Elem::Double)
}

fn is_one_left_out(descs: &[Desc]) -> bool
    ensures { result ≡ list_any is_left_out descs.now }
{
    descs.iter().any(|desc| is_left_out(desc))
}

/// Whether a parameter or the result is left out.
fn leaves_out(desc: &MethodDesc) -> bool
    ensures { result ≡ leaves_out desc.now }
{
    if is_one_left_out(desc.args.as_slice()) {
        return true;
    }
    match &desc.ret {
        Some(ret) => is_left_out(ret),
        None => false,
    }
}

/// Whether the type that lies in a text is left out.
fn is_left_out_text(alloc: Global, text: &[u16]) -> Result<bool, NoMemory>
    ensures { IfOk result (λ b. b ≡ is_left_out_text text.now) }
{
    match desc(alloc, text)? {
        Some(desc) => Ok(is_left_out(&desc)),
        None => Ok(false),
    }
}

/// Whether the text is that of an array class of floats or doubles.
fn is_left_out_class(alloc: Global, text: &[u16]) -> Result<bool, NoMemory>
    ensures { IfOk result (λ b. b ≡ is_left_out_class text.now) }
{
    if is_array(text) {
        is_left_out_text(alloc, text)
    } else {
        Ok(false)
    }
}

/// An array class isn't one of floats or doubles.
fn check_class(alloc: Global, file: &ClassFile, text: &[u16]) -> Result<(), LinkErr>
    ensures { IsAnswer (left_out_class file.now text.now) result }
{
    let is_left_out = is_left_out_class(alloc, text)?;
    refuse_class_if(alloc, is_left_out, LinkWhy::LeftOutDesc, file, text)
}

/// Which texts of a pool are those of array classes of floats or doubles.
fn left_out_classes(alloc: Global, pool: &[PoolItem]) -> Result<List<bool>, NoMemory>
    ensures { IfOk result (λ told. AreTested is_left_out_class pool.now told) }
{
    let mut told = List::new(alloc);
    let count = pool.len().min(u16::MAX as usize) as u16;
    for index in 0..count {
        told.push(is_left_out_class(alloc, text(pool, index))?)?;
    }
    Ok(told)
}

/// Which texts of a pool are those of floats or doubles, or of arrays of them.
fn left_out_fields(alloc: Global, pool: &[PoolItem]) -> Result<List<bool>, NoMemory>
    ensures { IfOk result (λ told. AreTested is_left_out_text pool.now told) }
{
    let mut told = List::new(alloc);
    let count = pool.len().min(u16::MAX as usize) as u16;
    for index in 0..count {
        told.push(is_left_out_text(alloc, text(pool, index))?)?;
    }
    Ok(told)
}

/// Whether a parameter or the result is left out in the text at an index.
fn leaves_out_text(alloc: Global, pool: &[PoolItem], index: u16) -> Result<bool, NoMemory>
    ensures { IfOk result (λ b. b ≡ leaves_out_text (text_in pool.now index)) }
{
    match method_desc(alloc, pool, index)? {
        Some(desc) => Ok(leaves_out(&desc)),
        None => Ok(false),
    }
}

/// Which texts of a pool are those of methods with a float or a double.
fn left_out_methods(alloc: Global, pool: &[PoolItem]) -> Result<List<bool>, NoMemory>
    ensures { IfOk result (λ told. AreTested leaves_out_text pool.now told) }
{
    let mut told = List::new(alloc);
    let count = pool.len().min(u16::MAX as usize) as u16;
    for index in 0..count {
        told.push(leaves_out_text(alloc, pool, index)?)?;
    }
    Ok(told)
}

/// What is told of the texts of a pool.
fn left_out_texts(alloc: Global, pool: &[PoolItem]) -> Result<LeftOut, NoMemory>
    ensures { IfOk result (λ told. AreLeftOut pool.now told) }
{
    Ok(LeftOut {
        classes: left_out_classes(alloc, pool)?,
        fields: left_out_fields(alloc, pool)?,
        methods: left_out_methods(alloc, pool)?,
    })
}

/// The class of the class item at an index, which is read only where the table tells nothing of it
/// or that it is left out.
#[tactic(auto, using(crate::proofs::KnownLaws::class_let_in))]
fn check_item(alloc: Global, file: &ClassFile, told: &[bool], item: u16) -> Result<(), LinkErr>
    requires { AreTested is_left_out_class file.now.pool told.now }
    ensures { IsAnswer (left_out_item file.now item) result }
{
    let pool = file.pool.as_slice();
    match told_class(told, pool, item) {
        Some(false) => Ok(()),
        _ => check_class(alloc, file, class_text(pool, item)),
    }
}

/// The class of a member item, likewise.
#[tactic(auto, using(crate::proofs::KnownLaws::class_let_in))]
fn check_owner(alloc: Global, file: &ClassFile, told: &[bool], item: u16) -> Result<(), LinkErr>
    requires { AreTested is_left_out_class file.now.pool told.now }
    ensures { IsAnswer (left_out_class file.now (member_in file.now.pool item).class) result }
{
    let pool = file.pool.as_slice();
    match told_owner(told, pool, item) {
        Some(false) => Ok(()),
        _ => check_class(alloc, file, member(pool, item).class),
    }
}

/// A member that code uses: its class, then its own descriptor.
#[tactic(auto, using(crate::proofs::Firsts::answer_back))]
fn check_member(
    alloc: Global,
    file: &ClassFile,
    told: &[bool],
    item: u16,
    left_out: bool,
) -> Result<(), LinkErr>
    requires { AreTested is_left_out_class file.now.pool told.now }
    ensures { IsAnswer (left_out_member file.now (member_in file.now.pool item) left_out) result }
{
    check_owner(alloc, file, told, item)?;
    let member = member(file.pool.as_slice(), item);
    let why = LinkWhy::LeftOutDesc;
    refuse_member_if(alloc, left_out, why, file, member.name, member.desc)
}

fn check_op(alloc: Global, file: &ClassFile, told: &[bool], op: &Op) -> Result<(), LinkErr>
    requires { AreTested is_left_out_class file.now.pool told.now }
    ensures { IsAnswer (left_out_op file.now op.now) result }
{
    match op {
        Op::Static { item, desc, .. } | Op::Field { item, desc, .. } => {
            check_member(alloc, file, told, *item, is_left_out(desc.get()))
        }
        Op::Invoke { item, desc, .. } => {
            check_member(alloc, file, told, *item, leaves_out(desc.get()))
        }
        Op::New(item)
        | Op::AnewArray(item)
        | Op::Cast { item, .. }
        | Op::MultiNewArray { item, .. } => check_item(alloc, file, told, *item),
        _ => Ok(()),
    }
}

#[tactic(auto, using(crate::proofs::Firsts::places_break))]
fn check_ops(alloc: Global, file: &ClassFile, told: &[bool], ops: &[Placed]) -> Result<(), LinkErr>
    requires { AreTested is_left_out_class file.now.pool told.now }
    ensures { IsAnswer (flat_map (left_out_placed file.now) ops.now) result }
{
    for placed in ops {
        check_op(alloc, file, told, &placed.op)?;
    }
    Ok(())
}

#[tactic(auto, unfolding(crate::specs::Descriptors::left_out_entry))]
fn check_entry(
    alloc: Global,
    file: &ClassFile,
    told: &[bool],
    entry: &TableItem,
) -> Result<(), LinkErr>
    requires { AreTested is_left_out_class file.now.pool told.now }
    ensures { IsAnswer (left_out_entry file.now entry.now) result }
{
    if entry.class == 0 {
        Ok(())
    } else {
        check_item(alloc, file, told, entry.class)
    }
}

#[tactic(auto, using(crate::proofs::Firsts::items_break))]
fn check_table(
    alloc: Global,
    file: &ClassFile,
    told: &[bool],
    table: &[TableItem],
) -> Result<(), LinkErr>
    requires { AreTested is_left_out_class file.now.pool told.now }
    ensures { IsAnswer (flat_map (left_out_entry file.now) table.now) result }
{
    for entry in table {
        check_entry(alloc, file, told, entry)?;
    }
    Ok(())
}

/// Whether the field's descriptor at an index is left out, which is read only where the table tells
/// nothing of it.
fn is_left_out_at(
    alloc: Global,
    told: &[bool],
    pool: &[PoolItem],
    index: u16,
) -> Result<bool, NoMemory>
    requires { AreTested is_left_out_text pool.now told.now }
    ensures { IfOk result (λ b. b ≡ is_left_out_text (text_in pool.now index)) }
{
    match told.get(index as usize) {
        Some(is_left_out) => Ok(*is_left_out),
        None => is_left_out_text(alloc, text(pool, index)),
    }
}

/// Whether the method's descriptor at an index leaves a type out, likewise.
fn leaves_out_at(
    alloc: Global,
    told: &[bool],
    pool: &[PoolItem],
    index: u16,
) -> Result<bool, NoMemory>
    requires { AreTested leaves_out_text pool.now told.now }
    ensures { IfOk result (λ b. b ≡ leaves_out_text (text_in pool.now index)) }
{
    match told.get(index as usize) {
        Some(leaves_out) => Ok(*leaves_out),
        None => leaves_out_text(alloc, pool, index),
    }
}

#[tactic(auto, unfolding(crate::specs::Descriptors::left_out_field))]
fn check_field(
    alloc: Global,
    file: &ClassFile,
    told: &[bool],
    field: &FieldItem,
) -> Result<(), LinkErr>
    requires { AreTested is_left_out_text file.now.pool told.now }
    ensures { IsAnswer (left_out_field file.now field.now) result }
{
    let pool = file.pool.as_slice();
    let is_left_out = is_left_out_at(alloc, told, pool, field.desc)?;
    let (name, desc) = (text(pool, field.name), text(pool, field.desc));
    refuse_member_if(alloc, is_left_out, LinkWhy::LeftOutDesc, file, name, desc)
}

#[tactic(auto, using(crate::proofs::Firsts::items_break))]
fn check_fields(
    alloc: Global,
    file: &ClassFile,
    told: &[bool],
    fields: &[FieldItem],
) -> Result<(), LinkErr>
    requires { AreTested is_left_out_text file.now.pool told.now }
    ensures { IsAnswer (flat_map (left_out_field file.now) fields.now) result }
{
    for field in fields {
        check_field(alloc, file, told, field)?;
    }
    Ok(())
}

/// The descriptor that a method declares.
#[tactic(auto, unfolding(crate::specs::Descriptors::left_out_declared))]
fn check_declared(
    alloc: Global,
    file: &ClassFile,
    told: &[bool],
    method: &MethodItem,
) -> Result<(), LinkErr>
    requires { AreTested leaves_out_text file.now.pool told.now }
    ensures { IsAnswer (left_out_declared file.now method.now) result }
{
    let pool = file.pool.as_slice();
    let is_left_out = leaves_out_at(alloc, told, pool, method.desc)?;
    let (name, desc) = (text(pool, method.name), text(pool, method.desc));
    refuse_member_if(alloc, is_left_out, LinkWhy::LeftOutDesc, file, name, desc)
}

#[tactic(auto, using(crate::proofs::Firsts::answer_back))]
fn check_body(
    alloc: Global,
    file: &ClassFile,
    told: &[bool],
    method: &MethodItem,
    code: &Option<Code>,
) -> Result<(), LinkErr>
    requires told { AreTested is_left_out_class file.now.pool told.now }
    requires code { code.now ≡ code_of file.now.pool method.now }
    ensures { IsAnswer (left_out_body file.now method.now) result }
{
    check_ops(alloc, file, told, ops(code))?;
    check_table(alloc, file, told, table(method))
}

#[tactic(auto, using(crate::proofs::Firsts::answer_back), unfolding(crate::specs::Descriptors::left_out_method))]
fn check_method(
    alloc: Global,
    file: &ClassFile,
    told: &LeftOut,
    method: &MethodItem,
    code: &Option<Code>,
) -> Result<(), LinkErr>
    requires told { AreLeftOut file.now.pool told.now }
    requires code { code.now ≡ code_of file.now.pool method.now }
    ensures { IsAnswer (left_out_method file.now method.now) result }
{
    check_declared(alloc, file, told.methods.as_slice(), method)?;
    check_body(alloc, file, told.classes.as_slice(), method, code)
}

#[tactic(auto, using(crate::proofs::Firsts::places_break))]
fn check_methods(
    alloc: Global,
    file: &ClassFile,
    told: &LeftOut,
    codes: &[Option<Code>],
) -> Result<(), LinkErr>
    requires told { AreLeftOut file.now.pool told.now }
    requires codes { codes.now ≡ codes_of file.now }
    ensures { IsAnswer (flat_map (left_out_method file.now) file.now.methods) result }
{
    let methods = file.methods.as_slice();
    for i in 0..methods.len() {
        check_method(alloc, file, told, &methods[i], &codes[i])?;
    }
    Ok(())
}

#[tactic(auto, using(crate::proofs::Firsts::answer_back), unfolding(crate::specs::Descriptors::left_out_desc))]
fn check_parts(
    alloc: Global,
    file: &ClassFile,
    told: &LeftOut,
    codes: &[Option<Code>],
) -> Result<(), LinkErr>
    requires told { AreLeftOut file.now.pool told.now }
    requires codes { codes.now ≡ codes_of file.now }
    ensures { IsAnswer (left_out_desc file.now) result }
{
    check_fields(alloc, file, told.fields.as_slice(), file.fields.as_slice())?;
    check_methods(alloc, file, told, codes)
}

/// A file has no such descriptor. Of each text of its pool this is asked once.
fn check_file(alloc: Global, file: &ClassFile, codes: &[Option<Code>]) -> Result<(), LinkErr>
    requires { codes.now ≡ codes_of file.now }
    ensures { IsAnswer (left_out_desc file.now) result }
{
    let told = left_out_texts(alloc, file.pool.as_slice())?;
    check_parts(alloc, file, &told, codes)
}

/// No file has such a descriptor.
#[tactic(auto, using(crate::proofs::Firsts::places_break))]
pub fn check_descs(
    alloc: Global,
    files: &[ClassFile],
    codes: &[List<Option<Code>>],
) -> Result<(), LinkErr>
    requires { codes.now ≡ map codes_of files.now }
    ensures { IsAnswer (flat_map left_out_desc files.now) result }
{
    for i in 0..files.len() {
        check_file(alloc, &files[i], codes[i].as_slice())?;
    }
    Ok(())
}
