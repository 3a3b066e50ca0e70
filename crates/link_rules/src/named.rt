//! Each class that a file names is there.

ghost use Rattle.std.specs.Prelude.{◌≡◌, ◌++◌, ◌<◌, [], map, length};
ghost use Rattle.std.specs.List.{All, flat_map};
ghost use Rattle.std.specs.Option.{option_to_list};
ghost use Rattle.jvm_base.specs.Descriptors.{desc_of, method_of};
ghost use Rattle.jvm_base.specs.Words.{from};
ghost use Rattle.class_names.specs.Classes.{this_name, super_text, interface_texts, code_of, codes_of, ops_of, table_of};
ghost use Rattle.class_names.specs.Texts.{text_in, member_in};
ghost use Rattle.class_names.specs.Named.{named_by, item_names, desc_names, op_names, entry_names, field_names, method_names, method_desc_names};
ghost use Rattle.link_rules.specs.Answers.{IsAnswer};
ghost use Rattle.link_rules.specs.Classes.{missing, no_class};
ghost use Rattle.link_rules.specs.Walks.Missing.{missing_text, missing_item, missing_desc, missing_method_desc, missing_op, missing_placed, missing_entry, missing_field, missing_method, missing_interface, missing_above, missing_members, missing_file, AreKnown};
ghost use Rattle.link_rules.specs.Walks.Spelled.{IsField, IsMethod, IsSpelled, IsSpelledPlaced};

use crate::body::{ops, table};
use crate::error::{LinkErr, LinkWhy};
use crate::known::{Known, known_texts};
use crate::marks::{told_class, told_desc, told_owner, told_text};
use crate::refuse::refuse_class_if;
use class_format::{ClassFile, FieldItem, MethodItem};
use class_names::{Names, class_text, desc, is_array, member, method_desc, super_text, text};
use code_table::{Code, Op, Placed};
use jvm_base::{Desc, Elem, List, MethodDesc, TableItem};
use std::alloc::Global;

fn check_name(alloc: Global, names: &Names, file: &ClassFile, name: &[u16]) -> Result<(), LinkErr>
    ensures { IsAnswer (missing names.now file.now name.now) result }
{
    refuse_class_if(alloc, !names.has(name), LinkWhy::NoClass, file, name)
}

/// The class in a text that is a field's descriptor.
fn check_desc_text(
    alloc: Global,
    names: &Names,
    file: &ClassFile,
    text: &[u16],
) -> Result<(), LinkErr>
    ensures { IsAnswer (from [] (missing_desc names.now file.now) (desc_of text.now)) result }
{
    match desc(alloc, text)? {
        Some(desc) => check_desc(alloc, names, file, &desc),
        None => Ok(()),
    }
}

/// The class that a class item's text names.
fn check_text(alloc: Global, names: &Names, file: &ClassFile, text: &[u16]) -> Result<(), LinkErr>
    ensures { IsAnswer (missing_text names.now file.now text.now) result }
{
    if is_array(text) {
        check_desc_text(alloc, names, file, text)
    } else {
        check_name(alloc, names, file, text)
    }
}

/// The class of the class item at an index, which is looked up only where the table doesn't tell
/// that it is there.
fn check_item(
    alloc: Global,
    names: &Names,
    file: &ClassFile,
    known: &Known,
    item: u16,
) -> Result<(), LinkErr>
    requires { AreKnown names.now file.now.pool known.now }
    ensures { IsAnswer (missing_item names.now file.now item) result }
{
    let pool = file.pool.as_slice();
    match told_class(known.classes.as_slice(), pool, item) {
        Some(true) => Ok(()),
        _ => check_text(alloc, names, file, class_text(pool, item)),
    }
}

/// The class of a member item, likewise.
fn check_owner(
    alloc: Global,
    names: &Names,
    file: &ClassFile,
    known: &Known,
    item: u16,
) -> Result<(), LinkErr>
    requires { AreKnown names.now file.now.pool known.now }
    ensures { IsAnswer (missing_text names.now file.now (member_in file.now.pool item).class) result }
{
    let pool = file.pool.as_slice();
    match told_owner(known.classes.as_slice(), pool, item) {
        Some(true) => Ok(()),
        _ => check_text(alloc, names, file, member(pool, item).class),
    }
}

fn check_desc(alloc: Global, names: &Names, file: &ClassFile, desc: &Desc) -> Result<(), LinkErr>
    ensures { IsAnswer (missing_desc names.now file.now desc.now) result }
{
    match &desc.elem {
        Elem::Object(name) => check_name(alloc, names, file, name.as_slice()),
        _ => Ok(()),
    }
}

#[tactic(auto, using(crate::proofs::Firsts::places_break))]
fn check_descs(
    alloc: Global,
    names: &Names,
    file: &ClassFile,
    descs: &[Desc],
) -> Result<(), LinkErr>
    ensures { IsAnswer (flat_map (missing_desc names.now file.now) descs.now) result }
{
    for desc in descs {
        check_desc(alloc, names, file, desc)?;
    }
    Ok(())
}

#[tactic(auto, using(crate::proofs::Firsts::answer_back))]
fn check_method_desc(
    alloc: Global,
    names: &Names,
    file: &ClassFile,
    desc: &MethodDesc,
) -> Result<(), LinkErr>
    ensures { IsAnswer (missing_method_desc names.now file.now desc.now) result }
{
    check_descs(alloc, names, file, desc.args.as_slice())?;
    match &desc.ret {
        Some(ret) => check_desc(alloc, names, file, ret),
        None => Ok(()),
    }
}

/// The descriptor of a field that an item names, likewise.
fn check_field_desc(
    alloc: Global,
    names: &Names,
    file: &ClassFile,
    known: &Known,
    item: u16,
    desc: &Desc,
) -> Result<(), LinkErr>
    requires known { AreKnown names.now file.now.pool known.now }
    requires spelled { IsField file.now.pool item desc.now }
    ensures { IsAnswer (missing_desc names.now file.now desc.now) result }
{
    let pool = file.pool.as_slice();
    match told_desc(known.fields.as_slice(), pool, item) {
        Some(true) => Ok(()),
        _ => check_desc(alloc, names, file, desc),
    }
}

/// The descriptor of a method that an item names, likewise.
fn check_call_desc(
    alloc: Global,
    names: &Names,
    file: &ClassFile,
    known: &Known,
    item: u16,
    desc: &MethodDesc,
) -> Result<(), LinkErr>
    requires known { AreKnown names.now file.now.pool known.now }
    requires spelled { IsMethod file.now.pool item desc.now }
    ensures { IsAnswer (missing_method_desc names.now file.now desc.now) result }
{
    let pool = file.pool.as_slice();
    match told_desc(known.methods.as_slice(), pool, item) {
        Some(true) => Ok(()),
        _ => check_method_desc(alloc, names, file, desc),
    }
}

/// The classes that an instruction names: the item's, then those in its descriptor.
#[tactic(auto, using(crate::proofs::Firsts::answer_back, crate::proofs::Firsts::first_front))]
fn check_op(
    alloc: Global,
    names: &Names,
    file: &ClassFile,
    known: &Known,
    op: &Op,
) -> Result<(), LinkErr>
    requires known { AreKnown names.now file.now.pool known.now }
    requires spelled { IsSpelled file.now.pool op.now }
    ensures { IsAnswer (missing_op names.now file.now op.now) result }
{
    match op {
        Op::Static { item, desc, .. } | Op::Field { item, desc, .. } => {
            check_owner(alloc, names, file, known, *item)?;
            check_field_desc(alloc, names, file, known, *item, desc.get())
        }
        Op::Invoke { item, desc, .. } => {
            check_owner(alloc, names, file, known, *item)?;
            check_call_desc(alloc, names, file, known, *item, desc.get())
        }
        Op::New(item)
        | Op::AnewArray(item)
        | Op::Cast { item, .. }
        | Op::MultiNewArray { item, .. } => check_item(alloc, names, file, known, *item),
        _ => Ok(()),
    }
}

#[tactic(auto, using(crate::proofs::Firsts::places_break))]
fn check_ops(
    alloc: Global,
    names: &Names,
    file: &ClassFile,
    known: &Known,
    ops: &[Placed],
) -> Result<(), LinkErr>
    requires known { AreKnown names.now file.now.pool known.now }
    requires spelled { All (IsSpelledPlaced file.now.pool) ops.now }
    ensures { IsAnswer (flat_map (missing_placed names.now file.now) ops.now) result }
{
    for placed in ops {
        check_op(alloc, names, file, known, &placed.op)?;
    }
    Ok(())
}

#[tactic(auto, unfolding(crate::specs::Walks::Missing::missing_entry))]
fn check_entry(
    alloc: Global,
    names: &Names,
    file: &ClassFile,
    known: &Known,
    entry: &TableItem,
) -> Result<(), LinkErr>
    requires { AreKnown names.now file.now.pool known.now }
    ensures { IsAnswer (missing_entry names.now file.now entry.now) result }
{
    if entry.class == 0 {
        Ok(())
    } else {
        check_item(alloc, names, file, known, entry.class)
    }
}

#[tactic(auto, using(crate::proofs::Firsts::items_break))]
fn check_table(
    alloc: Global,
    names: &Names,
    file: &ClassFile,
    known: &Known,
    table: &[TableItem],
) -> Result<(), LinkErr>
    requires { AreKnown names.now file.now.pool known.now }
    ensures { IsAnswer (flat_map (missing_entry names.now file.now) table.now) result }
{
    for entry in table {
        check_entry(alloc, names, file, known, entry)?;
    }
    Ok(())
}

/// The class in the descriptor of a field, which is parsed only where the table doesn't tell that
/// it is there.
#[tactic(auto, using(crate::proofs::KnownLaws::declared_field_told))]
fn check_field(
    alloc: Global,
    names: &Names,
    file: &ClassFile,
    known: &Known,
    field: &FieldItem,
) -> Result<(), LinkErr>
    requires { AreKnown names.now file.now.pool known.now }
    ensures { IsAnswer (missing_field names.now file.now field.now) result }
{
    match told_text(known.fields.as_slice(), field.desc) {
        Some(true) => Ok(()),
        _ => check_desc_text(alloc, names, file, text(file.pool.as_slice(), field.desc)),
    }
}

#[tactic(auto, using(crate::proofs::Firsts::places_break))]
fn check_fields(
    alloc: Global,
    names: &Names,
    file: &ClassFile,
    known: &Known,
    fields: &[FieldItem],
) -> Result<(), LinkErr>
    requires { AreKnown names.now file.now.pool known.now }
    ensures { IsAnswer (flat_map (missing_field names.now file.now) fields.now) result }
{
    for field in fields {
        check_field(alloc, names, file, known, field)?;
    }
    Ok(())
}

/// The classes that a method names: in its descriptor, its instructions and its exception table.
#[tactic(auto, using(crate::proofs::Firsts::answer_back, crate::proofs::SpelledOps::code_spelled))]
fn check_body(
    alloc: Global,
    names: &Names,
    file: &ClassFile,
    known: &Known,
    method: &MethodItem,
    code: &Option<Code>,
) -> Result<(), LinkErr>
    requires known { AreKnown names.now file.now.pool known.now }
    requires code { code.now ≡ code_of file.now.pool method.now }
    ensures { IsAnswer
        (flat_map (missing_placed names.now file.now) (ops_of file.now.pool method.now)
        ++ flat_map (missing_entry names.now file.now) (table_of method.now)) result }
{
    check_ops(alloc, names, file, known, ops(code))?;
    check_table(alloc, names, file, known, table(method))
}

/// The classes in the descriptor of a method.
fn check_method_text(
    alloc: Global,
    names: &Names,
    file: &ClassFile,
    index: u16,
) -> Result<(), LinkErr>
    ensures { IsAnswer
        (from [] (missing_method_desc names.now file.now)
        (method_of (text_in file.now.pool index))) result }
{
    match method_desc(alloc, file.pool.as_slice(), index)? {
        Some(desc) => check_method_desc(alloc, names, file, &desc),
        None => Ok(()),
    }
}

/// The classes in the descriptor that a method declares, likewise.
#[tactic(auto, using(crate::proofs::KnownLaws::declared_method_told))]
fn check_declared_desc(
    alloc: Global,
    names: &Names,
    file: &ClassFile,
    known: &Known,
    method: &MethodItem,
) -> Result<(), LinkErr>
    requires { AreKnown names.now file.now.pool known.now }
    ensures { IsAnswer
        (from [] (missing_method_desc names.now file.now)
        (method_of (text_in file.now.pool method.now.desc))) result }
{
    match told_text(known.methods.as_slice(), method.desc) {
        Some(true) => Ok(()),
        _ => check_method_text(alloc, names, file, method.desc),
    }
}

#[tactic(auto, using(crate::proofs::Firsts::answer_back))]
fn check_method(
    alloc: Global,
    names: &Names,
    file: &ClassFile,
    known: &Known,
    method: &MethodItem,
    code: &Option<Code>,
) -> Result<(), LinkErr>
    requires known { AreKnown names.now file.now.pool known.now }
    requires code { code.now ≡ code_of file.now.pool method.now }
    ensures { IsAnswer (missing_method names.now file.now method.now) result }
{
    check_declared_desc(alloc, names, file, known, method)?;
    check_body(alloc, names, file, known, method, code)
}

#[tactic(auto, using(crate::proofs::Firsts::places_break))]
fn check_methods(
    alloc: Global,
    names: &Names,
    file: &ClassFile,
    known: &Known,
    codes: &[Option<Code>],
) -> Result<(), LinkErr>
    requires known { AreKnown names.now file.now.pool known.now }
    requires codes { codes.now ≡ codes_of file.now }
    ensures { IsAnswer (flat_map (missing_method names.now file.now) file.now.methods) result }
{
    let methods = file.methods.as_slice();
    for i in 0..methods.len() {
        check_method(alloc, names, file, known, &methods[i], &codes[i])?;
    }
    Ok(())
}

fn check_super(alloc: Global, names: &Names, file: &ClassFile) -> Result<(), LinkErr>
    ensures { IsAnswer
        (flat_map (missing_text names.now file.now) (option_to_list (super_text file.now))) result }
{
    match super_text(file) {
        Some(text) => check_text(alloc, names, file, text),
        None => Ok(()),
    }
}

#[tactic(auto, unfolding(crate::specs::Walks::Missing::missing_interface))]
fn check_interface(
    alloc: Global,
    names: &Names,
    file: &ClassFile,
    known: &Known,
    interface: u16,
) -> Result<(), LinkErr>
    requires { AreKnown names.now file.now.pool known.now }
    ensures { IsAnswer (missing_interface names.now file.now interface) result }
{
    check_item(alloc, names, file, known, interface)
}

#[tactic(auto, using(crate::proofs::Firsts::items_break))]
fn check_interfaces(
    alloc: Global,
    names: &Names,
    file: &ClassFile,
    known: &Known,
    interfaces: &[u16],
) -> Result<(), LinkErr>
    requires { AreKnown names.now file.now.pool known.now }
    ensures { IsAnswer (flat_map (missing_interface names.now file.now) interfaces.now) result }
{
    for interface in interfaces {
        check_interface(alloc, names, file, known, *interface)?;
    }
    Ok(())
}

/// The superclass and the interfaces.
#[tactic(auto, using(crate::proofs::Firsts::answer_back))]
fn check_above(alloc: Global, names: &Names, file: &ClassFile, known: &Known) -> Result<(), LinkErr>
    requires { AreKnown names.now file.now.pool known.now }
    ensures { IsAnswer (missing_above names.now file.now) result }
{
    check_super(alloc, names, file)?;
    check_interfaces(alloc, names, file, known, file.interfaces.as_slice())
}

/// The fields and the methods.
#[tactic(auto, using(crate::proofs::Firsts::answer_back))]
fn check_members(
    alloc: Global,
    names: &Names,
    file: &ClassFile,
    known: &Known,
    codes: &[Option<Code>],
) -> Result<(), LinkErr>
    requires known { AreKnown names.now file.now.pool known.now }
    requires codes { codes.now ≡ codes_of file.now }
    ensures { IsAnswer (missing_members names.now file.now) result }
{
    check_fields(alloc, names, file, known, file.fields.as_slice())?;
    check_methods(alloc, names, file, known, codes)
}

#[tactic(auto, using(crate::proofs::Firsts::answer_back), unfolding(crate::specs::Walks::Missing::missing_file))]
fn check_parts(
    alloc: Global,
    names: &Names,
    file: &ClassFile,
    known: &Known,
    codes: &[Option<Code>],
) -> Result<(), LinkErr>
    requires known { AreKnown names.now file.now.pool known.now }
    requires codes { codes.now ≡ codes_of file.now }
    ensures { IsAnswer (missing_file names.now file.now) result }
{
    check_above(alloc, names, file, known)?;
    check_members(alloc, names, file, known, codes)
}

/// Each class that the file names is there. Of each text of its pool this is asked once.
fn check_file(
    alloc: Global,
    names: &Names,
    file: &ClassFile,
    codes: &[Option<Code>],
) -> Result<(), LinkErr>
    requires { codes.now ≡ codes_of file.now }
    ensures { IsAnswer (no_class names.now file.now) result }
{
    let known = known_texts(alloc, names, file.pool.as_slice())?;
    check_parts(alloc, names, file, &known, codes)
}

/// Each class that the files name is there.
#[tactic(auto, using(crate::proofs::Firsts::places_break))]
pub fn check_files(
    alloc: Global,
    names: &Names,
    files: &[ClassFile],
    codes: &[List<Option<Code>>],
) -> Result<(), LinkErr>
    requires { codes.now ≡ map codes_of files.now }
    ensures { IsAnswer (flat_map (no_class names.now) files.now) result }
{
    for i in 0..files.len() {
        check_file(alloc, names, &files[i], codes[i].as_slice())?;
    }
    Ok(())
}
