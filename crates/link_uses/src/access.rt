//! What code uses is accessible.

ghost use Rattle.std.specs.Prelude.{◌≡◌, ◌+◌, ◌++◌, ◌<◌, ◌≤◌, ◌^◌, ◌&&◌, not, true, [], length, map, IfOk};
ghost use Rattle.std.specs.List.{flat_map};
ghost use Rattle.class_format.specs.Flags.{is_public};
ghost use Rattle.class_names.specs.Known.{is_name};
ghost use Rattle.class_names.specs.Classes.{this_name, code_of, codes_of};
ghost use Rattle.class_names.specs.Texts.{class_text, member_in};
ghost use Rattle.jvm_base.specs.Descriptors.{desc_of};
ghost use Rattle.jvm_base.specs.Words.{from};
ghost use Rattle.class_names.specs.Named.{desc_names};
ghost use Rattle.class_names.specs.Seen.{seen_member};
ghost use Rattle.link_rules.specs.Answers.{IsAnswer};
ghost use Rattle.link_rules.specs.Numbers.{numbered, flags_of};
ghost use Rattle.link_rules.specs.Packages.{package_of};
ghost use Rattle.link_members.specs.Near.{ArePackages, IsOwn};
ghost use Rattle.link_uses.specs.Items.{AreItems, HaveItems};
ghost use Rattle.link_rules.specs.Marks.{AreRight};
ghost use Rattle.link_uses.specs.Lookups.{found_field, found_method};
ghost use Rattle.link_uses.specs.Uses.{no_access_class, no_access_item, is_hidden, is_foreign_write, is_hidden_field, no_access_field, is_hidden_method, no_access_method, no_access_op, no_access_placed, no_access_entry, no_access_in, no_access};

use crate::flags::{field_flags, method_flags};
use crate::items::{field_at, method_at};
use crate::lookup::{Found, Resolver};
use class_format::{ClassFile, FINAL, MethodItem, PRIVATE, PROTECTED, PUBLIC, has_flag};
use class_names::{Called, class_text, desc, is_array, member, text};
use code_table::opcode::{PUTFIELD, PUTSTATIC};
use code_table::{Code, Op, Placed};
use jvm_base::{Desc, Elem, List, NoMemory, TableItem};
use link_members::{OwnPackage, Packages, is_near, own_package, package};
use link_rules::{
    LinkErr, LinkWhy, Program, ops, refuse_class_if, refuse_member_if, table, told_class,
    told_owner,
};
use std::alloc::Global;

/// Whether a class is neither public nor of a package.
fn is_hidden_class(program: &Program, own: &[u16], name: &[u16]) -> bool
    ensures { result ≡ (not (is_public (flags_of program.now name.now))
        && not (is_name own.now (package_of name.now))) }
{
    !has_flag(program.flags_of(name), PUBLIC) && own != package(name)
}

#[tactic(auto, unfolding(crate::specs::Uses::no_access_class))]
fn check_class(
    alloc: Global,
    program: &Program,
    file: &ClassFile,
    own: &[u16],
    name: &[u16],
) -> Result<(), LinkErr>
    requires own { own.now ≡ package_of (this_name file.now) }
    ensures { IsAnswer (no_access_class program.now file.now name.now) result }
{
    let is_hidden = is_hidden_class(program, own, name);
    refuse_class_if(alloc, is_hidden, LinkWhy::NoAccess, file, name)
}

/// The class in a descriptor.
fn check_desc(
    alloc: Global,
    program: &Program,
    file: &ClassFile,
    own: &[u16],
    desc: &Desc,
) -> Result<(), LinkErr>
    requires own { own.now ≡ package_of (this_name file.now) }
    ensures { IsAnswer (flat_map (no_access_class program.now file.now) (desc_names desc.now))
        result }
{
    match &desc.elem {
        Elem::Object(name) => check_class(alloc, program, file, own, name.as_slice()),
        _ => Ok(()),
    }
}

/// The class of an array class's elements.
fn check_array(
    alloc: Global,
    program: &Program,
    file: &ClassFile,
    own: &[u16],
    text: &[u16],
) -> Result<(), LinkErr>
    requires own { own.now ≡ package_of (this_name file.now) }
    ensures { IsAnswer
        (flat_map (no_access_class program.now file.now) (from [] desc_names (desc_of text.now)))
        result }
{
    match desc(alloc, text)? {
        Some(desc) => check_desc(alloc, program, file, own, &desc),
        None => Ok(()),
    }
}

/// The class of a class item, for an array that of its elements.
#[tactic(auto, unfolding(crate::specs::Uses::no_access_item))]
fn check_text(
    alloc: Global,
    program: &Program,
    file: &ClassFile,
    own: &[u16],
    text: &[u16],
) -> Result<(), LinkErr>
    requires own { own.now ≡ package_of (this_name file.now) }
    ensures { IsAnswer (no_access_item program.now file.now text.now) result }
{
    if is_array(text) {
        check_array(alloc, program, file, own, text)
    } else {
        check_class(alloc, program, file, own, text)
    }
}

/// Whether no class in a descriptor is refused.
#[tactic(auto, unfolding(crate::specs::Uses::no_access_class))]
fn is_allowed_desc(program: &Program, file: &ClassFile, own: &[u16], desc: &Desc) -> bool
    requires own { own.now ≡ package_of (this_name file.now) }
    ensures { result ≡ true → flat_map (no_access_class program.now file.now) (desc_names desc.now)
        ≡ [] }
{
    match &desc.elem {
        Elem::Object(name) => !is_hidden_class(program, own, name.as_slice()),
        _ => true,
    }
}

fn is_allowed_array(
    alloc: Global,
    program: &Program,
    file: &ClassFile,
    own: &[u16],
    text: &[u16],
) -> Result<bool, NoMemory>
    requires own { own.now ≡ package_of (this_name file.now) }
    ensures { IfOk result
        (λ b. b ≡ true → flat_map (no_access_class program.now file.now)
        (from [] desc_names (desc_of text.now)) ≡ []) }
{
    match desc(alloc, text)? {
        Some(desc) => Ok(is_allowed_desc(program, file, own, &desc)),
        None => Ok(true),
    }
}

/// Whether a class item of that text isn't refused.
#[tactic(auto, unfolding(crate::specs::Uses::no_access_item, crate::specs::Uses::no_access_class))]
fn is_allowed(
    alloc: Global,
    program: &Program,
    file: &ClassFile,
    own: &[u16],
    text: &[u16],
) -> Result<bool, NoMemory>
    requires own { own.now ≡ package_of (this_name file.now) }
    ensures { IfOk result (λ b. b ≡ true → no_access_item program.now file.now text.now ≡ []) }
{
    if is_array(text) {
        is_allowed_array(alloc, program, file, own, text)
    } else {
        Ok(!is_hidden_class(program, own, text))
    }
}

/// Which texts of the file's pool aren't refused as those of classes.
fn allowed_texts(
    alloc: Global,
    program: &Program,
    file: &ClassFile,
    own: &[u16],
) -> Result<List<bool>, NoMemory>
    requires own { own.now ≡ package_of (this_name file.now) }
    ensures { IfOk result
        (λ allowed. AreRight (no_access_item program.now file.now) file.now.pool allowed) }
{
    let pool = file.pool.as_slice();
    let mut allowed = List::new(alloc);
    let count = pool.len().min(u16::MAX as usize) as u16;
    for index in 0..count {
        allowed.push(is_allowed(alloc, program, file, own, text(pool, index))?)?;
    }
    Ok(allowed)
}

/// The class of the class item at an index.
fn check_item(
    alloc: Global,
    program: &Program,
    file: &ClassFile,
    own: &[u16],
    allowed: &[bool],
    index: u16,
) -> Result<(), LinkErr>
    requires allowed { AreRight (no_access_item program.now file.now) file.now.pool allowed.now }
    requires own { own.now ≡ package_of (this_name file.now) }
    ensures { IsAnswer (no_access_item program.now file.now (class_text file.now.pool index)) result }
{
    let pool = file.pool.as_slice();
    match told_class(allowed, pool, index) {
        Some(true) => Ok(()),
        _ => check_text(alloc, program, file, own, class_text(pool, index)),
    }
}

/// The class of a member item.
fn check_owner(
    alloc: Global,
    program: &Program,
    file: &ClassFile,
    own: &[u16],
    allowed: &[bool],
    item: u16,
) -> Result<(), LinkErr>
    requires allowed { AreRight (no_access_item program.now file.now) file.now.pool allowed.now }
    requires own { own.now ≡ package_of (this_name file.now) }
    ensures { IsAnswer (no_access_item program.now file.now (member_in file.now.pool item).class)
        result }
{
    let pool = file.pool.as_slice();
    match told_owner(allowed, pool, item) {
        Some(true) => Ok(()),
        _ => check_text(alloc, program, file, own, member(pool, item).class),
    }
}

/// Whether a member of these flags that the class `owner` declares isn't accessible from `file`.
#[tactic(auto, unfolding(crate::specs::Uses::is_hidden))]
fn is_hidden(
    resolver: &Resolver,
    number: u32,
    file: &ClassFile,
    near: &OwnPackage<'_>,
    flags: u16,
    owner: u32,
) -> bool
    requires inside { number < length resolver.now }
    requires near { IsOwn resolver.now file.now near.now }
    ensures { result ≡ is_hidden resolver.now number file.now flags owner }
{
    if has_flag(flags, PRIVATE) {
        owner != number
    } else if has_flag(flags, PUBLIC) {
        false
    } else {
        !is_near(resolver.program(), file, near, owner)
            && !(has_flag(flags, PROTECTED) && resolver.is_super(number, owner))
    }
}

/// Whether a final field of another class is written.
#[tactic(auto, unfolding(crate::specs::Uses::is_foreign_write))]
fn is_foreign_write(op: u8, number: u32, flags: u16, owner: u32) -> bool
    ensures { result ≡ is_foreign_write op number flags owner }
{
    (op == PUTSTATIC || op == PUTFIELD) && has_flag(flags, FINAL) && owner != number
}

fn is_hidden_field(
    resolver: &Resolver,
    number: u32,
    file: &ClassFile,
    near: &OwnPackage<'_>,
    op: u8,
    m: &Called,
    found: Option<Found>,
) -> bool
    requires inside { number < length resolver.now }
    requires found { found ≡ found_field resolver.now (seen_member m.now) }
    requires near { IsOwn resolver.now file.now near.now }
    ensures { result ≡ is_hidden_field resolver.now number file.now op (seen_member m.now) }
{
    match found {
        Some(found) => {
            let flags = field_flags(resolver.program(), &found);
            is_hidden(resolver, number, file, near, flags, found.class)
                || is_foreign_write(op, number, flags, found.class)
        }
        None => false,
    }
}

fn is_hidden_method(
    resolver: &Resolver,
    number: u32,
    file: &ClassFile,
    near: &OwnPackage<'_>,
    m: &Called,
    found: Option<Found>,
) -> bool
    requires inside { number < length resolver.now }
    requires found { found ≡ found_method resolver.now (seen_member m.now) }
    requires near { IsOwn resolver.now file.now near.now }
    ensures { result ≡ is_hidden_method resolver.now number file.now (seen_member m.now) }
{
    match found {
        Some(found) => {
            let flags = method_flags(resolver.program(), &found);
            is_hidden(resolver, number, file, near, flags, found.class)
        }
        None => false,
    }
}

#[tactic(auto, unfolding(crate::specs::Uses::no_access_field))]
fn check_field(
    alloc: Global,
    resolver: &Resolver,
    number: u32,
    file: &ClassFile,
    near: &OwnPackage<'_>,
    op: u8,
    m: &Called,
    found: Option<Found>,
) -> Result<(), LinkErr>
    requires inside { number < length resolver.now }
    requires found { found ≡ found_field resolver.now (seen_member m.now) }
    requires near { IsOwn resolver.now file.now near.now }
    ensures { IsAnswer (no_access_field resolver.now number file.now op (seen_member m.now)) result }
{
    let is_hidden = is_hidden_field(resolver, number, file, near, op, m, found);
    refuse_member_if(alloc, is_hidden, LinkWhy::NoAccess, file, m.name, m.desc)
}

#[tactic(auto, unfolding(crate::specs::Uses::no_access_method))]
fn check_call(
    alloc: Global,
    resolver: &Resolver,
    number: u32,
    file: &ClassFile,
    near: &OwnPackage<'_>,
    m: &Called,
    found: Option<Found>,
) -> Result<(), LinkErr>
    requires inside { number < length resolver.now }
    requires found { found ≡ found_method resolver.now (seen_member m.now) }
    requires near { IsOwn resolver.now file.now near.now }
    ensures { IsAnswer (no_access_method resolver.now number file.now (seen_member m.now)) result }
{
    let is_hidden = is_hidden_method(resolver, number, file, near, m, found);
    refuse_member_if(alloc, is_hidden, LinkWhy::NoAccess, file, m.name, m.desc)
}

/// The class of a field's item, then the field.
#[tactic(auto, using(link_rules::proofs::Firsts::answer_back))]
fn check_field_item(
    alloc: Global,
    resolver: &Resolver,
    number: u32,
    file: &ClassFile,
    near: &OwnPackage<'_>,
    items: &[Option<Found>],
    allowed: &[bool],
    op: u8,
    item: u16,
) -> Result<(), LinkErr>
    requires inside { number < length resolver.now }
    requires near { IsOwn resolver.now file.now near.now }
    requires items { AreItems resolver.now file.now.pool items.now }
    requires allowed { AreRight (no_access_item resolver.now file.now) file.now.pool allowed.now }
    ensures { IsAnswer (no_access_item resolver.now file.now (member_in file.now.pool item).class
        ++ no_access_field resolver.now number file.now op (member_in file.now.pool item)) result }
{
    let pool = file.pool.as_slice();
    check_owner(alloc, resolver.program(), file, near.name, allowed, item)?;
    let found = field_at(resolver, pool, items, item);
    check_field(
        alloc,
        resolver,
        number,
        file,
        near,
        op,
        &member(pool, item),
        found,
    )
}

/// The class of a method's item, then the method.
#[tactic(auto, using(link_rules::proofs::Firsts::answer_back))]
fn check_method_item(
    alloc: Global,
    resolver: &Resolver,
    number: u32,
    file: &ClassFile,
    near: &OwnPackage<'_>,
    items: &[Option<Found>],
    allowed: &[bool],
    item: u16,
) -> Result<(), LinkErr>
    requires inside { number < length resolver.now }
    requires near { IsOwn resolver.now file.now near.now }
    requires items { AreItems resolver.now file.now.pool items.now }
    requires allowed { AreRight (no_access_item resolver.now file.now) file.now.pool allowed.now }
    ensures { IsAnswer (no_access_item resolver.now file.now (member_in file.now.pool item).class
        ++ no_access_method resolver.now number file.now (member_in file.now.pool item)) result }
{
    let pool = file.pool.as_slice();
    check_owner(alloc, resolver.program(), file, near.name, allowed, item)?;
    let found = method_at(resolver, pool, items, item);
    check_call(
        alloc,
        resolver,
        number,
        file,
        near,
        &member(pool, item),
        found,
    )
}

/// The class that an instruction names, then the member.
fn check_op(
    alloc: Global,
    resolver: &Resolver,
    number: u32,
    file: &ClassFile,
    near: &OwnPackage<'_>,
    items: &[Option<Found>],
    allowed: &[bool],
    op: &Op,
) -> Result<(), LinkErr>
    requires inside { number < length resolver.now }
    requires items { AreItems resolver.now file.now.pool items.now }
    requires allowed { AreRight (no_access_item resolver.now file.now) file.now.pool allowed.now }
    requires near { IsOwn resolver.now file.now near.now }
    ensures { IsAnswer (no_access_op resolver.now number file.now op.now) result }
{
    match op {
        Op::Static { op, item, .. } | Op::Field { op, item, .. } => {
            check_field_item(
                alloc, resolver, number, file, near, items, allowed, *op, *item,
            )
        }
        Op::Invoke { item, .. } => {
            check_method_item(alloc, resolver, number, file, near, items, allowed, *item)
        }
        Op::New(item)
        | Op::AnewArray(item)
        | Op::Cast { item, .. }
        | Op::MultiNewArray { item, .. } => {
            let program = resolver.program();
            check_item(alloc, program, file, near.name, allowed, *item)
        }
        _ => Ok(()),
    }
}

#[tactic(auto, using(link_rules::proofs::Firsts::places_break))]
fn check_ops(
    alloc: Global,
    resolver: &Resolver,
    number: u32,
    file: &ClassFile,
    near: &OwnPackage<'_>,
    items: &[Option<Found>],
    allowed: &[bool],
    ops: &[Placed],
) -> Result<(), LinkErr>
    requires inside { number < length resolver.now }
    requires items { AreItems resolver.now file.now.pool items.now }
    requires allowed { AreRight (no_access_item resolver.now file.now) file.now.pool allowed.now }
    requires near { IsOwn resolver.now file.now near.now }
    ensures { IsAnswer (flat_map (no_access_placed resolver.now number file.now) ops.now) result }
{
    for placed in ops {
        check_op(
            alloc, resolver, number, file, near, items, allowed, &placed.op,
        )?;
    }
    Ok(())
}

#[tactic(auto, unfolding(crate::specs::Uses::no_access_entry))]
fn check_entry(
    alloc: Global,
    program: &Program,
    file: &ClassFile,
    own: &[u16],
    allowed: &[bool],
    entry: &TableItem,
) -> Result<(), LinkErr>
    requires allowed { AreRight (no_access_item program.now file.now) file.now.pool allowed.now }
    requires own { own.now ≡ package_of (this_name file.now) }
    ensures { IsAnswer (no_access_entry program.now file.now entry.now) result }
{
    if entry.class == 0 {
        Ok(())
    } else {
        check_item(alloc, program, file, own, allowed, entry.class)
    }
}

#[tactic(auto, using(link_rules::proofs::Firsts::items_break))]
fn check_table(
    alloc: Global,
    program: &Program,
    file: &ClassFile,
    own: &[u16],
    allowed: &[bool],
    table: &[TableItem],
) -> Result<(), LinkErr>
    requires allowed { AreRight (no_access_item program.now file.now) file.now.pool allowed.now }
    requires own { own.now ≡ package_of (this_name file.now) }
    ensures { IsAnswer (flat_map (no_access_entry program.now file.now) table.now) result }
{
    for entry in table {
        check_entry(alloc, program, file, own, allowed, entry)?;
    }
    Ok(())
}

#[tactic(auto, using(link_rules::proofs::Firsts::answer_back), unfolding(crate::specs::Uses::no_access_in))]
fn check_method(
    alloc: Global,
    resolver: &Resolver,
    number: u32,
    file: &ClassFile,
    near: &OwnPackage<'_>,
    items: &[Option<Found>],
    allowed: &[bool],
    method: &MethodItem,
    code: &Option<Code>,
) -> Result<(), LinkErr>
    requires code { code.now ≡ code_of file.now.pool method.now }
    requires inside { number < length resolver.now }
    requires items { AreItems resolver.now file.now.pool items.now }
    requires allowed { AreRight (no_access_item resolver.now file.now) file.now.pool allowed.now }
    requires near { IsOwn resolver.now file.now near.now }
    ensures { IsAnswer (no_access_in resolver.now number file.now method.now) result }
{
    check_ops(
        alloc,
        resolver,
        number,
        file,
        near,
        items,
        allowed,
        ops(code),
    )?;
    check_table(
        alloc,
        resolver.program(),
        file,
        near.name,
        allowed,
        table(method),
    )
}

#[tactic(auto, using(link_rules::proofs::Firsts::places_break), unfolding(crate::specs::Uses::no_access))]
fn check_file(
    alloc: Global,
    resolver: &Resolver,
    number: u32,
    packages: &Packages<'_>,
    file: &ClassFile,
    items: &[Option<Found>],
    codes: &[Option<Code>],
) -> Result<(), LinkErr>
    requires packages { ArePackages resolver.now packages.now }
    requires items { AreItems resolver.now file.now.pool items.now }
    requires codes { codes.now ≡ codes_of file.now }
    requires inside { number < length resolver.now }
    ensures { IsAnswer (no_access resolver.now number file.now) result }
{
    let near = own_package(resolver.program(), packages, file);
    let allowed = allowed_texts(alloc, resolver.program(), file, near.name)?;
    let allowed = allowed.as_slice();
    let methods = file.methods.as_slice();
    for i in 0..methods.len() {
        let (method, code) = (&methods[i], &codes[i]);
        check_method(
            alloc, resolver, number, file, &near, items, allowed, method, code,
        )?;
    }
    Ok(())
}

/// What the code of these classes, which are numbered from `first` on, uses is accessible.
#[tactic(auto, using(link_rules::proofs::Firsts::numbered_break, crate::proofs::ItemLaws::items_at))]
pub fn check_access(
    alloc: Global,
    resolver: &Resolver,
    first: u32,
    files: &[ClassFile],
    items: &[List<Option<Found>>],
    codes: &[List<Option<Code>>],
) -> Result<(), LinkErr>
    requires items { HaveItems resolver.now files.now items.now }
    requires codes { codes.now ≡ map codes_of files.now }
    requires files_in { first + length files.now ≤ length resolver.now }
    requires few { length resolver.now < 2 ^ 25 }
    ensures { IsAnswer (numbered (no_access resolver.now) first files.now) result }
{
    let packages = Packages::new(alloc, resolver.program())?;
    let mut number = first;
    for i in 0..files.len() {
        check_file(
            alloc,
            resolver,
            number,
            &packages,
            &files[i],
            items[i].as_slice(),
            codes[i].as_slice(),
        )?;
        number += 1;
    }
    Ok(())
}
