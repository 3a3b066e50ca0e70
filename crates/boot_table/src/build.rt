//! The class file of a row.

ghost use Rattle.std.specs.Prelude.{◌≡◌, ◌+◌, ◌*◌, ◌<◌, ◌≤◌, ◌++◌, ◌∷◌, [], length, map, IsTrue, IfOk, OnOk, codes, if◌then◌else◌};
ghost use Rattle.std.specs.List.{list_all};
ghost use Rattle.boot_table.specs.Table.{first_rows, coded, constructs, plain as plain_desc, takes_text, public, supers as super_bit, is_abstract as abstract_bit};
ghost use Rattle.boot_table.specs.Files.{with_fields, field_items, with_method, method_item, with_methods, method_items, head, file_of, boot_files};
ghost use Rattle.boot_table.specs.Seen.{seen, seen_field, seen_method, seen_op, seen_exception};
ghost use Rattle.boot_table.specs.Rows.Instruction.{Aload0, Aload1, Return};
ghost use Rattle.boot_table.specs.Sizes.{IsShort, is_short, is_small};

use crate::code::add_code;
use crate::exceptions::{BootException, exceptions};
use crate::op::{BootOp, Reference};
use crate::pool::{add_class, add_classes, add_key, add_super, add_text};
use crate::row::{BootClass, BootCode, BootField, BootMethod};
use crate::table::first_rows;
use class_format::{ABSTRACT, ClassFile, FieldItem, MethodItem, PUBLIC, SUPER};
use jvm_base::{List, NoMemory, Pool};
use std::alloc::Global;

/// The version of class files that boot classes have: 46.0.
const MAJOR: u16 = 46;

const PLAIN: &str = "()V";

const TAKES_TEXT: &str = "(Ljava/lang/String;)V";

fn add_fields(
    alloc: Global,
    pool: &mut Pool,
    fields: &[BootField],
) -> Result<List<FieldItem>, NoMemory>
    requires pool { length pool.old < 1000 }
    requires fields { length fields.now ≤ 16 }
    ensures added { OnOk result (pool.new ≡ with_fields pool.old (map seen_field fields.now)) }
    ensures items { IfOk result (λ items. items ≡ field_items pool.old (map seen_field fields.now)) }
    ensures few { OnOk result (length pool.new ≤ length pool.old + 32) }
{
    let mut items = List::new(alloc);
    for field in fields {
        let name = add_key(alloc, pool, field.name, field.desc)?;
        items.push(FieldItem {
            flags: field.flags,
            name,
            desc: name + 1,
            constant: None,
        })?;
    }
    Ok(items)
}

fn add_method(alloc: Global, pool: &mut Pool, method: &BootMethod) -> Result<MethodItem, NoMemory>
    requires pool { length pool.old < 9000 }
    requires short { IsShort (seen_method method.now).code }
    ensures added { OnOk result (pool.new ≡ with_method pool.old (seen_method method.now)) }
    ensures item { IfOk result (λ item. item ≡ method_item pool.old (seen_method method.now)) }
    ensures few { OnOk result (length pool.new ≤ length pool.old + 50) }
{
    let name = add_key(alloc, pool, method.name, method.desc)?;
    Ok(MethodItem {
        flags: method.flags,
        name,
        desc: name + 1,
        code: add_code(alloc, pool, &method.code)?,
    })
}

#[tactic(auto, using(crate::proofs::Sizes::short_at))]
fn add_methods(
    alloc: Global,
    pool: &mut Pool,
    methods: &[BootMethod],
) -> Result<List<MethodItem>, NoMemory>
    requires pool { length pool.old < 2000 }
    requires few { length methods.now ≤ 16 }
    requires short { IsTrue (list_all (λ m. is_short m.code) (map seen_method methods.now)) }
    ensures added { OnOk result (pool.new ≡ with_methods pool.old (map seen_method methods.now)) }
    ensures items { IfOk result (λ items. items ≡ method_items pool.old (map seen_method methods.now)) }
{
    let mut items = List::new(alloc);
    for method in methods {
        items.push(add_method(alloc, pool, method)?)?;
    }
    Ok(items)
}

/// The pool's first items: the class itself, and the name of the attribute of code.
fn new_pool(alloc: Global, name: &str) -> Result<Pool, NoMemory>
    ensures { IfOk result (λ pool. pool ≡ head name.now) }
{
    let mut pool = Pool::new(alloc)?;
    add_class(alloc, &mut pool, name)?;
    add_text(alloc, &mut pool, "Code")?;
    Ok(pool)
}

/// The class file of a row.
fn file(alloc: Global, row: &BootClass) -> Result<ClassFile, NoMemory>
    requires { IsTrue (is_small (seen row.now)) }
    ensures { IfOk result (λ file. file ≡ file_of (seen row.now)) }
{
    let mut pool = new_pool(alloc, row.name)?;
    let super_class = add_super(alloc, &mut pool, row.super_class)?;
    let interfaces = add_classes(alloc, &mut pool, row.interfaces)?;
    let fields = add_fields(alloc, &mut pool, row.fields)?;
    let methods = add_methods(alloc, &mut pool, row.methods)?;
    Ok(ClassFile {
        minor: 0,
        major: MAJOR,
        pool,
        flags: row.flags,
        this_class: 2,
        super_class,
        interfaces,
        fields,
        methods,
    })
}

/// A constructor that calls the superclass's.
fn constructor<'o>(desc: &'static str, slots: u16, ops: &'o [BootOp]) -> BootMethod<'o>
    ensures { seen_method result ≡ coded (codes "<init>") desc.now slots slots (map seen_op ops.now) }
{
    BootMethod {
        flags: PUBLIC,
        name: "<init>",
        desc,
        code: Some(BootCode {
            max_stack: slots,
            max_locals: slots,
            ops,
        }),
    }
}

/// A public class, abstract or not.
fn exception_flags(is_abstract: bool) -> u16
    ensures { result ≡ (if is_abstract then public + super_bit + abstract_bit else public + super_bit) }
{
    if is_abstract {
        PUBLIC | SUPER | ABSTRACT
    } else {
        PUBLIC | SUPER
    }
}

/// The call of the superclass's constructor.
fn constructs(above: &'static str, desc: &'static str) -> BootOp
    ensures { seen_op result ≡ constructs above.now desc.now }
{
    BootOp::Invokespecial(Reference {
        class: above,
        name: "<init>",
        desc,
    })
}

/// The class file of an exception whose constructors have this code.
fn exception_of_ops(
    alloc: Global,
    exception: &BootException,
    plain: &[BootOp],
    with_text: &[BootOp],
) -> Result<ClassFile, NoMemory>
    requires plain { map seen_op plain.now
        ≡ Aload0 ∷ constructs exception.now.above.now plain_desc ∷ Return ∷ [] }
    requires with_text { map seen_op with_text.now
        ≡ Aload0 ∷ Aload1 ∷ constructs exception.now.above.now takes_text ∷ Return ∷ [] }
    ensures { IfOk result (λ file. file ≡ file_of (seen_exception exception.now)) }
{
    let methods = [
        constructor(PLAIN, 1, plain),
        constructor(TAKES_TEXT, 2, with_text),
    ];
    let row = BootClass {
        name: exception.name,
        super_class: Some(exception.above),
        interfaces: &[],
        flags: exception_flags(exception.is_abstract),
        fields: &[],
        methods: &methods,
    };
    file(alloc, &row)
}

/// The class file of an exception: its constructors call the superclass's.
fn exception_file(alloc: Global, exception: &BootException) -> Result<ClassFile, NoMemory>
    ensures { IfOk result (λ file. file ≡ file_of (seen_exception exception.now)) }
{
    let above = exception.above;
    let plain = [BootOp::Aload0, constructs(above, PLAIN), BootOp::Return];
    let with_text = [
        BootOp::Aload0,
        BootOp::Aload1,
        constructs(above, TAKES_TEXT),
        BootOp::Return,
    ];
    exception_of_ops(alloc, exception, &plain, &with_text)
}

#[tactic(auto, using(crate::proofs::Sizes::small_at))]
fn first_files(alloc: Global) -> Result<List<ClassFile>, NoMemory>
    ensures { IfOk result (λ files. files ≡ map file_of first_rows) }
{
    let mut files = List::new(alloc);
    for row in first_rows() {
        files.push(file(alloc, row)?)?;
    }
    Ok(files)
}

fn add_exceptions(
    alloc: Global,
    files: &mut List<ClassFile>,
    exceptions: &[BootException],
) -> Result<(), NoMemory>
    ensures { OnOk result (files.new ≡ files.old ++ map file_of (map seen_exception exceptions.now)) }
{
    for exception in exceptions {
        files.push(exception_file(alloc, exception)?)?;
    }
    Ok(())
}

/// The boot classes, each at its number, as class files. The native method at k, counted from 0
/// through all of them, is intrinsic k.
pub fn boot_classes(alloc: Global) -> Result<List<ClassFile>, NoMemory>
    ensures { IfOk result (λ files. files ≡ boot_files) }
{
    let mut files = first_files(alloc)?;
    add_exceptions(alloc, &mut files, exceptions())?;
    Ok(files)
}
