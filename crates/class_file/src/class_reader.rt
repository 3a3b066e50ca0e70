//! Class files, read from their bytes.

ghost use Rattle.std.specs.Prelude.{◌≡◌, ◌<◌, ◌^◌, Ok, Err, Some, length, slice_get, IfOk, IfErr};
ghost use Rattle.jvm_base.specs.Told.{Gives, itself};
ghost use Rattle.class_file.specs.Reasons.{told};
ghost use Rattle.class_file.specs.Reading.Words.{Reads, listed_at};
ghost use Rattle.class_format.specs.Meaning.{IsClass, Spells};
ghost use Rattle.class_format.specs.Versions.{is_other_version};
ghost use Rattle.class_file.specs.declared.error.ClassErr.{ClassErr as Refusal};
ghost use Rattle.class_file.specs.Refused.{IsRefused, IsDue};
ghost use Rattle.class_file.specs.Reading.Classes.{version_numbers_at, version_at, class_index_at, super_index_at, interface_at, names_at, members_at, class_body_at, class_at};

use crate::attribute::other_attributes;
use crate::error::ClassErr;
use crate::field::fields;
use crate::method::methods;
use crate::pool_reader::pool;
use crate::reader::Reader;
use class_format::{ClassFile, FieldItem, MAGIC, MethodItem, class_flags_clash, is_other_version};
use constant_pool::{TextFacts, Texts, bad_link, is_class_at};
use jvm_base::{List, Pool, PoolItem};
use std::alloc::Global;

/// Flags of a class, and the classes that it names: itself, its superclass and its interfaces.
#[derive(Drop)]
struct Names {
    flags: u16,
    this_class: u16,
    super_class: u16,
    interfaces: List<u16>,
}

/// What follows the pool, but for the attributes.
#[derive(Drop)]
struct Members {
    names: Names,
    fields: List<FieldItem>,
    methods: List<MethodItem>,
}

#[tactic(auto, unfolding(crate::specs::Reading::Classes::version_numbers_at))]
fn version_numbers(reader: &mut Reader) -> Result<(u16, u16), ClassErr>
    ensures { Reads reader.new result (version_numbers_at reader.old) }
{
    let minor = reader.u2()?;
    let major = reader.u2()?;
    Ok((minor, major))
}

#[tactic(auto, unfolding(crate::specs::Reading::Classes::version_at))]
fn version(reader: &mut Reader) -> Result<(u16, u16), ClassErr>
    ensures { Reads reader.new result (version_at reader.old) }
{
    if reader.u4()? != MAGIC {
        return Err(ClassErr::Magic);
    }
    let (minor, major) = version_numbers(reader)?;
    if is_other_version(major, minor) {
        return Err(ClassErr::Version(major, minor));
    }
    Ok((minor, major))
}

#[tactic(auto, unfolding(crate::specs::Reading::Classes::class_index_at))]
fn class_index(reader: &mut Reader, texts: &Texts) -> Result<u16, ClassErr>
    ensures { Reads reader.new result (class_index_at texts.now reader.old) }
{
    let at = reader.offset();
    let class = reader.u2()?;
    if !is_class_at(texts.items(), class) {
        return Err(ClassErr::ItemLink(at));
    }
    Ok(class)
}

#[tactic(auto, unfolding(crate::specs::Reading::Classes::super_index_at))]
fn super_index(reader: &mut Reader, texts: &Texts) -> Result<u16, ClassErr>
    ensures { Reads reader.new result (super_index_at texts.now reader.old) }
{
    let at = reader.offset();
    let class = reader.u2()?;
    if class != 0 && !is_class_at(texts.items(), class) {
        return Err(ClassErr::ItemLink(at));
    }
    Ok(class)
}

fn interfaces(alloc: Global, reader: &mut Reader, texts: &Texts) -> Result<List<u16>, ClassErr>
    ensures { Reads reader.new result (listed_at (interface_at texts.now) reader.old) }
{
    let count = reader.u2()?;
    let mut interfaces = List::new(alloc);
    for _ in 0..count {
        let interface = class_index(reader, texts)?;
        interfaces.push(interface)?;
    }
    Ok(interfaces)
}

#[tactic(auto, unfolding(crate::specs::Reading::Classes::names_at))]
fn class_names(alloc: Global, reader: &mut Reader, texts: &Texts) -> Result<Names, ClassErr>
    ensures { Reads reader.new result (names_at texts.now reader.old) }
{
    let flags_at = reader.offset();
    let flags = reader.u2()?;
    if class_flags_clash(flags) {
        return Err(ClassErr::Flags(flags_at));
    }
    let this_class = class_index(reader, texts)?;
    let super_class = super_index(reader, texts)?;
    let interfaces = interfaces(alloc, reader, texts)?;
    Ok(Names {
        flags,
        this_class,
        super_class,
        interfaces,
    })
}

/// Reads what follows the pool, if each item of it is linked.
#[tactic(auto, unfolding(crate::specs::Reading::Classes::members_at))]
fn class_members(alloc: Global, reader: &mut Reader, pool: &Pool) -> Result<Members, ClassErr>
    requires long { length pool.now < 2 ^ 16 }
    requires gap { slice_get pool.now 0 ≡ Some PoolItem.Gap }
    ensures { Reads reader.new result (members_at pool.now reader.old) }
{
    let facts = TextFacts::of(alloc, pool.as_slice())?;
    let texts = facts.texts();
    if let Some(index) = bad_link(&texts) {
        return Err(ClassErr::PoolLink(index as u16));
    }
    let names = class_names(alloc, reader, &texts)?;
    let fields = fields(alloc, reader, &texts)?;
    let methods = methods(alloc, reader, &texts)?;
    other_attributes(reader, &texts)?;
    Ok(Members {
        names,
        fields,
        methods,
    })
}

/// Reads a class file, whatever follows it.
#[tactic(auto, unfolding(crate::specs::Reading::Classes::class_body_at))]
fn class_body(alloc: Global, reader: &mut Reader) -> Result<ClassFile, ClassErr>
    ensures { Reads reader.new result (class_body_at reader.old) }
{
    let (minor, major) = version(reader)?;
    let count = reader.u2()?;
    let pool = pool(alloc, reader, count)?;
    let members = class_members(alloc, reader, &pool)?;
    let Members {
        names,
        fields,
        methods,
    } = members;
    Ok(ClassFile {
        minor,
        major,
        pool,
        flags: names.flags,
        this_class: names.this_class,
        super_class: names.super_class,
        interfaces: names.interfaces,
        fields,
        methods,
    })
}

#[tactic(auto, unfolding(crate::specs::Reading::Classes::class_at))]
fn whole_class(alloc: Global, bytes: &[u8]) -> Result<ClassFile, ClassErr>
    ensures { Gives told itself result (class_at bytes.now) }
{
    let mut reader = Reader::new(bytes);
    let class = class_body(alloc, &mut reader)?;
    if !reader.is_done() {
        return Err(ClassErr::Extra(reader.offset()));
    }
    Ok(class)
}

/// Reads the class file that the bytes are (JVMS2 4.1), of the versions 45 to 48, or answers the
/// first refusal from the front. All attributes are skipped but the code of methods and the
/// constants of static fields.
pub fn read_class(alloc: Global, bytes: &[u8]) -> Result<ClassFile, ClassErr>
    // What is read is spelled so, and has a spelling without what is skipped.
    ensures found { IfOk result (λ c. IsClass c × Spells c bytes.now) }
    // What is spelled so is read, unless memory runs out.
    ensures only { (c : ClassFile) → Spells c bytes.now → Gives told itself result (Ok c) }
    // What is refused is refused so, in the words of the spelling, unless memory runs out.
    ensures refused { IfErr result (IsDue bytes.now) }
    ensures due { (e : Refusal) → IsRefused bytes.now e → Gives told itself result (Err e) }
    // The same by the order in which a file is read.
    ensures exact { Gives told itself result (class_at bytes.now) }
{
    whole_class(alloc, bytes)
}
