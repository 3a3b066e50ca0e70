//! The members that the classes of a program declare, by class, name and descriptor.

ghost use Rattle.std.specs.Prelude.{◌≡◌, ◌++◌, ◌<◌, ◌^◌, ◌&&◌, [], length, slice_get, true, false, IfOk, OnOk, Some, None, if◌then◌else◌};
ghost use Rattle.std.specs.List.{flat_map, position_from};
ghost use Rattle.std.specs.BTreeMap.{is_at};
ghost use Rattle.hierarchy.specs.Walks.{or_else};
ghost use Rattle.jvm_base.specs.Words.{from};
ghost use Rattle.class_format.specs.declared.member_kind.MemberKind.TheVariants as kinds;
ghost use Rattle.class_names.specs.Known.{is_known, add_name, add_names};
ghost use Rattle.class_names.specs.Seen.{seen_member};
ghost use Rattle.class_names.specs.Texts.{text_in};
ghost use Rattle.link_uses.specs.Kept.{AreAdded};
ghost use Rattle.link_members.specs.Signs.{name_number};
ghost use Rattle.link_uses.specs.Owned.{Key, key_cmp, place_at, signatures, signatures_at, signature_texts, member_texts, class_texts, member_names, has_key, sign_of, ArePlaces, IsOwned};
ghost use Rattle.link_uses.specs.TextNumbers.{AreOf};

use crate::text_numbers::{Sign, name_numbers, number_at, signed};
use class_format::{ClassFile, MemberKind};
use class_names::{Called, Names, text};
use jvm_base::{NoMemory, PoolItem};
use link_rules::Program;
use std::alloc::Global;
use std::collections::BTreeMap;

/// The places of members by their class and by the numbers of their name and descriptor.
pub(crate) type Places = BTreeMap<(u32, Sign), usize>;

/// The texts of the names and descriptors of all members, and the place of each member.
#[derive(Drop)]
pub(crate) struct Owned<'a> {
    pub names: Names<'a>,
    pub fields: Places,
    pub methods: Places,
}

/// Whether the text at an index was added.
fn is_added(added: &[bool], index: u16) -> bool
    ensures { result ≡ from false (λ b. b) (slice_get added.now index) }
{
    match added.get(index as usize) {
        Some(added) => *added,
        None => false,
    }
}

/// Notes that the text at an index was added.
#[tactic(auto, using(crate::proofs::AddedLaws::added_set))]
fn note_added(added: &mut [bool], names: &Names, pool: &[PoolItem], index: u16)
    requires added { AreAdded names.now pool.now added.old }
    requires known { is_known names.now (text_in pool.now index) ≡ true }
    ensures { AreAdded names.now pool.now added.new }
{
    if (index as usize) < added.len() {
        added[index as usize] = true;
    }
}

/// Adds a text, where it is new.
fn add_new<'a>(names: &mut Names<'a>, text: &'a [u16]) -> Result<(), NoMemory>
    ensures { OnOk result (names.new ≡ add_name names.old text.now) }
{
    names.add(text)?;
    Ok(())
}

/// Adds the text at an index, which is read only where it wasn't added yet.
#[tactic(auto, using(crate::proofs::AddedLaws::added_kept, crate::proofs::AddedLaws::added_there, crate::proofs::AddedLaws::known_added))]
fn add_text<'a>(
    names: &mut Names<'a>,
    added: &mut [bool],
    pool: &'a [PoolItem],
    index: u16,
) -> Result<(), NoMemory>
    requires { AreAdded names.old pool.now added.old }
    ensures names { OnOk result (names.new ≡ add_name names.old (text_in pool.now index)) }
    ensures added { OnOk result (AreAdded names.new pool.now added.new) }
{
    if is_added(added, index) {
        return Ok(());
    }
    add_new(names, text(pool, index))?;
    note_added(added, names, pool, index);
    Ok(())
}

/// Adds the texts of a member.
fn add_texts<'a>(
    names: &mut Names<'a>,
    added: &mut [bool],
    pool: &'a [PoolItem],
    name: u16,
    desc: u16,
) -> Result<(), NoMemory>
    requires { AreAdded names.old pool.now added.old }
    ensures names { OnOk result
        (names.new ≡ add_names names.old
        (signature_texts (text_in pool.now name, text_in pool.now desc))) }
    ensures added { OnOk result (AreAdded names.new pool.now added.new) }
{
    add_text(names, added, pool, name)?;
    add_text(names, added, pool, desc)
}

fn add_field_texts<'a>(
    names: &mut Names<'a>,
    added: &mut [bool],
    file: &'a ClassFile,
) -> Result<(), NoMemory>
    requires { AreAdded names.old file.now.pool added.old }
    ensures names { OnOk result
        (names.new ≡ add_names names.old (member_texts kinds.Field file.now)) }
    ensures added { OnOk result (AreAdded names.new file.now.pool added.new) }
{
    let (pool, fields) = (file.pool.as_slice(), file.fields.as_slice());
    for field in fields {
        add_texts(names, added, pool, field.name, field.desc)?;
    }
    Ok(())
}

fn add_method_texts<'a>(
    names: &mut Names<'a>,
    added: &mut [bool],
    file: &'a ClassFile,
) -> Result<(), NoMemory>
    requires { AreAdded names.old file.now.pool added.old }
    ensures names { OnOk result
        (names.new ≡ add_names names.old (member_texts kinds.Method file.now)) }
    ensures added { OnOk result (AreAdded names.new file.now.pool added.new) }
{
    let (pool, methods) = (file.pool.as_slice(), file.methods.as_slice());
    for method in methods {
        add_texts(names, added, pool, method.name, method.desc)?;
    }
    Ok(())
}

/// Adds the texts of the members of a class.
#[tactic(auto, using(crate::proofs::OwnedBuilt::add_append, crate::proofs::AddedLaws::none_added))]
fn add_class_texts<'a>(
    alloc: Global,
    names: &mut Names<'a>,
    file: &'a ClassFile,
) -> Result<(), NoMemory>
    ensures { OnOk result (names.new ≡ add_names names.old (class_texts file.now)) }
{
    let mut added = vec![in alloc; false; file.pool.len()]?;
    add_field_texts(names, &mut added, file)?;
    add_method_texts(names, &mut added, file)
}

fn add_file_texts<'a>(
    alloc: Global,
    names: &mut Names<'a>,
    files: &'a [ClassFile],
) -> Result<(), NoMemory>
    ensures { OnOk result (names.new ≡ add_names names.old (flat_map class_texts files.now)) }
{
    for file in files {
        add_class_texts(alloc, names, file)?;
    }
    Ok(())
}

/// The texts of the members of all classes.
#[tactic(auto, using(crate::proofs::OwnedBuilt::texts_both), unfolding(crate::specs::Owned::member_names))]
fn texts<'a>(alloc: Global, program: &'a Program<'_>) -> Result<Names<'a>, NoMemory>
    ensures { IfOk result (λ names. names ≡ member_names program.now) }
{
    let mut names = Names::new(alloc);
    let (boot, files) = program.parts();
    add_file_texts(alloc, &mut names, boot)?;
    add_file_texts(alloc, &mut names, files)?;
    Ok(names)
}

/// Adds the place of a key, where the key has none yet.
fn add_place(places: &mut Places, added: (u32, Sign), place: usize) -> Result<(), NoMemory>
    ensures { OnOk result
        ((key : Key) → place_at places.new.entries key
        ≡ or_else (place_at places.old.entries key)
        (if is_at (key_cmp added) key then Some place else None)) }
{
    if !places.contains_key(&added) {
        places.insert(added, place)?;
    }
    Ok(())
}

/// Adds a member of a class, where the class has none of its name and descriptor yet.
fn add_member(
    places: &mut Places,
    names: &Names,
    told: &[Option<usize>],
    pool: &[PoolItem],
    class: u32,
    place: usize,
    texts: (u16, u16),
) -> Result<(), NoMemory>
    requires { AreOf (name_number names.now) pool.now told.now }
    ensures { OnOk result
        ((key : Key) → place_at places.new.entries key
        ≡ or_else (place_at places.old.entries key)
        (if has_key names.now class key (text_in pool.now texts.0, text_in pool.now texts.1)
        then Some place else None)) }
{
    let (name, desc) = texts;
    let numbers = (
        number_at(names, told, pool, name),
        number_at(names, told, pool, desc),
    );
    match numbers {
        (Some(name), Some(desc)) => add_place(places, (class, (name, desc)), place),
        _ => Ok(()),
    }
}

fn add_fields(
    places: &mut Places,
    names: &Names,
    told: &[Option<usize>],
    class: u32,
    file: &ClassFile,
) -> Result<(), NoMemory>
    requires { AreOf (name_number names.now) file.now.pool told.now }
    ensures { OnOk result
        ((key : Key) → place_at places.new.entries key
        ≡ or_else (place_at places.old.entries key)
        (position_from (has_key names.now class key) 0 (signatures kinds.Field file.now))) }
{
    let pool = file.pool.as_slice();
    let fields = file.fields.as_slice();
    for i in 0..fields.len() {
        let texts = (fields[i].name, fields[i].desc);
        add_member(places, names, told, pool, class, i, texts)?;
    }
    Ok(())
}

fn add_methods(
    places: &mut Places,
    names: &Names,
    told: &[Option<usize>],
    class: u32,
    file: &ClassFile,
) -> Result<(), NoMemory>
    requires { AreOf (name_number names.now) file.now.pool told.now }
    ensures { OnOk result
        ((key : Key) → place_at places.new.entries key
        ≡ or_else (place_at places.old.entries key)
        (position_from (has_key names.now class key) 0 (signatures kinds.Method file.now))) }
{
    let pool = file.pool.as_slice();
    let methods = file.methods.as_slice();
    for i in 0..methods.len() {
        let texts = (methods[i].name, methods[i].desc);
        add_member(places, names, told, pool, class, i, texts)?;
    }
    Ok(())
}

/// Adds the members of a class of a kind.
fn add_file(
    alloc: Global,
    places: &mut Places,
    names: &Names,
    kind: MemberKind,
    class: u32,
    file: &ClassFile,
) -> Result<(), NoMemory>
    ensures { OnOk result
        ((key : Key) → place_at places.new.entries key
        ≡ or_else (place_at places.old.entries key)
        (position_from (has_key names.now class key) 0 (signatures kind file.now))) }
{
    let told = name_numbers(alloc, names, file.pool.as_slice())?;
    match kind {
        MemberKind::Field => add_fields(places, names, told.as_slice(), class, file),
        MemberKind::Method => add_methods(places, names, told.as_slice(), class, file),
    }
}

/// Adds the members of the class of a number.
fn add_class(
    alloc: Global,
    places: &mut Places,
    names: &Names,
    kind: MemberKind,
    program: &Program,
    class: u32,
) -> Result<(), NoMemory>
    ensures { OnOk result
        ((key : Key) → place_at places.new.entries key
        ≡ or_else (place_at places.old.entries key)
        (position_from (has_key names.now class key) 0 (signatures_at program.now kind class))) }
{
    match program.class(class as usize) {
        Some(file) => add_file(alloc, places, names, kind, class, file),
        None => Ok(()),
    }
}

/// The places of all classes' members of a kind.
fn places(
    alloc: Global,
    program: &Program,
    names: &Names,
    kind: MemberKind,
) -> Result<Places, NoMemory>
    requires { length program.now < 2 ^ 25 }
    ensures { IfOk result (λ places. ArePlaces program.now names.now kind places.entries) }
{
    let mut places = BTreeMap::new(alloc);
    let (boot, files) = program.parts();
    for class in 0..boot.len() + files.len() {
        add_class(alloc, &mut places, names, kind, program, class as u32)?;
    }
    Ok(places)
}

impl<'a> Owned<'a> {
    /// What the classes of a program declare.
    pub fn new(alloc: Global, program: &'a Program<'_>) -> Result<Owned<'a>, NoMemory>
        requires { length program.now < 2 ^ 25 }
        ensures { IfOk result (λ owned. IsOwned program.now owned) }
    {
        let names = texts(alloc, program)?;
        let fields = places(alloc, program, &names, MemberKind::Field)?;
        let methods = places(alloc, program, &names, MemberKind::Method)?;
        Ok(Owned {
            names,
            fields,
            methods,
        })
    }

    /// The numbers of a member's name and descriptor; `None` where no class declares such a name or
    /// such a descriptor.
    pub fn sign(&self, m: &Called) -> Option<Sign>
        ensures { result ≡ sign_of self.now.names (seen_member m.now) }
    {
        signed(self.names.number(m.name), self.names.number(m.desc))
    }
}
