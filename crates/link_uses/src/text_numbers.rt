//! The numbers of each text of a file's pool, so that each text is read once.

ghost use Rattle.std.specs.Prelude.{◌≡◌, ◌<◌, ◌^◌, [], length, slice_get, IfOk};
ghost use Rattle.class_names.specs.Texts.{class_text, member_of_pair, text_in};
ghost use Rattle.link_rules.specs.Numbers.{holder_of};
ghost use Rattle.link_members.specs.Signs.{name_number, signed};
ghost use Rattle.link_uses.specs.Owned.{sign_of, member_names};
ghost use Rattle.link_uses.specs.TextNumbers.{AreOf, AreNumbers, pair_of};

use class_names::{Names, is_array, text};
use constant_pool::class_at;
use jvm_base::{List, NoMemory, PoolItem};
use link_rules::Program;
use std::alloc::Global;

/// The numbers of a name and of a descriptor.
pub(crate) type Sign = (usize, usize);

/// Of each text of a pool, by index, its number among the names and descriptors of all members, and
/// the number of the class whose members a class item of that text has.
#[derive(Drop)]
pub(crate) struct TextNumbers {
    pub(crate) names: List<Option<usize>>,
    pub(crate) holders: List<u32>,
}

/// Where a member is looked up: from which class on, and by which sign. A member of whose name or
/// descriptor no class declares a member has no sign.
#[derive(Clone, Copy)]
pub(crate) struct Sought {
    pub(crate) holder: u32,
    pub(crate) sign: Option<Sign>,
}

/// The number of the class whose members a class item of that text has.
pub(crate) fn holder(program: &Program, text: &[u16]) -> u32
    requires some { 0 < length program.now }
    requires few { length program.now < 2 ^ 25 }
    ensures value { result ≡ holder_of program.now text.now }
    ensures within { result < length program.now }
{
    if is_array(text) {
        return 0;
    }
    match program.number(text) {
        Some(number) => number as u32,
        None => 0,
    }
}

/// The numbers of both, where both have one.
pub(crate) fn signed(name: Option<usize>, desc: Option<usize>) -> Option<Sign>
    ensures { result ≡ signed name desc }
{
    match (name, desc) {
        (Some(name), Some(desc)) => Some((name, desc)),
        _ => None,
    }
}

/// The number of each text of a pool, by index.
pub(crate) fn name_numbers(
    alloc: Global,
    names: &Names,
    pool: &[PoolItem],
) -> Result<List<Option<usize>>, NoMemory>
    ensures { IfOk result (λ told. AreOf (name_number names.now) pool.now told) }
{
    let mut told = List::new(alloc);
    let count = pool.len().min(u16::MAX as usize) as u16;
    for index in 0..count {
        told.push(names.number(text(pool, index)))?;
    }
    Ok(told)
}

fn holders(alloc: Global, program: &Program, pool: &[PoolItem]) -> Result<List<u32>, NoMemory>
    requires some { 0 < length program.now }
    requires few { length program.now < 2 ^ 25 }
    ensures { IfOk result (λ told. AreOf (holder_of program.now) pool.now told) }
{
    let mut told = List::new(alloc);
    let count = pool.len().min(u16::MAX as usize) as u16;
    for index in 0..count {
        told.push(holder(program, text(pool, index)))?;
    }
    Ok(told)
}

/// The number of the text at an index.
pub(crate) fn number_at(
    names: &Names,
    told: &[Option<usize>],
    pool: &[PoolItem],
    index: u16,
) -> Option<usize>
    requires { AreOf (name_number names.now) pool.now told.now }
    ensures { result ≡ name_number names.now (text_in pool.now index) }
{
    match told.get(index as usize) {
        Some(number) => *number,
        None => names.number(text(pool, index)),
    }
}

/// The number of the class whose members a class item of the text at an index has.
fn text_holder(program: &Program, told: &[u32], pool: &[PoolItem], index: u16) -> u32
    requires some { 0 < length program.now }
    requires few { length program.now < 2 ^ 25 }
    requires told { AreOf (holder_of program.now) pool.now told.now }
    ensures { result ≡ holder_of program.now (text_in pool.now index) }
{
    match told.get(index as usize) {
        Some(number) => *number,
        None => holder(program, text(pool, index)),
    }
}

/// The number of the class whose members the class item at an index has.
fn item_holder(program: &Program, told: &[u32], pool: &[PoolItem], index: u16) -> u32
    requires some { 0 < length program.now }
    requires few { length program.now < 2 ^ 25 }
    requires told { AreOf (holder_of program.now) pool.now told.now }
    ensures { result ≡ holder_of program.now (class_text pool.now index) }
{
    match class_at(pool, index) {
        Some(name) => text_holder(program, told, pool, name),
        None => holder(program, &[]),
    }
}

impl TextNumbers {
    /// The numbers of the texts of a pool, where members' names and descriptors have these.
    pub(crate) fn new(
        alloc: Global,
        program: &Program,
        names: &Names,
        pool: &[PoolItem],
    ) -> Result<TextNumbers, NoMemory>
        requires some { 0 < length program.now }
        requires few { length program.now < 2 ^ 25 }
        requires names { names.now ≡ member_names program.now }
        ensures { IfOk result (λ numbers. AreNumbers program.now pool.now numbers) }
    {
        Ok(TextNumbers {
            names: name_numbers(alloc, names, pool)?,
            holders: holders(alloc, program, pool)?,
        })
    }
}

/// The indices of the texts of a name and descriptor.
fn pair_at(pool: &[PoolItem], index: u16) -> Option<(u16, u16)>
    ensures { result ≡ pair_of (slice_get pool.now index) }
{
    match pool.get(index as usize) {
        Some(PoolItem::NameAndKind { name, desc }) => Some((*name, *desc)),
        _ => None,
    }
}

/// Where a member is looked up that has a class and the texts at some indices.
fn text_sought(
    program: &Program,
    names: &Names,
    numbers: &TextNumbers,
    pool: &[PoolItem],
    class: u16,
    texts: (u16, u16),
) -> Sought
    requires some { 0 < length program.now }
    requires few { length program.now < 2 ^ 25 }
    requires names { names.now ≡ member_names program.now }
    requires numbers { AreNumbers program.now pool.now numbers.now }
    ensures holder { result.holder ≡ holder_of program.now (class_text pool.now class) }
    ensures sign { result.sign
        ≡ signed (name_number names.now (text_in pool.now texts.0)) (name_number names.now (text_in pool.now texts.1)) }
{
    let told = numbers.names.as_slice();
    let (name, desc) = texts;
    let (name, desc) = (
        number_at(names, told, pool, name),
        number_at(names, told, pool, desc),
    );
    Sought {
        holder: item_holder(program, numbers.holders.as_slice(), pool, class),
        sign: signed(name, desc),
    }
}

/// Where a member without texts is looked up.
fn empty_sought(program: &Program, names: &Names) -> Sought
    requires some { 0 < length program.now }
    requires few { length program.now < 2 ^ 25 }
    ensures holder { result.holder ≡ holder_of program.now [] }
    ensures sign { result.sign ≡ signed (name_number names.now []) (name_number names.now []) }
{
    let number = names.number(&[]);
    Sought {
        holder: holder(program, &[]),
        sign: signed(number, number),
    }
}

/// Where the member of a class and a pair is looked up.
pub(crate) fn pair_sought(
    program: &Program,
    names: &Names,
    numbers: &TextNumbers,
    pool: &[PoolItem],
    class: u16,
    pair: u16,
) -> Sought
    requires some { 0 < length program.now }
    requires few { length program.now < 2 ^ 25 }
    requires names { names.now ≡ member_names program.now }
    requires numbers { AreNumbers program.now pool.now numbers.now }
    ensures holder { result.holder
        ≡ holder_of program.now (member_of_pair pool.now class (slice_get pool.now pair)).class }
    ensures sign { result.sign
        ≡ sign_of names.now (member_of_pair pool.now class (slice_get pool.now pair)) }
{
    match pair_at(pool, pair) {
        Some(texts) => text_sought(program, names, numbers, pool, class, texts),
        None => empty_sought(program, names),
    }
}
