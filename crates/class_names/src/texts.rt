//! The texts that items of a pool name.

ghost use Rattle.std.specs.Prelude.{◌≡◌, slice_get, IfOk};
ghost use Rattle.jvm_base.specs.Descriptors.{desc_of, method_of};
ghost use Rattle.constant_pool.specs.Items.{class_at};
ghost use Rattle.class_names.specs.Texts.{text_in, class_text, is_array, member_in, member_of_pair, Member};
ghost use Rattle.class_names.specs.Seen.{seen_member};
ghost use Rattle.std.specs.Option.{option_copied};
ghost use Rattle.class_names.specs.Known.{is_name};
ghost use Rattle.class_names.specs.Classes.{this_name, super_text};

use class_format::ClassFile;
use constant_pool::text_at;
use jvm_base::{Desc, MethodDesc, NameErr, NoMemory, PoolItem, Units};
use std::alloc::Global;

const BRACKET: u16 = b'[' as u16;

/// A field or method that code names: the text of its class, its name and its descriptor. The texts
/// lie in the pool.
#[derive(Clone, Copy)]
pub struct Called<'a> {
    pub class: &'a [u16],
    pub name: &'a [u16],
    pub desc: &'a [u16],
}

impl Called<'static> {
    /// What stands for a member where none is.
    const NONE: Called<'static> = Called {
        class: &[],
        name: &[],
        desc: &[],
    };
}

/// The text at an index, empty where none stands there.
pub fn text(pool: &[PoolItem], index: u16) -> &[u16]
    ensures { result.now ≡ text_in pool.now index }
{
    match text_at(pool, index) {
        Some(text) => text.as_slice(),
        None => &[],
    }
}

/// The text of the class at an index: its name, or the descriptor of an array class.
pub fn class_text(pool: &[PoolItem], index: u16) -> &[u16]
    ensures { result.now ≡ class_text pool.now index }
{
    match pool.get(index as usize) {
        Some(PoolItem::Class(name)) => text(pool, *name),
        _ => &[],
    }
}

/// Whether the text is that of an array class.
pub fn is_array(text: &[u16]) -> bool
    ensures { result ≡ is_array text.now }
{
    matches!(text, [BRACKET, ..])
}

/// Whether two texts are one.
pub fn is_name(name: &[u16], other: &[u16]) -> bool
    ensures { result ≡ is_name name.now other.now }
{
    name == other
}

/// The name of a class file's own class.
pub fn this_name(file: &ClassFile) -> &[u16]
    ensures { result.now ≡ this_name file.now }
{
    class_text(file.pool.as_slice(), file.this_class)
}

/// The text of the superclass, if there is one.
pub fn super_text(file: &ClassFile) -> Option<&[u16]>
    ensures { option_copied result ≡ super_text file.now }
{
    if file.super_class == 0 {
        None
    } else {
        Some(class_text(file.pool.as_slice(), file.super_class))
    }
}

/// The member of a class and of the name and descriptor at `pair`.
fn member_of_pair(pool: &[PoolItem], class: u16, pair: u16) -> Called<'_>
    ensures { seen_member result ≡ member_of_pair pool.now class (slice_get pool.now pair) }
{
    match pool.get(pair as usize) {
        Some(PoolItem::NameAndKind { name, desc }) => Called {
            class: class_text(pool, class),
            name: text(pool, *name),
            desc: text(pool, *desc),
        },
        _ => Called::NONE,
    }
}

/// The member at an index, its texts empty where none stands there.
pub fn member(pool: &[PoolItem], index: u16) -> Called<'_>
    ensures { seen_member result ≡ member_in pool.now index }
{
    match pool.get(index as usize) {
        Some(
            PoolItem::Field { class, pair }
            | PoolItem::Method { class, pair }
            | PoolItem::InterfaceMethod { class, pair },
        ) => member_of_pair(pool, *class, *pair),
        _ => Called::NONE,
    }
}

/// The type that a method's descriptor at an index spells; `None` where no such descriptor stands
/// there.
#[tactic(auto, unfolding(jvm_base::specs::Descriptors::method_of))]
pub fn method_desc(
    alloc: Global,
    pool: &[PoolItem],
    index: u16,
) -> Result<Option<MethodDesc>, NoMemory>
    ensures { IfOk result (λ desc. desc ≡ method_of (text_in pool.now index)) }
{
    let Some(text) = text_at(pool, index) else {
        return Ok(None);
    };
    match MethodDesc::read_method(alloc, text) {
        Ok(desc) => Ok(Some(desc)),
        Err(NameErr::NoMemory) => Err(NoMemory),
        Err(_) => Ok(None),
    }
}

/// The type that a text spells as a field's descriptor, as that of an array class; `None` where it
/// spells none.
#[tactic(auto, unfolding(jvm_base::specs::Descriptors::desc_of))]
pub fn desc(alloc: Global, text: &[u16]) -> Result<Option<Desc>, NoMemory>
    ensures { IfOk result (λ desc. desc ≡ desc_of text.now) }
{
    let text = Units::from_slice(alloc, text)?;
    match Desc::read_field(alloc, &text) {
        Ok(desc) => Ok(Some(desc)),
        Err(NameErr::NoMemory) => Err(NoMemory),
        Err(_) => Ok(None),
    }
}
