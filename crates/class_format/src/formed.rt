//! Whether a class file can be spelled.

ghost use Rattle.std.specs.Prelude.{◌≡◌, ◌&&◌, ◌↔◌, ◌<◌, ◌^◌, ◌||◌, false, true, not, IsTrue, All, Some, nat_eq, length, slice_get};
ghost use Rattle.std.specs.List.{list_any, AllByRecursion};
ghost use Rattle.class_format.specs.Versions.{is_other_version};
ghost use Rattle.class_format.specs.Flags.{class_flags_clash};
ghost use Rattle.constant_pool.specs.Items.{is_the_text, is_class_at, is_item_that};
ghost use Rattle.class_format.specs.KnownTexts.{is_code, is_constant_value};
ghost use Rattle.constant_pool.specs.Links.{bad_link};
ghost use Rattle.class_format.specs.Meaning.{FitsLink, IsKnown, AreNames, IsClass};
ghost use Rattle.class_format.specs.Judging.Formed.{has_text_that, FormedMembers, FormedParts};

use crate::class::{COUNT_LIMIT, ClassFile, FieldItem, MethodItem};
use crate::flags::class_flags_clash;
use crate::formed_member::{AttributeNames, are_formed_fields, are_formed_methods};
use crate::formed_pool::is_formed_pool;
use crate::known_texts::{CODE, CONSTANT_VALUE};
use crate::members::are_new;
use crate::version::is_other_version;
use constant_pool::{TextKind, Texts, bad_link, fill_kinds, fill_ranks, is_class_at, is_text};
use jvm_base::PoolItem;

fn has_text(pool: &[PoolItem], text: &[u16]) -> bool
    ensures { result ≡ has_text_that (is_the_text text.now) pool.now }
{
    pool.iter().any(|item| is_text(item, text))
}

fn attribute_names(pool: &[PoolItem]) -> AttributeNames
    ensures constant_value { result.constant_value ≡ has_text_that is_constant_value pool.now }
    ensures code { result.code ≡ has_text_that is_code pool.now }
{
    AttributeNames {
        constant_value: has_text(pool, &CONSTANT_VALUE),
        code: has_text(pool, &CODE),
    }
}

#[tactic(auto, using(crate::proofs::Recursion::all_of, crate::proofs::Recursion::by_recursion))]
fn are_links(texts: &Texts, classes: &[u16]) -> bool
    ensures { IsTrue result ↔ AllByRecursion (FitsLink texts.now) classes.now }
{
    for class in classes {
        if !is_class_at(texts.items(), *class) {
            return false;
        }
    }
    true
}

fn is_known(minor: u16, major: u16) -> bool
    ensures { IsTrue result ↔ IsKnown minor major }
{
    !is_other_version(major, minor)
}

/// Flags, and the links to classes.
fn are_names(class: &ClassFile, texts: &Texts) -> bool
    ensures { IsTrue result ↔ AreNames texts.now class.now.flags class.now.this_class
        class.now.super_class class.now.interfaces }
{
    let pool = texts.items();
    let super_class = class.super_class;
    let interfaces = class.interfaces.as_slice();
    !class_flags_clash(class.flags)
        && is_class_at(pool, class.this_class)
        && (super_class == 0 || is_class_at(pool, super_class))
        && interfaces.len() < COUNT_LIMIT
        && are_links(texts, interfaces)
}

fn are_formed_members(texts: &Texts, fields: &[FieldItem], methods: &[MethodItem]) -> bool
    requires gap { slice_get texts.now 0 ≡ Some PoolItem.Gap }
    ensures { IsTrue result ↔ FormedMembers texts.now fields.now methods.now }
{
    let names = attribute_names(texts.items());
    fields.len() < COUNT_LIMIT
        && methods.len() < COUNT_LIMIT
        && are_formed_fields(texts, names, fields)
        && are_formed_methods(texts, names, methods)
        && are_new(texts, fields)
        && are_new(texts, methods)
}

fn are_formed_parts(class: &ClassFile, texts: &Texts) -> bool
    requires gap { slice_get texts.now 0 ≡ Some PoolItem.Gap }
    ensures { IsTrue result ↔ FormedParts class.now texts.now }
{
    let fields = class.fields.as_slice();
    let methods = class.methods.as_slice();
    bad_link(texts).is_none()
        && is_known(class.minor, class.major)
        && are_names(class, texts)
        && are_formed_members(texts, fields, methods)
}

/// What is asked beside the pool, with what is found out of its texts on the stack.
fn has_formed_parts(class: &ClassFile, pool: &[PoolItem]) -> bool
    requires few { length pool.now < 2 ^ 16 }
    requires gap { slice_get pool.now 0 ≡ Some PoolItem.Gap }
    ensures { IsTrue result ↔ FormedParts class.now pool.now }
{
    let mut kind_room = [TextKind::NONE; COUNT_LIMIT];
    let mut index_room = [0; COUNT_LIMIT];
    let mut rank_room = [0; COUNT_LIMIT];
    let kinds = &mut kind_room[..pool.len()];
    let indices = &mut index_room[..pool.len()];
    let ranks = &mut rank_room[..pool.len()];
    fill_kinds(pool, kinds);
    fill_ranks(pool, indices, ranks);
    are_formed_parts(class, &Texts::of(pool, kinds, ranks))
}

/// Whether some bytes spell the class file. It takes no memory but for a fixed part of the stack.
pub fn well_formed(class: &ClassFile) -> bool
    ensures { IsTrue result ↔ IsClass class.now }
{
    let pool = class.pool.as_slice();
    is_formed_pool(pool) && has_formed_parts(class, pool)
}
