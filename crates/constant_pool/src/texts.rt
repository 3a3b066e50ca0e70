//! A constant pool, and what is asked again and again of its texts.

ghost use Rattle.std.specs.Prelude.{◌≡◌, ◌↔◌, ◌==◌, ℕ, map, length, false, Some, slice_get, option_and_then};
ghost use Rattle.std.specs.Option.{option_map_or};
ghost use Rattle.jvm_base.specs.Descriptors.{is_method_of};
ghost use Rattle.constant_pool.specs.Items.{text_of, text_at, is_text_at, is_text_that, is_class_at, desc_index, is_pair_that};
ghost use Rattle.constant_pool.specs.Links.{is_field_text, is_class_text};
ghost use Rattle.constant_pool.specs.Facts.Ranks.{rank_of, rank_at};
ghost use Rattle.constant_pool.specs.Facts.Kinds.{kind_of};

use crate::lookup::{pair_desc, text_at};
use jvm_base::PoolItem;
use std::marker::Model;

/// Of which descriptors a text is one: of a field, of a method, of a method that takes a receiver.
#[derive(Clone, Copy)]
pub struct TextKind {
    pub field: bool,
    pub method: bool,
    pub instance: bool,
}

/// A pool and, for each index, the kind and the rank of its text. So no text is read or compared
/// again for each item that names it. Contracts see the pool.
#[derive(Drop)]
pub struct Texts<'a> {
    pool: &'a [PoolItem],
    kinds: &'a [TextKind],
    ranks: &'a [u16],
}

impl TextKind {
    /// The kind of what is no text.
    pub const NONE: TextKind = TextKind {
        field: false,
        method: false,
        instance: false,
    };
}

impl<'a> Model for Texts<'a> {
    ghost use Rattle.std.specs.Prelude.{◌≡◌, List as Items, map, Some, slice_get};
    ghost use Rattle.jvm_base.specs.declared.pool.PoolItem.{PoolItem};
    ghost use Rattle.jvm_base.specs.declared.pool.PoolItem.TheVariants.{Gap};
    ghost use Rattle.constant_pool.specs.Items.{text_of};
    ghost use Rattle.constant_pool.specs.Facts.Ranks.{rank_of};
    ghost use Rattle.constant_pool.specs.Facts.Kinds.{kind_of};

    ghost Value = { Items PoolItem };

    ghost view = { λ t. t.pool.now };

    ghost invariant = { λ t. (t.kinds.now ≡ map kind_of t.pool.now)
        × (t.ranks.now ≡ map (λ item. rank_of t.pool.now (text_of item)) t.pool.now)
        × (slice_get t.pool.now 0 ≡ Some Gap) };
}

fn kept(ranks: &[u16], index: u16) -> Option<u16>
    ensures { result ≡ slice_get ranks.now index }
{
    ranks.get(index as usize).copied()
}

impl<'a> Texts<'a> {
    /// A pool with what was found out of its texts.
    pub fn of(pool: &'a [PoolItem], kinds: &'a [TextKind], ranks: &'a [u16]) -> Texts<'a>
        requires kinds { kinds.now ≡ map kind_of pool.now }
        requires ranks { ranks.now ≡ map (λ item. rank_of pool.now (text_of item)) pool.now }
        requires gap { slice_get pool.now 0 ≡ Some PoolItem.Gap }
        ensures { result ≡ pool.now }
    {
        Texts { pool, kinds, ranks }
    }

    /// The items of the pool.
    pub fn items(&self) -> &[PoolItem]
        ensures { result.now ≡ self.now }
    {
        self.pool
    }

    fn kind(&self, index: u16) -> TextKind
        ensures { result ≡ option_map_or kind_of (slice_get self.now index) (kind_of PoolItem.Gap) }
    {
        match self.kinds.get(index as usize) {
            Some(kind) => *kind,
            None => TextKind::NONE,
        }
    }

    /// Whether the text at the index is the descriptor of a field.
    pub fn is_field(&self, index: u16) -> bool
        ensures { result ≡ is_text_that is_field_text self.now index }
    {
        self.kind(index).field
    }

    /// Whether the text at the index is the descriptor of a method.
    pub fn is_method(&self, index: u16) -> bool
        ensures { result ≡ is_text_that (λ us. is_method_of us 255) self.now index }
    {
        self.kind(index).method
    }

    /// Whether the text at the index is the descriptor of a method whose arguments leave a slot.
    pub fn is_instance_method(&self, index: u16) -> bool
        ensures { result ≡ is_text_that (λ us. is_method_of us 254) self.now index }
    {
        self.kind(index).instance
    }

    /// Whether the text at the index names a class or interface, or is the descriptor of an array.
    pub fn is_class_text(&self, index: u16) -> bool
        ensures { result ≡ is_text_that is_class_text self.now index }
    {
        match text_at(self.pool, index) {
            Some(units) => match units.as_slice() {
                [] => false,
                [first, ..] => *first != b'[' as u16 || self.is_field(index),
            },
            None => false,
        }
    }

    /// Whether the index is of a pair with the descriptor of a field.
    pub fn is_field_pair(&self, index: u16) -> bool
        ensures { result ≡ is_pair_that is_field_text self.now index }
    {
        match pair_desc(self.items(), index) {
            Some(desc) => self.is_field(desc),
            None => false,
        }
    }

    /// Whether the index is of a pair with the descriptor of a method.
    pub fn is_method_pair(&self, index: u16) -> bool
        ensures { result ≡ is_pair_that (λ us. is_method_of us 255) self.now index }
    {
        match pair_desc(self.items(), index) {
            Some(desc) => self.is_method(desc),
            None => false,
        }
    }

    /// The rank of the text at the index, which only indices of the same text share: how many items
    /// of the pool come before.
    pub fn rank(&self, index: u16) -> u16
        ensures value { result ≡ rank_at self.now index }
        ensures tells { (other : ℕ)
            → (result ≡ rank_at self.now other) ↔
            (text_at self.now index ≡ text_at self.now other) }
        ensures gap { slice_get self.now 0 ≡ Some PoolItem.Gap }
    {
        kept(self.ranks, index).unwrap_or(0)
    }
}
