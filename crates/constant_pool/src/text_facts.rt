//! What is found out once about the texts of a pool.

ghost use Rattle.std.specs.Prelude.{◌≡◌, ◌<◌, ◌^◌, map, length, Some, slice_get, IfOk};
ghost use Rattle.constant_pool.specs.Items.{text_of};
ghost use Rattle.constant_pool.specs.Facts.Ranks.{rank_of};
ghost use Rattle.constant_pool.specs.Facts.Kinds.{kind_of};

use crate::ranks::fill_ranks;
use crate::texts::{TextKind, Texts};
use jvm_base::{Desc, MethodDesc, NoMemory, PoolItem};
use std::alloc::Global;
use std::marker::Model;

fn kind(item: &PoolItem) -> TextKind
    ensures { result ≡ kind_of item.now }
{
    match item {
        PoolItem::Utf8(text) => TextKind {
            field: Desc::is_field(text),
            method: MethodDesc::is_method(text, 255),
            instance: MethodDesc::is_method(text, 254),
        },
        _ => TextKind::NONE,
    }
}

/// Puts the kind of each text at its index.
pub fn fill_kinds(pool: &[PoolItem], kinds: &mut [TextKind])
    requires { length kinds.old ≡ length pool.now }
    ensures { kinds.new ≡ map kind_of pool.now }
{
    for index in 0..pool.len() {
        kinds[index] = kind(&pool[index]);
    }
}

/// A pool with what is found out of its texts, on the heap. Contracts see the pool.
#[derive(Drop)]
pub struct TextFacts<'a> {
    pool: &'a [PoolItem],
    kinds: Vec<TextKind>,
    ranks: Vec<u16>,
}

impl<'a> Model for TextFacts<'a> {
    ghost use Rattle.std.specs.Prelude.{◌≡◌, List as Items, map, Some, slice_get};
    ghost use Rattle.jvm_base.specs.declared.pool.PoolItem.{PoolItem};
    ghost use Rattle.jvm_base.specs.declared.pool.PoolItem.TheVariants.{Gap};
    ghost use Rattle.constant_pool.specs.Items.{text_of};
    ghost use Rattle.constant_pool.specs.Facts.Ranks.{rank_of};
    ghost use Rattle.constant_pool.specs.Facts.Kinds.{kind_of};

    ghost Value = { Items PoolItem };

    ghost view = { λ t. t.pool.now };

    ghost invariant = { λ t. (t.kinds.items ≡ map kind_of t.pool.now)
        × (t.ranks.items ≡ map (λ item. rank_of t.pool.now (text_of item)) t.pool.now)
        × (slice_get t.pool.now 0 ≡ Some Gap) };
}

fn kinds_of(alloc: Global, pool: &[PoolItem]) -> Result<Vec<TextKind>, NoMemory>
    ensures { IfOk result (λ kinds. kinds.items ≡ map kind_of pool.now) }
{
    let mut kinds = vec![in alloc; TextKind::NONE; pool.len()]?;
    fill_kinds(pool, kinds.as_mut_slice());
    Ok(kinds)
}

fn ranks_of(alloc: Global, pool: &[PoolItem]) -> Result<Vec<u16>, NoMemory>
    requires { length pool.now < 2 ^ 16 }
    ensures { IfOk result
        (λ ranks. ranks.items ≡ map (λ item. rank_of pool.now (text_of item)) pool.now) }
{
    let mut indices = vec![in alloc; 0; pool.len()]?;
    let mut ranks = vec![in alloc; 0; pool.len()]?;
    fill_ranks(pool, indices.as_mut_slice(), ranks.as_mut_slice());
    Ok(ranks)
}

impl<'a> TextFacts<'a> {
    /// Finds out what is asked of the pool's texts.
    pub fn of(alloc: Global, pool: &'a [PoolItem]) -> Result<TextFacts<'a>, NoMemory>
        requires few { length pool.now < 2 ^ 16 }
        requires gap { slice_get pool.now 0 ≡ Some PoolItem.Gap }
        ensures { IfOk result (λ facts. facts ≡ pool.now) }
    {
        let kinds = kinds_of(alloc, pool)?;
        let ranks = ranks_of(alloc, pool)?;
        Ok(TextFacts { pool, kinds, ranks })
    }

    /// The pool, to be asked.
    pub fn texts(&self) -> Texts<'_>
        ensures { result ≡ self.now }
    {
        Texts::of(self.pool, self.kinds.as_slice(), self.ranks.as_slice())
    }
}
