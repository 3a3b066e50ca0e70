//! The order of the texts of a pool.

ghost use Rattle.std.specs.Prelude.{◌≡◌, ◌<◌, ◌≤◌, ◌^◌, map, length, count_by, IsPermutation, IsSorted};
ghost use Rattle.constant_pool.specs.Items.{text_of, text_at, units};
ghost use Rattle.constant_pool.specs.Facts.Ranks.{text_cmp, comes_before, rank_of};

use crate::lookup::units_at;
use jvm_base::PoolItem;
use std::cmp::Ordering;

fn text_order(pool: &[PoolItem], index: u16, other: u16) -> Ordering
    ensures { result ≡ text_cmp (text_at pool.now index) (text_at pool.now other) }
{
    units_at(pool, index).cmp(&units_at(pool, other))
}

fn fill_indices(pool: &[PoolItem], indices: &mut [u16])
    requires few { length pool.now < 2 ^ 16 }
    requires room { length indices.old ≡ length pool.now }
    ensures { map (text_at pool.now) indices.new ≡ map text_of pool.now }
{
    for index in 0..pool.len() {
        indices[index] = index as u16;
    }
}

/// Puts the indices into the order of their texts.
fn sort(pool: &[PoolItem], indices: &mut [u16])
    ensures permutation { IsPermutation indices.old indices.new }
    ensures len { length indices.new ≡ length indices.old }
    ensures sorted { IsSorted
        (λ i j. text_cmp (text_at pool.now i) (text_at pool.now j)) indices.new }
{
    indices.sort_unstable_by(|index, other| text_order(pool, *index, *other));
}

/// How many of the indices have a text that comes before.
fn rank(pool: &[PoolItem], sorted: &[u16], index: u16) -> usize
    requires { IsSorted (λ i j. text_cmp (text_at pool.now i) (text_at pool.now j)) sorted.now }
    ensures value { result ≡ count_by
        (λ i. comes_before (text_at pool.now i) (text_at pool.now index)) sorted.now }
    ensures within { result ≤ length sorted.now }
{
    sorted.partition_point(|other| text_order(pool, *other, index).is_lt())
}

/// Puts the rank of each text at its index. It sorts the indices in `indices`, whose values count
/// for nothing.
pub fn fill_ranks(pool: &[PoolItem], indices: &mut [u16], ranks: &mut [u16])
    requires few { length pool.now < 2 ^ 16 }
    requires indices { length indices.old ≡ length pool.now }
    requires ranks { length ranks.old ≡ length pool.now }
    ensures { ranks.new ≡ map (λ item. rank_of pool.now (text_of item)) pool.now }
{
    fill_indices(pool, indices);
    sort(pool, indices);
    for index in 0..pool.len() {
        ranks[index] = rank(pool, indices, index as u16) as u16;
    }
}
