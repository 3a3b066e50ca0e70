//! Which texts of a pool were read, so that each is read once.

ghost use Rattle.std.specs.Prelude.{◌≡◌, length, replicate, slice_set, false, true, IfOk};
ghost use Rattle.link_arrays.specs.Marks.{is_marked, has_key, with_key, key_of, no_keys};

use code_table::Op;
use constant_pool::class_at;
use jvm_base::{List, NoMemory, PoolItem};
use std::alloc::Global;

/// Of a class item's text, the array class that it names itself, or the arrays of the class that it
/// names.
#[derive(Clone, Copy)]
pub(crate) enum Naming {
    Itself,
    ArraysOf,
}

/// What an instruction names: the index of the text, and what is named by it.
#[derive(Clone, Copy)]
pub(crate) struct Key {
    pub(crate) naming: Naming,
    pub(crate) text: u16,
}

/// The keys of which the types were added, by the index of the text.
#[derive(Drop)]
pub(crate) struct Keys {
    pub(crate) itself: List<bool>,
    pub(crate) arrays_of: List<bool>,
}

/// Marks of the texts of a pool, of which none is marked.
pub(crate) fn no_marks(alloc: Global, pool: &[PoolItem]) -> Result<List<bool>, NoMemory>
    ensures { IfOk result (λ marks. marks ≡ replicate (length pool.now) false) }
{
    Ok(List::from_vec(vec![in alloc; false; pool.len()]?))
}

/// Whether the text at an index is marked.
pub(crate) fn is_marked(marks: &List<bool>, index: u16) -> bool
    ensures { result ≡ is_marked marks.now index }
{
    match marks.as_slice().get(index as usize) {
        Some(marked) => *marked,
        None => false,
    }
}

/// Marks the text at an index. It does nothing past the end.
#[tactic(auto, using(crate::proofs::MarkLaws::set_past))]
pub(crate) fn mark(marks: &mut List<bool>, index: u16)
    ensures { marks.new ≡ slice_set marks.old index true }
{
    if (index as usize) < marks.len() {
        marks.set(index as usize, true);
    }
}

/// What an instruction names by the text of a class item.
pub(crate) fn key_of(pool: &[PoolItem], op: &Op) -> Option<Key>
    ensures { result ≡ key_of pool.now op.now }
{
    let (naming, item) = match op {
        Op::AnewArray(item) => (Naming::ArraysOf, *item),
        Op::MultiNewArray { item, .. } | Op::Cast { item, .. } => (Naming::Itself, *item),
        _ => return None,
    };
    let text = class_at(pool, item)?;
    Some(Key { naming, text })
}

impl Keys {
    /// No key of a pool's texts.
    pub(crate) fn new(alloc: Global, pool: &[PoolItem]) -> Result<Keys, NoMemory>
        ensures { IfOk result (λ keys. keys ≡ no_keys pool.now) }
    {
        Ok(Keys {
            itself: no_marks(alloc, pool)?,
            arrays_of: no_marks(alloc, pool)?,
        })
    }

    /// Whether a key is among them.
    pub(crate) fn has(&self, key: Key) -> bool
        ensures { result ≡ has_key self.now key }
    {
        match key.naming {
            Naming::Itself => is_marked(&self.itself, key.text),
            Naming::ArraysOf => is_marked(&self.arrays_of, key.text),
        }
    }

    /// Adds a key.
    pub(crate) fn add(&mut self, key: Key)
        ensures { self.new ≡ with_key self.old key }
    {
        match key.naming {
            Naming::Itself => mark(&mut self.itself, key.text),
            Naming::ArraysOf => mark(&mut self.arrays_of, key.text),
        }
    }
}
