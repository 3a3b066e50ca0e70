//! The constant pool.

ghost use Rattle.std.specs.Prelude.{◌≡◌, [], ◌∷◌, ◌++◌, length, slice_get, OnOk, OnErr, IfOk};
ghost use Rattle.std.specs.Option.{option_copied};

use crate::list::List;
use crate::memory::NoMemory;
use crate::units::Units;
use std::alloc::Global;
use std::marker::Model;

/// An item of the constant pool (JVMS2 4.4). `Gap` stands at index 0 and at the second index of a
/// `Long` or `Double`; a `Float` and a `Double` are kept as their bits.
#[derive(Drop)]
pub enum PoolItem {
    Gap,
    Utf8(Units),
    Integer(i32),
    Float(u32),
    Long(i64),
    Double(u64),
    Class(u16),
    Text(u16),
    Field { class: u16, pair: u16 },
    Method { class: u16, pair: u16 },
    InterfaceMethod { class: u16, pair: u16 },
    NameAndKind { name: u16, desc: u16 },
}

/// A constant pool, seen as the list of its items. Item 0 is `Gap`.
#[derive(Drop)]
pub struct Pool {
    list: List<PoolItem>,
}

impl Model for Pool {
    ghost use Rattle.std.specs.Prelude.{◌≡◌, List, Some, slice_get};
    ghost use Rattle.jvm_base.specs.declared.pool.PoolItem.{PoolItem};
    ghost use Rattle.jvm_base.specs.declared.pool.PoolItem.TheVariants.{Gap};

    ghost Value = { List PoolItem };

    ghost view = { λ a. a.list };

    ghost invariant = { λ a. slice_get a.list 0 ≡ Some Gap };
}

impl Pool {
    /// The pool of one gap.
    pub fn new(alloc: Global) -> Result<Pool, NoMemory>
        ensures { IfOk result (λ pool. pool ≡ PoolItem.Gap ∷ []) }
    {
        let mut list = List::new(alloc);
        list.push(PoolItem::Gap)?;
        Ok(Pool { list })
    }

    /// How many indices there are, index 0 among them.
    pub fn len(&self) -> usize
        ensures { result ≡ length self.now }
    {
        self.list.len()
    }

    /// The items as a slice.
    pub fn as_slice(&self) -> &[PoolItem]
        ensures { result.now ≡ self.now }
    {
        self.list.as_slice()
    }

    /// The item at an index; `None` exactly past the end.
    pub fn get(&self, at: usize) -> Option<&PoolItem>
        ensures { option_copied result ≡ slice_get self.now at }
    {
        self.list.get(at)
    }

    /// Adds an item at the end.
    pub fn push(&mut self, item: PoolItem) -> Result<(), NoMemory>
        ensures ok { OnOk result (self.new ≡ self.old ++ item ∷ []) }
        ensures err { OnErr result (self.new ≡ self.old) }
    {
        self.list.push(item)
    }
}
