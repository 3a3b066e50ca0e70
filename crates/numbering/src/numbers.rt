//! Items in order of first sight; an item's number is its place.

ghost use Rattle.std.specs.Prelude.{◌≡◌, [], length, position, Some, is_some, IfOk, OnOk, OnErr};
ghost use Rattle.numbering.specs.Seen.{is_seen, with_item};

use indexmap::IndexSet;
use jvm_base::NoMemory;
use std::alloc::Global;
use std::hash::Hash;
use std::marker::Model;

/// Items in order of first sight, each once. They are borrowed, so that a text isn't copied.
#[derive(Drop)]
pub struct Numbers<'a, T: Eq + Hash> {
    set: IndexSet<&'a T>,
}

impl<'a, T: Eq + Hash> Model for Numbers<'a, T> {
    ghost use Rattle.std.specs.Prelude.{List as Items, map};
    ghost use Rattle.std.specs.Coded.{coded_list};

    ghost Value = { Items T };

    ghost coded = { coded_list T.code };

    ghost view = { λ a. map (λ x. x.now) a.set.keys };
}

impl<'a, T: Eq + Hash> Numbers<'a, T> {
    /// No items. It takes no memory.
    pub fn new(alloc: Global) -> Numbers<'a, T>
        ensures { result ≡ [] }
    {
        Numbers {
            set: IndexSet::new(alloc),
        }
    }

    /// The number of an item, which goes last where it is new.
    pub fn number(&mut self, item: &'a T) -> Result<usize, NoMemory>
        ensures items { OnOk result (self.new ≡ with_item T.eq self.old item.now) }
        ensures number { IfOk result (λ n. position (T.eq item.now) self.new ≡ Some n) }
        ensures err { OnErr result (self.new ≡ self.old) }
    {
        let (at, _) = self.set.insert_full(item)?;
        Ok(at)
    }

    /// The number of an item; `None` exactly where it wasn't seen.
    pub fn find(&self, item: &T) -> Option<usize>
        ensures number { result ≡ position (T.eq item.now) self.now }
        ensures seen { is_some result ≡ is_seen T.eq self.now item.now }
    {
        self.set.get_index_of(&item)
    }
}
