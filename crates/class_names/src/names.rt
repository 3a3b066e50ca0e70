//! Names by number.

ghost use Rattle.std.specs.Prelude.{◌≡◌, [], ◌∷◌, ◌++◌, ◌<◌, length, not, position, if◌then◌else◌, is_some, IfOk, OnErr, IfSome};
ghost use Rattle.class_names.specs.Known.{is_known, is_name};

use indexmap::IndexSet;
use jvm_base::NoMemory;
use std::alloc::Global;
use std::marker::Model;

/// Names in the order of first sight, each once; a name's number is its place. The texts are lent,
/// and none is copied. Contracts see the list of the names.
#[derive(Drop)]
pub struct Names<'a> {
    set: IndexSet<&'a [u16]>,
}

impl<'a> Model for Names<'a> {
    ghost use Rattle.std.specs.Prelude.{List, ℕ, map};

    ghost Value = { List (List ℕ) };

    ghost view = { λ a. map (λ x. x.now) a.set.keys };
}

impl<'a> Names<'a> {
    /// No names. It takes no memory.
    pub fn new(alloc: Global) -> Names<'a>
        ensures { result ≡ [] }
    {
        Names {
            set: IndexSet::new(alloc),
        }
    }

    /// Adds a name where it is new, and tells whether it was.
    pub fn add(&mut self, name: &'a [u16]) -> Result<bool, NoMemory>
        ensures new { IfOk result (λ fresh. fresh ≡ not (is_known self.old name.now)) }
        ensures ok { IfOk result
            (λ fresh. self.new ≡ (if fresh then self.old ++ name.now ∷ [] else self.old)) }
        ensures err { OnErr result (self.new ≡ self.old) }
    {
        let (_, fresh) = self.set.insert_full(name)?;
        Ok(fresh)
    }

    /// Whether a name was added.
    pub fn has(&self, name: &[u16]) -> bool
        ensures { result ≡ is_known self.now name.now }
    {
        self.number(name).is_some()
    }

    /// The number of a name, if it was added. Two names have one number exactly where they are one.
    pub fn number(&self, name: &[u16]) -> Option<usize>
        ensures at { result ≡ position (is_name name.now) self.now }
        ensures found { is_some result ≡ is_known self.now name.now }
        ensures within { IfSome result (λ n. n < length self.now) }
    {
        self.set.get_index_of(name)
    }
}
