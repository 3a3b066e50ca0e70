//! Texts of 16-bit units.

ghost use Rattle.std.specs.Prelude.{◌≡◌, [], ◌∷◌, ◌++◌, length, slice_get, nat_eq, OnOk, OnErr, IfOk};
ghost use Rattle.std.specs.Option.{option_copied};
ghost use Rattle.std.specs.Cmp.Lexicographic.{pointwise};
ghost use Rattle.std.specs.Cmp.Rules.{comparing, hashing};
ghost use Rattle.std.specs.Hash as fed;
ghost use Rattle.std.proofs.Common.{rules};
ghost use Rattle.jvm_base.specs.declared.units.NameErr.TheVariants.{NoMemory as OutOfMemory};

use crate::list::List;
use crate::memory::NoMemory;
use std::alloc::Global;
use std::hash::{Hash, Hasher};
use std::marker::Model;
use thiserror::Error;

/// A text as Java has it: 16-bit units, surrogates each by themselves. Contracts see the list of
/// the units.
#[derive(Debug, Drop)]
pub struct Units {
    list: List<u16>,
}

/// Why a text or a descriptor isn't read.
#[derive(Clone, Copy, Debug, PartialEq, Eq, Error)]
pub enum NameErr {
    /// The bytes are no modified UTF-8 (JVMS2 4.4.7).
    #[error("bad text")]
    BadUtf,
    /// The text is no descriptor of the kind that is read (JVMS2 4.3).
    #[error("bad descriptor")]
    BadDesc,
    /// Memory ran out.
    #[error("want of memory")]
    NoMemory,
}

impl From<NoMemory> for NameErr {
    ghost from_gives = { λ _ e. e ≡ OutOfMemory };

    fn from(_error: NoMemory) -> NameErr {
        NameErr::NoMemory
    }
}

impl Model for Units {
    ghost use Rattle.std.specs.Prelude.{List, ℕ};

    ghost Value = { List ℕ };

    ghost view = { λ a. a.list };
}

impl PartialEq for Units {
    ghost eq = { λ a b. pointwise nat_eq a b };

    ghost laws = { Prim.search (comparing, rules) };

    fn eq(&self, other: &Units) -> bool {
        self.as_slice() == other.as_slice()
    }
}

impl Eq for Units {
    ghost laws = { Prim.search (comparing, rules) };
}

impl Hash for Units {
    ghost hash_input = { λ a. fed.slice fed.u16 a };

    ghost respects_eq = { Prim.search (hashing, rules) };

    fn hash<H: Hasher>(&self, state: &mut H) {
        self.as_slice().hash(state);
    }
}

impl Units {
    /// The empty text. It takes no memory.
    pub fn new(alloc: Global) -> Units
        ensures { result ≡ [] }
    {
        Units {
            list: List::new(alloc),
        }
    }

    /// A copy of the units.
    pub fn from_slice(alloc: Global, units: &[u16]) -> Result<Units, NoMemory>
        ensures { IfOk result (λ text. text ≡ units.now) }
    {
        Ok(Units {
            list: List::from_vec(Vec::from_slice(alloc, units)?),
        })
    }

    /// How many units there are.
    pub fn len(&self) -> usize
        ensures { result ≡ length self.now }
    {
        self.list.len()
    }

    /// The units as a slice.
    pub fn as_slice(&self) -> &[u16]
        ensures { result.now ≡ self.now }
    {
        self.list.as_slice()
    }

    /// The unit at a place, from 0; `None` exactly past the end.
    pub fn get(&self, at: usize) -> Option<&u16>
        ensures { option_copied result ≡ slice_get self.now at }
    {
        self.list.get(at)
    }

    /// Adds a unit at the end.
    pub fn push(&mut self, unit: u16) -> Result<(), NoMemory>
        ensures ok { OnOk result (self.new ≡ self.old ++ unit ∷ []) }
        ensures err { OnErr result (self.new ≡ self.old) }
    {
        self.list.push(unit)
    }
}
