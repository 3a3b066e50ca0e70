//! Values that are kept in many places.
#![tactic(auto)]

ghost use Rattle.std.specs.Prelude.{◌≡◌, IfOk};

use jvm_base::NoMemory;
use std::alloc::Global;
use std::marker::Model;
use std::sync::Arc;

/// A value on the heap with several owners, which contracts see as the value. It takes memory once,
/// however many owners it has, and is dropped with the last of them; an owner takes a word.
#[derive(Drop)]
pub struct Shared<T> {
    arc: Arc<T, Global>,
}

impl<T> Model for Shared<T> {
    ghost use Rattle.std.specs.Arc.{arc_value};

    ghost Value = { T };

    ghost coded = { T.code };

    ghost view = { λ a. arc_value a.arc };
}

impl<T: Drop> Shared<T> {
    /// A value with one owner.
    pub fn new(alloc: Global, value: T) -> Result<Shared<T>, NoMemory>
        ensures { IfOk result (λ shared. shared ≡ value) }
    {
        Ok(Shared {
            arc: Arc::new(alloc, value)?,
        })
    }

    /// One more owner of the same value. It takes no memory, and is an error only where so many
    /// owners are there that they can't be counted.
    pub fn share(&self) -> Result<Shared<T>, NoMemory>
        ensures { IfOk result (λ shared. shared ≡ self.now) }
    {
        Ok(Shared {
            arc: Arc::try_clone(&self.arc)?,
        })
    }

    /// The value.
    pub fn get(&self) -> &T
        ensures { result.now ≡ self.now }
    {
        &*self.arc
    }
}
