//! Names of classes.

ghost use Rattle.std.specs.Prelude.{◌≡◌, drop, IfOk};

use jvm_base::{NoMemory, Units};
use shared_value::Shared;
use std::alloc::Global;
use std::marker::Model;

/// The name of a class: a text, or the end of one. The names of the array classes of one element
/// type are ends of the longest of them, and share it, so that they take no memory for themselves.
#[derive(Drop)]
pub struct ClassName {
    text: Shared<Units>,
    from: usize,
}

impl Model for ClassName {
    ghost use Rattle.std.specs.Prelude.{List, ℕ, drop};

    ghost Value = { List ℕ };

    ghost view = { λ a. drop a.from a.text };
}

impl ClassName {
    /// The name that a text is.
    pub fn new(alloc: Global, text: Units) -> Result<ClassName, NoMemory>
        ensures { IfOk result (λ name. name ≡ text) }
    {
        Ok(ClassName {
            text: Shared::new(alloc, text)?,
            from: 0,
        })
    }

    /// The name that a text is from a place on. It takes no memory.
    pub fn end_of(text: &Shared<Units>, from: usize) -> Result<ClassName, NoMemory>
        ensures { IfOk result (λ name. name ≡ drop from text.now) }
    {
        Ok(ClassName {
            text: text.share()?,
            from,
        })
    }

    /// Its units.
    pub fn as_slice(&self) -> &[u16]
        ensures { result.now ≡ self.now }
    {
        let text = self.text.get().as_slice();
        if self.from < text.len() {
            &text[self.from..]
        } else {
            &text[..0]
        }
    }
}
