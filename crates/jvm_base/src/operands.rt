//! The operand stack of a frame.

ghost use Rattle.std.specs.Prelude.{◌≡◌, ◌<◌, ◌≤◌, ◌∷◌, [], drop, length, slice_get, MatchOption, IfOk};
ghost use Rattle.jvm_base.specs.Stack.{pushed};

use crate::memory::NoMemory;
use crate::value::Value;
use std::alloc::Global;
use std::marker::Model;

/// Operands of a frame (JVMS2 3.6.2). Contracts see the values with the newest first, and the
/// number of values that it was made for, which it never exceeds.
#[derive(Drop)]
pub struct Operands {
    items: Vec<Value>,
    room: u32,
}

impl Model for Operands {
    ghost use Rattle.std.specs.Prelude.{◌≤◌, reverse, vec_len, vec_capacity};
    ghost use Rattle.jvm_base.specs.Stack.{Stack};

    ghost Value = { Stack };

    ghost view = { λ a. record { values = reverse a.items.items; room = a.room } };

    ghost invariant = { λ a. (vec_len a.items ≤ a.room) × (a.room ≤ vec_capacity a.items) };
}

impl Operands {
    /// No operands, with room for so many.
    pub fn new(alloc: Global, room: u32) -> Result<Operands, NoMemory>
        ensures { IfOk result (λ it. it ≡ record { values = []; room = room }) }
    {
        Ok(Operands {
            items: Vec::with_capacity(alloc, room as usize)?,
            room,
        })
    }

    /// Puts a value on top. It takes no memory.
    pub fn push(&mut self, value: Value)
        requires { length self.old.values < self.old.room }
        ensures { self.new ≡ pushed value self.old }
    {
        self.items.push_reserved(value);
    }

    /// Takes the newest value off; `None` exactly where there is none.
    pub fn pop(&mut self) -> Option<Value>
        ensures { MatchOption result
            ((self.old.values ≡ []) × (self.new ≡ self.old))
            (λ v. self.old ≡ pushed v self.new) }
    {
        self.items.pop()
    }

    /// The value that lies so many below the newest; `None` exactly where there is none.
    pub fn get(&self, depth: u32) -> Option<Value>
        ensures { result ≡ slice_get self.now.values depth }
    {
        let len = self.items.len();
        let depth = depth as usize;
        if depth < len {
            Some(self.items[len - 1 - depth])
        } else {
            None
        }
    }

    /// Takes the newest values off.
    pub fn take(&mut self, count: u32)
        requires { count ≤ length self.old.values }
        ensures { self.new ≡ record { values = drop count self.old.values; room = self.old.room } }
    {
        let kept = self.items.len() - count as usize;
        self.items.truncate(kept);
    }
}
