//! The types of a stack, seen with the newest first.

ghost use Rattle.std.specs.Prelude.{◌≡◌, ◌∷◌, ◌++◌, [], nat_lt, false, drop, length, replicate, reverse, slice_set, IfOk, MatchOption, OnOk};
ghost use Rattle.std.specs.Bool.{MatchBool};
ghost use Rattle.flow_types.specs.Tree.{superclasses, IsTree};
ghost use Rattle.flow_types.specs.TypeLists.{types_joined};
ghost use Rattle.shared_types.specs.Trees.{all_operands};
ghost use Rattle.instruction_table.specs.LowestRule.{lowest};
ghost use Rattle.instruction_table.specs.Needs.{needs_rules, is_long};
ghost use Rattle.instruction_table.specs.Working.{slots, begun, first_or, under};
ghost use Rattle.instruction_table.specs.Groups.{IsTaken, IsPair, values, broken};

use crate::begin::begin_all;
use crate::lowest::lower;
use crate::need::{is_long, need_rule};
use crate::row::{Group, Need};
use crate::rule;
use flow_types::FlowType;
use jvm_base::NoMemory;
use program_image::Image;
use shared_types::Types;
use std::alloc::Global;
use std::marker::Model;

/// A stack of types. Contracts see them with the newest first. It knows how many are longs, so that
/// its room is known at once.
#[derive(Drop)]
pub struct Stack {
    items: Types,
    wide: usize,
}

impl Model for Stack {
    ghost use Rattle.std.specs.Prelude.{List as Items, reverse};
    ghost use Rattle.flow_types.specs.declared.flow_type.FlowType.{FlowType};

    ghost Value = { Items FlowType };

    ghost use Rattle.shared_types.specs.Trees.{longs};
    ghost use Rattle.std.specs.Prelude.{◌≡◌};

    ghost view = { λ a. reverse a.items };

    ghost invariant = { λ a. a.wide ≡ longs a.items };
}

impl Stack {
    /// The empty stack, with room for so many types. It takes no memory.
    pub fn new(room: usize) -> Stack
        ensures { result ≡ [] }
    {
        Stack {
            items: Types::new(room),
            wide: 0,
        }
    }

    /// The stack of a list with the newest last.
    pub fn from_list(alloc: Global, list: &[FlowType]) -> Result<Stack, NoMemory>
        ensures { IfOk result (λ s. s ≡ reverse list.now) }
    {
        let items = Types::from_list(alloc, list)?;
        let wide = items.longs();
        Ok(Stack { items, wide })
    }

    /// The same stack. It takes no memory, however deep it is.
    pub fn share(&self) -> Result<Stack, NoMemory>
        ensures { IfOk result (λ s. s ≡ self.now) }
    {
        Ok(Stack {
            items: self.items.share()?,
            wide: self.wide,
        })
    }

    /// How many types there are.
    #[tactic(auto, using(crate::proofs::Stacks::length_reverse))]
    pub fn depth(&self) -> usize
        ensures { result ≡ length self.now }
    {
        self.items.len()
    }

    /// The types, with the newest last.
    #[tactic(auto, using(crate::proofs::Stacks::reverse_twice))]
    pub fn types(&self) -> &Types
        ensures { result.now ≡ reverse self.now }
    {
        &self.items
    }

    #[tactic(auto, using(shared_types::proofs::Laws::longs_parts, crate::proofs::Stacks::long_one, crate::proofs::Stacks::short_one))]
    pub fn pop(&mut self) -> Option<FlowType>
        ensures { MatchOption result ((self.old ≡ []) × (self.new ≡ []))
            (λ t. self.old ≡ t ∷ self.new) }
    {
        let t = self.items.pop()?;
        if is_long(&t) {
            self.wide -= 1;
        }
        Some(t)
    }

    #[tactic(auto, using(shared_types::proofs::Laws::longs_parts, shared_types::proofs::Laws::few_of, crate::proofs::Stacks::long_one, crate::proofs::Stacks::short_one))]
    pub fn push(&mut self, alloc: Global, t: FlowType) -> Result<(), NoMemory>
        ensures { OnOk result (self.new ≡ t ∷ self.old) }
    {
        self.items.push(alloc, t)?;
        if is_long(&t) && self.wide < self.items.len() {
            self.wide += 1;
        }
        Ok(())
    }

    /// Whether the types need more room than that.
    #[tactic(auto, using(crate::proofs::Stacks::slots_reverse, crate::proofs::Stacks::slots_longs))]
    pub fn exceeds(&self, room: u32) -> bool
        ensures { result ≡ nat_lt room (slots self.now) }
    {
        let depth = self.items.len();
        depth > room as usize || self.wide > room as usize - depth
    }

    /// Makes each copy of an uninitialised type another type, which isn't a long either.
    #[tactic(auto, using(crate::proofs::Beginning::reverse_begun))]
    pub(crate) fn begin(
        &mut self,
        alloc: Global,
        was: FlowType,
        now: FlowType,
    ) -> Result<(), NoMemory>
        requires { is_long now ≡ false }
        ensures { OnOk result (self.new ≡ begun was now self.old) }
    {
        begin_all(alloc, &mut self.items, was, now)?;
        Ok(())
    }

    /// Puts another type in place of the oldest.
    #[tactic(auto, using(crate::proofs::Stacks::reverse_twice, crate::proofs::Stacks::length_reverse))]
    pub fn set_oldest(&mut self, alloc: Global, t: FlowType) -> Result<(), NoMemory>
        ensures { OnOk result (reverse self.new ≡ slice_set (reverse self.old) 0 t) }
    {
        if 0 < self.items.len() {
            self.items.set(alloc, 0, t)?;
            self.wide = self.items.longs();
        }
        Ok(())
    }

    /// Whether each type can stand on a stack. It takes time in their number.
    #[tactic(auto, using(crate::proofs::Stacks::reverse_twice))]
    pub fn are_operands(&self) -> bool
        ensures { result ≡ all_operands (reverse self.now) }
    {
        self.items.are_operands()
    }

    /// Makes each type the least that it and the one at its place in another stack fit, and tells
    /// whether it did; it doesn't where the two are of unlike shapes.
    #[tactic(auto, using(crate::proofs::Stacks::reverse_twice, crate::proofs::Stacks::length_reverse))]
    pub fn raise(&mut self, alloc: Global, image: &Image, low: &Stack) -> Result<bool, NoMemory>
        requires tree { IsTree (superclasses image.now) }
        requires alike { length self.old ≡ length low.now }
        ensures { IfOk result (λ done. MatchBool done
            (reverse self.new ≡ types_joined (superclasses image.now) (reverse self.old) (reverse low.now))
            (self.new ≡ self.old)) }
    {
        let done = self.items.raise(alloc, image, &low.items)?;
        self.wide = self.items.longs();
        Ok(done)
    }

    /// Takes operands, and tells the lowest rule that they break.
    pub(crate) fn take(&mut self, image: &Image, owner: u32, needs: &[Need]) -> Option<u8>
        ensures rules { result ≡ lowest (needs_rules (superclasses image.now) owner needs.now self.old) }
        ensures rest { self.new ≡ drop (length needs.now) self.old }
    {
        let mut broken = None;
        for i in 0..needs.len() {
            match self.pop() {
                None => {
                    return lower(broken, Some(rule::MISSING));
                }
                Some(t) => broken = lower(broken, need_rule(image, owner, &needs[i], &t)),
            }
        }
        broken
    }

    /// The type below the newest, or Null.
    #[tactic(auto, using(crate::proofs::Stacks::no_second, crate::proofs::Stacks::second_there, crate::proofs::Stacks::second_not_there))]
    pub(crate) fn second(&self) -> FlowType
        ensures { result ≡ first_or FlowType.Null (drop 1 self.now) }
    {
        let count = self.items.len();
        if count < 2 {
            return FlowType::Null;
        }
        match self.items.get(count - 2) {
            Some(t) => t,
            None => FlowType::Null,
        }
    }

    /// Takes a group, and gives it.
    pub(crate) fn take_group(&mut self, group: Group) -> Taken
        ensures taken { IsTaken group self.old result }
        ensures rest { self.new ≡ under group self.old }
    {
        match group {
            Group::Nothing => Taken::Nothing,
            Group::One => match self.pop() {
                None => Taken::Missing,
                Some(t) if is_long(&t) => Taken::Split,
                Some(t) => Taken::One(t),
            },
            Group::Wide => match self.pop() {
                None => Taken::Missing,
                Some(t) if is_long(&t) => Taken::One(t),
                Some(t) => self.take_under(t),
            },
        }
    }

    /// Takes the second value of a pair.
    fn take_under(&mut self, first: FlowType) -> Taken
        ensures taken { IsPair first self.old result }
        ensures rest { self.new ≡ drop 1 self.old }
    {
        match self.pop() {
            None => Taken::Missing,
            Some(t) if is_long(&t) => Taken::Split,
            Some(t) => Taken::Two(first, t),
        }
    }

    /// Puts a group.
    pub(crate) fn put(&mut self, alloc: Global, taken: Taken) -> Result<(), NoMemory>
        ensures { OnOk result (self.new ≡ values taken ++ self.old) }
    {
        match taken {
            Taken::One(t) => self.push(alloc, t),
            Taken::Two(t, u) => {
                self.push(alloc, u)?;
                self.push(alloc, t)
            }
            _ => Ok(()),
        }
    }

    /// Puts so many stand-ins of one slot.
    pub(crate) fn fill(&mut self, alloc: Global, count: u8) -> Result<(), NoMemory>
        ensures { OnOk result (self.new ≡ replicate count FlowType.Null ++ self.old) }
    {
        for _ in 0..count {
            self.push(alloc, FlowType::Null)?;
        }
        Ok(())
    }
}

/// What was taken as a group: nothing, its values with the newest first, or why it isn't whole.
#[derive(Clone, Copy)]
pub enum Taken {
    Nothing,
    One(FlowType),
    Two(FlowType, FlowType),
    Missing,
    Split,
}

impl Taken {
    /// The rule that is broken where a group isn't whole.
    pub(crate) fn rule(self) -> Option<u8>
        ensures { result ≡ lowest (broken self) }
    {
        match self {
            Taken::Missing => Some(rule::MISSING),
            Taken::Split => Some(rule::OPERAND),
            _ => None,
        }
    }
}
