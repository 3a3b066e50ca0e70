//! A list of types that shares with others what they have in common.

ghost use Rattle.std.specs.Prelude.{◌≡◌, ◌<◌, ◌∷◌, ◌++◌, ◌+◌, [], length, slice_get, slice_set, take, IfOk, OnOk, OnErr, IfSome, MatchOption, Some};
ghost use Rattle.std.specs.Bool.{MatchBool};
ghost use Rattle.std.proofs.Math.ListN.{replicate};
ghost use Rattle.flow_types.specs.Tree.{superclasses, IsTree};
ghost use Rattle.flow_types.specs.TypeLists.{types_fit, types_joined};
ghost use Rattle.flow_types.specs.declared.flow_type.FlowType.TheVariants as flow;
ghost use Rattle.shared_types.specs.Trees.{types, IsSized, longs, all_operands, AreReplaced};

use crate::tree::{Joined, Tree, pair};
use flow_types::FlowType;
use jvm_base::{List, NoMemory};
use program_image::Image;
use std::alloc::Global;
use std::marker::Model;

/// How much room a list that is full grows by.
const GROWTH: usize = 16;

/// A list of types. A copy shares all of it, and a list with one type changed shares all but the
/// way to that type. What is Unusable throughout takes no room. Past its end the tree may hold
/// types that were taken off.
#[derive(Drop)]
pub struct Types {
    tree: Tree,
    room: usize,
    len: usize,
}

impl Model for Types {
    ghost use Rattle.std.specs.Prelude.{List as Items, take};
    ghost use Rattle.flow_types.specs.declared.flow_type.FlowType.{FlowType};
    ghost use Rattle.shared_types.specs.Trees.{types, IsWhole};

    ghost Value = { Items FlowType };

    ghost view = { λ a. take a.len (types a.tree) };

    ghost invariant = { λ a. IsWhole a.tree a.room a.len };
}

/// A tree, and how many types it has.
#[derive(Drop)]
struct Roomy {
    tree: Tree,
    room: usize,
}

impl Types {
    /// No types, with room for so many. It takes no memory.
    #[tactic(auto, using(crate::proofs::Laws::length_top))]
    pub fn new(room: usize) -> Types
        ensures { result ≡ [] }
    {
        Types {
            tree: Tree::Unusable(room),
            room,
            len: 0,
        }
    }

    /// So many types, each of them Unusable. It takes no memory.
    #[tactic(auto, using(crate::proofs::Laws::length_top, crate::proofs::Laws::first_of_top))]
    pub fn unusable(count: usize) -> Types
        ensures { result ≡ replicate count flow.Unusable }
    {
        Types {
            tree: Tree::Unusable(count),
            room: count,
            len: count,
        }
    }

    /// The same types. It takes no memory, whatever their number.
    pub fn share(&self) -> Result<Types, NoMemory>
        ensures { IfOk result (λ ts. ts ≡ self.now) }
    {
        Ok(Types {
            tree: self.tree.share()?,
            room: self.room,
            len: self.len,
        })
    }

    /// How many types there are.
    #[tactic(auto, using(crate::proofs::Laws::length_first))]
    pub fn len(&self) -> usize
        ensures { result ≡ length self.now }
    {
        self.len
    }

    /// How many of them are longs. It takes time in their number.
    pub fn longs(&self) -> usize
        ensures { result ≡ longs self.now }
    {
        self.tree.longs(self.len)
    }

    /// Whether each of them can stand on a stack. It takes time in their number.
    pub fn are_operands(&self) -> bool
        ensures { result ≡ all_operands self.now }
    {
        self.tree.are_operands(self.len)
    }

    /// The type at a place.
    #[tactic(auto, using(crate::proofs::Laws::get_first, crate::proofs::Laws::get_past))]
    pub fn get(&self, at: usize) -> Option<FlowType>
        ensures { result ≡ slice_get self.now at }
    {
        if at < self.len {
            self.tree.get(at)
        } else {
            None
        }
    }

    /// Puts another type at a place.
    #[tactic(auto, using(crate::proofs::Laws::length_first, crate::proofs::Laws::set_first, crate::proofs::Laws::set_length))]
    pub fn set(&mut self, alloc: Global, at: usize, t: FlowType) -> Result<(), NoMemory>
        requires { at < length self.old }
        ensures ok { OnOk result (self.new ≡ slice_set self.old at t) }
        ensures err { OnErr result (self.new ≡ self.old) }
    {
        self.tree = self.tree.set(alloc, at, t)?;
        Ok(())
    }

    /// A tree with the same types and room for one more.
    #[tactic(auto, using(crate::proofs::Laws::length_first, crate::proofs::Laws::length_top, crate::proofs::Laws::add_room))]
    fn roomy(&self, alloc: Global) -> Result<Roomy, NoMemory>
        ensures sized { IfOk result (λ r. IsSized r.tree) }
        ensures wide { IfOk result (λ r. r.room ≡ length (types r.tree)) }
        ensures more { IfOk result (λ r. length self.now < r.room) }
        ensures same { IfOk result (λ r. take (length self.now) (types r.tree) ≡ self.now) }
    {
        let tree = self.tree.share()?;
        if self.len < self.room {
            return Ok(Roomy {
                tree,
                room: self.room,
            });
        }
        let Some(room) = self.room.checked_add(GROWTH) else {
            return Err(NoMemory);
        };
        let tree = pair(alloc, tree, self.room, Tree::Unusable(GROWTH))?;
        Ok(Roomy { tree, room })
    }

    /// Adds a type at the end.
    #[tactic(auto, using(crate::proofs::Laws::length_first, crate::proofs::Laws::set_next, crate::proofs::Laws::set_length))]
    pub fn push(&mut self, alloc: Global, t: FlowType) -> Result<(), NoMemory>
        ensures ok { OnOk result (self.new ≡ self.old ++ t ∷ []) }
        ensures err { OnErr result (self.new ≡ self.old) }
    {
        let Roomy { tree, room } = self.roomy(alloc)?;
        self.tree = tree.set(alloc, self.len, t)?;
        self.room = room;
        self.len += 1;
        Ok(())
    }

    /// Takes the last type; `None` exactly where there is none. It takes no memory.
    #[tactic(auto, using(crate::proofs::Laws::last_one, crate::proofs::Laws::get_there))]
    pub fn pop(&mut self) -> Option<FlowType>
        ensures { MatchOption result ((self.old ≡ []) × (self.new ≡ []))
            (λ t. self.old ≡ self.new ++ t ∷ []) }
    {
        if self.len == 0 {
            return None;
        }
        match self.tree.get(self.len - 1) {
            Some(t) => {
                self.len -= 1;
                Some(t)
            }
            None => unreachable!(),
        }
    }

    /// Puts a type in place of each copy of another one.
    #[tactic(auto, using(crate::proofs::Laws::replaced_first, crate::proofs::Laws::replaced_length))]
    pub fn replace(&mut self, alloc: Global, was: FlowType, now: FlowType) -> Result<(), NoMemory>
        requires usable { was ≡ flow.Unusable → ⊥ }
        ensures ok { OnOk result (AreReplaced was now self.old self.new) }
        ensures err { OnErr result (self.new ≡ self.old) }
    {
        if let Some(tree) = self.tree.replace(alloc, was, now)? {
            self.tree = tree;
        }
        Ok(())
    }

    /// Whether each type fits the one at its place in another list; `None` only where the two are
    /// of unlike shapes.
    #[tactic(auto, using(crate::proofs::Laws::length_first, flow_types::proofs::Lists::unlike_fit))]
    pub fn fit(&self, image: &Image, high: &Types) -> Option<bool>
        ensures { IfSome result (λ b. b ≡ types_fit (superclasses image.now) self.now high.now) }
    {
        if self.len != high.len {
            return Some(false);
        }
        if self.room != high.room {
            return None;
        }
        self.tree.fit(image, &high.tree, self.len)
    }

    /// Makes each type the least that it and the one at its place in another list fit, and tells
    /// whether it did; it doesn't where the two are of unlike shapes. Where no type rises it takes
    /// no memory.
    #[tactic(auto, using(crate::proofs::Laws::joined_first, crate::proofs::Laws::length_first, crate::proofs::Laws::joined_wide))]
    pub fn raise(&mut self, alloc: Global, image: &Image, low: &Types) -> Result<bool, NoMemory>
        requires tree { IsTree (superclasses image.now) }
        requires alike { length self.old ≡ length low.now }
        ensures ok { IfOk result (λ done. MatchBool done
            (self.new ≡ types_joined (superclasses image.now) self.old low.now)
            (self.new ≡ self.old)) }
        ensures err { OnErr result (self.new ≡ self.old) }
    {
        if self.room != low.room {
            return Ok(false);
        }
        match self.tree.join(alloc, image, &low.tree)? {
            Joined::Same => Ok(true),
            Joined::New(tree) => {
                self.tree = tree;
                Ok(true)
            }
            Joined::Unlike => Ok(false),
        }
    }

    /// The types as a list of their own.
    #[tactic(auto, using(crate::proofs::Laws::length_first, crate::proofs::Laws::one_more, crate::proofs::Laws::all_taken, crate::proofs::Laws::get_there))]
    pub fn to_list(&self, alloc: Global) -> Result<List<FlowType>, NoMemory>
        ensures { IfOk result (λ ts. ts ≡ self.now) }
    {
        let mut list = List::new(alloc);
        for i in 0..self.len() {
            match self.get(i) {
                Some(t) => list.push(t)?,
                None => unreachable!(),
            }
        }
        Ok(list)
    }

    /// Puts a type at a place that is Unusable.
    #[tactic(auto, using(crate::proofs::Laws::set_same))]
    fn fill(&mut self, alloc: Global, at: usize, t: FlowType) -> Result<(), NoMemory>
        requires within { at < length self.old }
        requires unusable { slice_get self.old at ≡ Some flow.Unusable }
        ensures { OnOk result (self.new ≡ slice_set self.old at t) }
    {
        match t {
            FlowType::Unusable => Ok(()),
            _ => self.set(alloc, at, t),
        }
    }

    /// A list's types. Those that are Unusable throughout take no memory.
    #[tactic(auto, using(crate::proofs::Laws::begun_none, crate::proofs::Laws::begun_all, crate::proofs::Laws::begun_more, crate::proofs::Laws::begun_at, crate::proofs::Laws::begun_length))]
    pub fn from_list(alloc: Global, list: &[FlowType]) -> Result<Types, NoMemory>
        ensures { IfOk result (λ ts. ts ≡ list.now) }
    {
        let mut types = Types::unusable(list.len());
        for i in 0..list.len() {
            types.fill(alloc, i, list[i])?;
        }
        Ok(types)
    }
}
