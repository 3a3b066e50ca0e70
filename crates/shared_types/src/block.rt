//! Types that stand in one block of memory.

ghost use Rattle.std.specs.Prelude.{◌≡◌, ◌<◌, ◌≤◌, ◌∷◌, ◌++◌, [], length, slice_get, slice_set, take, false, IfOk, OnOk};
ghost use Rattle.std.specs.Option.{option_copied};
ghost use Rattle.std.proofs.Math.ListN.{replicate};
ghost use Rattle.flow_types.specs.Tree.{superclasses, IsTree};
ghost use Rattle.flow_types.specs.Types.{type_fits};
ghost use Rattle.flow_types.specs.TypeLists.{types_fit, types_joined};
ghost use Rattle.flow_types.specs.declared.flow_type.FlowType.{FlowType};
ghost use Rattle.flow_types.specs.declared.flow_type.FlowType.TheVariants as flow;
ghost use Rattle.shared_types.specs.Blocks.{is_unusable, used_from, fits_if_there};
ghost use Rattle.shared_types.specs.Trees.{all_unusable, all_operands, longs, more_slots, AreReplaced};

use flow_types::{FlowType, fits, merge_type};
use jvm_base::{List, NoMemory};
use program_image::Image;
use std::alloc::Global;
use std::marker::Model;

/// A few types in order, and the places of those that aren't Unusable, in rising order. Blocks are
/// compared at the places that the higher one uses alone, since any type fits Unusable.
#[derive(Drop)]
pub(crate) struct Block {
    types: List<FlowType>,
    used: List<u8>,
}

impl Model for Block {
    ghost use Rattle.std.specs.Prelude.{List as Items};
    ghost use Rattle.flow_types.specs.declared.flow_type.FlowType.{FlowType};
    ghost use Rattle.shared_types.specs.Blocks.{IsIndexed};

    ghost Value = { Items FlowType };

    ghost view = { λ b. b.types };

    ghost invariant = { λ b. IsIndexed b.types b.used };
}

/// The first types, so many of them.
#[tactic(auto, using(crate::proofs::Laws::all_taken))]
fn first(types: &[FlowType], n: usize) -> &[FlowType]
    ensures { result.now ≡ take n types.now }
{
    if n < types.len() { &types[..n] } else { types }
}

fn is_unusable(t: &FlowType) -> bool
    ensures { result ≡ is_unusable t.now }
{
    matches!(t, FlowType::Unusable)
}

/// Whether all can stand on a stack.
fn all_operands(types: &[FlowType]) -> bool
    ensures { result ≡ all_operands types.now }
{
    for i in 0..types.len() {
        if matches!(types[i], FlowType::Unusable | FlowType::High) {
            return false;
        }
    }
    true
}

fn more_slots(t: &FlowType) -> usize
    ensures slots { result ≡ more_slots t.now }
    ensures few { result ≤ 1 }
{
    if let FlowType::Long = t { 1 } else { 0 }
}

/// How many are longs.
#[tactic(auto, using(crate::proofs::Laws::few_of, crate::proofs::Laws::longs_next))]
fn count_longs(types: &[FlowType]) -> usize
    ensures { result ≡ longs types.now }
{
    let mut count = 0;
    for i in 0..types.len() {
        count += more_slots(&types[i]);
    }
    count
}

/// Adds a place where its type isn't Unusable.
fn add_used(used: &mut List<u8>, at: usize, t: &FlowType) -> Result<(), NoMemory>
    requires { at < 256 }
    ensures { OnOk result (used.new ≡ used.old ++ used_from at (t.now ∷ [])) }
{
    if is_unusable(t) {
        return Ok(());
    }
    used.push(at as u8)
}

/// The places of the types that aren't Unusable.
#[tactic(auto, using(crate::proofs::Laws::used_next, crate::proofs::Laws::all_taken))]
fn used_places(alloc: Global, types: &[FlowType]) -> Result<List<u8>, NoMemory>
    requires { length types.now ≤ 256 }
    ensures { IfOk result (λ used. used ≡ used_from 0 types.now) }
{
    let mut used = List::new(alloc);
    for at in 0..types.len() {
        add_used(&mut used, at, &types[at])?;
    }
    Ok(used)
}

/// Whether the types at a place fit. What lies past the end of one list fits.
fn fits_there(image: &Image, low: &[FlowType], high: &[FlowType], at: usize) -> bool
    ensures { result
        ≡ fits_if_there (superclasses image.now) (slice_get low.now at) (slice_get high.now at) }
{
    at >= low.len() || at >= high.len() || fits(image, &low[at], &high[at])
}

/// Whether the first types fit those of a list of which these places are in use, so many of them.
#[tactic(auto, using(crate::proofs::Laws::used_fit))]
fn all_fit(image: &Image, low: &[FlowType], high: &[FlowType], used: &[u8], n: usize) -> bool
    requires alike { length low.now ≡ length high.now }
    requires used { used.now ≡ used_from 0 high.now }
    ensures { result ≡ types_fit (superclasses image.now) (take n low.now) (take n high.now) }
{
    let low = first(low, n);
    let high = first(high, n);
    for i in 0..used.len() {
        if !fits_there(image, low, high, used[i] as usize) {
            return false;
        }
    }
    true
}

/// The types above those of two lists.
#[tactic(auto, using(crate::proofs::Laws::all_taken))]
fn joined(
    alloc: Global,
    image: &Image,
    high: &[FlowType],
    low: &[FlowType],
) -> Result<List<FlowType>, NoMemory>
    requires tree { IsTree (superclasses image.now) }
    requires alike { length high.now ≡ length low.now }
    ensures { IfOk result (λ ts. ts ≡ types_joined (superclasses image.now) high.now low.now) }
{
    let mut out = List::new(alloc);
    for i in 0..high.len() {
        out.push(merge_type(image, high[i], low[i]))?;
    }
    Ok(out)
}

fn is_there(types: &[FlowType], at: usize, t: FlowType) -> bool
    ensures { result ≡ false → slice_get types.now at ≡ Some t → ⊥ }
{
    at < types.len() && types[at] == t
}

/// Whether a type that isn't Unusable is among those of which these places are in use: where it
/// isn't, to put another in place of each copy changes nothing.
fn has(types: &[FlowType], used: &[u8], t: FlowType) -> bool
    requires used { used.now ≡ used_from 0 types.now }
    requires usable { t ≡ flow.Unusable → ⊥ }
    ensures { result ≡ false → (u : FlowType) → AreReplaced t u types.now types.now }
{
    for i in 0..used.len() {
        if is_there(types, used[i] as usize, t) {
            return true;
        }
    }
    false
}

fn put_for(t: FlowType, was: FlowType, now: FlowType) -> FlowType
    ensures { AreReplaced was now (t ∷ []) (result ∷ []) }
{
    if t == was { now } else { t }
}

/// The types, with another one in place of each copy of one.
#[tactic(auto, using(crate::proofs::Laws::replaced_next, crate::proofs::Laws::all_taken))]
fn replaced(
    alloc: Global,
    types: &[FlowType],
    was: FlowType,
    now: FlowType,
) -> Result<List<FlowType>, NoMemory>
    ensures { IfOk result (λ ts. AreReplaced was now types.now ts) }
{
    let mut out = List::new(alloc);
    for i in 0..types.len() {
        out.push(put_for(types[i], was, now))?;
    }
    Ok(out)
}

impl Block {
    /// A block of a list's types.
    fn new(alloc: Global, types: List<FlowType>) -> Result<Block, NoMemory>
        requires { length types ≤ 256 }
        ensures { IfOk result (λ b. b ≡ types) }
    {
        let used = used_places(alloc, types.as_slice())?;
        Ok(Block { types, used })
    }

    /// A block of so many types, Unusable but for the one at a place.
    #[tactic(auto, using(crate::proofs::Laws::length_top, crate::proofs::Laws::set_length))]
    pub fn alone(alloc: Global, count: usize, at: usize, t: FlowType) -> Result<Block, NoMemory>
        requires within { at < count }
        requires few { count ≤ 256 }
        ensures { IfOk result (λ b. b ≡ slice_set (replicate count flow.Unusable) at t) }
    {
        let mut types = List::from_vec(vec![in alloc; FlowType::Unusable; count]?);
        types.set(at, t);
        Block::new(alloc, types)
    }

    /// The block with another type at a place.
    #[tactic(auto, using(crate::proofs::Laws::set_length))]
    pub fn set(&self, alloc: Global, at: usize, t: FlowType) -> Result<Block, NoMemory>
        requires { at < length self.now }
        ensures { IfOk result (λ b. b ≡ slice_set self.now at t) }
    {
        let mut types = List::new(alloc);
        types.append(self.types.as_slice())?;
        types.set(at, t);
        Block::new(alloc, types)
    }

    /// How many types there are.
    pub fn len(&self) -> usize
        ensures { result ≡ length self.now }
    {
        self.types.len()
    }

    /// The type at a place.
    pub fn get(&self, at: usize) -> Option<FlowType>
        ensures { result ≡ slice_get self.now at }
    {
        self.types.get(at).copied()
    }

    /// Whether the first types are Unusable, so many of them.
    #[tactic(auto, using(crate::proofs::Laws::none_used, crate::proofs::Laws::used_from_there, crate::proofs::Laws::used_before))]
    pub fn are_unusable(&self, n: usize) -> bool
        ensures { result ≡ all_unusable (take n self.now) }
    {
        match self.used.get(0) {
            Some(place) => n <= *place as usize,
            None => true,
        }
    }

    /// Whether the first types can stand on a stack, so many of them.
    pub fn are_operands(&self, n: usize) -> bool
        ensures { result ≡ all_operands (take n self.now) }
    {
        all_operands(first(self.types.as_slice(), n))
    }

    /// How many of the first types are longs, out of so many.
    pub fn longs(&self, n: usize) -> usize
        ensures { result ≡ longs (take n self.now) }
    {
        count_longs(first(self.types.as_slice(), n))
    }

    /// Whether the first types, so many of them, fit those of another block of as many types.
    pub fn fit(&self, image: &Image, high: &Block, n: usize) -> bool
        requires { length self.now ≡ length high.now }
        ensures { result ≡ types_fit (superclasses image.now) (take n self.now) (take n high.now) }
    {
        all_fit(
            image,
            self.types.as_slice(),
            high.types.as_slice(),
            high.used.as_slice(),
            n,
        )
    }

    /// The types above this block's and those of another one.
    #[tactic(auto, using(crate::proofs::Laws::joined_first_length))]
    pub fn joined(&self, alloc: Global, image: &Image, low: &Block) -> Result<Block, NoMemory>
        requires tree { IsTree (superclasses image.now) }
        requires alike { length self.now ≡ length low.now }
        ensures { IfOk result (λ b. b ≡ types_joined (superclasses image.now) self.now low.now) }
    {
        let types = joined(alloc, image, self.types.as_slice(), low.types.as_slice())?;
        Block::new(alloc, types)
    }

    /// Whether a type that isn't Unusable is among the block's: where it isn't, to put another in
    /// place of each copy changes nothing.
    pub fn has(&self, t: FlowType) -> bool
        requires { t ≡ flow.Unusable → ⊥ }
        ensures { result ≡ false → (u : FlowType) → AreReplaced t u self.now self.now }
    {
        has(self.types.as_slice(), self.used.as_slice(), t)
    }

    /// The block with another type in place of each copy of one.
    #[tactic(auto, using(crate::proofs::Laws::replaced_length))]
    pub fn replaced(&self, alloc: Global, was: FlowType, now: FlowType) -> Result<Block, NoMemory>
        ensures { IfOk result (λ b. AreReplaced was now self.now b) }
    {
        let types = replaced(alloc, self.types.as_slice(), was, now)?;
        Block::new(alloc, types)
    }
}
