//! A list of types as a tree.

ghost use Rattle.std.specs.Prelude.{List as Supers, Option, ℕ, ◌≡◌, ◌<◌, ◌++◌, ◌∷◌, [], length, slice_get, slice_set, take, IfOk, IfSome};
ghost use Rattle.std.proofs.Math.ListN.{replicate};
ghost use Rattle.flow_types.specs.Tree.{superclasses, IsTree};
ghost use Rattle.flow_types.specs.TypeLists.{types_fit};
ghost use Rattle.flow_types.specs.declared.flow_type.FlowType.{FlowType};
ghost use Rattle.flow_types.specs.declared.flow_type.FlowType.TheVariants as flow;
ghost use Rattle.shared_types.specs.declared.tree.Tree.{Tree};
ghost use Rattle.shared_types.specs.Trees.{types, is_sized, IsSized, IsJoined, IsReplaced, all_unusable, all_operands, longs};

use crate::block::Block;
use flow_types::FlowType;
use jvm_base::NoMemory;
use program_image::Image;
use shared_value::Shared;
use std::alloc::Global;
use std::sync::Arc;

/// So many types at most stand in one block.
const BLOCK: usize = 32;

/// Types in order: so many that are Unusable, a block of a few, or those of two trees. A pair knows
/// how many its first tree has.
#[derive(Drop)]
pub(crate) enum Tree {
    Unusable(usize),
    Few(Shared<Block>),
    Pair(Arc<Tree, Global>, usize, Arc<Tree, Global>),
}

/// The types above those of two trees: the first tree's, those of another, or not known since the
/// trees are of unlike shapes.
#[derive(Drop)]
pub(crate) enum Joined {
    Same,
    New(Tree),
    Unlike,
}

/// A tree of the types of two, of which the first has so many.
pub(crate) fn pair(alloc: Global, first: Tree, count: usize, second: Tree) -> Result<Tree, NoMemory>
    requires first { IsSized first }
    requires second { IsSized second }
    requires count { count ≡ length (types first) }
    ensures types { IfOk result (λ t. types t ≡ types first ++ types second) }
    ensures sized { IfOk result (λ t. IsSized t) }
{
    let first = Arc::new(alloc, first)?;
    let second = Arc::new(alloc, second)?;
    Ok(Tree::Pair(first, count, second))
}

/// A tree of one block.
fn few(alloc: Global, block: Block) -> Result<Tree, NoMemory>
    ensures types { IfOk result (λ t. types t ≡ block) }
    ensures sized { IfOk result (λ t. IsSized t) }
{
    Ok(Tree::Few(Shared::new(alloc, block)?))
}

/// So many types, Unusable but for the one at a place. Only a range of a few becomes a block.
#[tactic(auto, using(crate::proofs::Laws::split_left, crate::proofs::Laws::split_right, crate::proofs::Laws::length_top))]
fn one_of(alloc: Global, count: usize, at: usize, t: FlowType) -> Result<Tree, NoMemory>
    requires { at < count }
    ensures types { IfOk result
        (λ tree. types tree ≡ slice_set (replicate count flow.Unusable) at t) }
    ensures sized { IfOk result (λ tree. IsSized tree) }
{
    if count <= BLOCK {
        return few(alloc, Block::alone(alloc, count, at, t)?);
    }
    let half = count / 2;
    if at < half {
        let first = one_of(alloc, half, at, t)?;
        pair(alloc, first, half, Tree::Unusable(count - half))
    } else {
        let second = one_of(alloc, count - half, at - half, t)?;
        pair(alloc, Tree::Unusable(half), half, second)
    }
}

/// The types above those of two blocks. Where none rises it takes no memory.
#[tactic(auto, using(crate::proofs::Laws::fit_joined, crate::proofs::Laws::all_taken))]
fn join_blocks(alloc: Global, image: &Image, high: &Block, low: &Block) -> Result<Joined, NoMemory>
    requires tree { IsTree (superclasses image.now) }
    requires alike { length high.now ≡ length low.now }
    ensures { IfOk result (λ j. IsJoined (superclasses image.now) high.now low.now j) }
{
    if low.fit(image, high, high.len()) {
        return Ok(Joined::Same);
    }
    Ok(Joined::New(few(alloc, high.joined(alloc, image, low)?)?))
}

/// A block with another type in place of each copy of one.
fn replace_block(
    alloc: Global,
    block: &Block,
    was: FlowType,
    now: FlowType,
) -> Result<Option<Tree>, NoMemory>
    requires { was ≡ flow.Unusable → ⊥ }
    ensures { IfOk result (λ o. IsReplaced was now block.now o) }
{
    if !block.has(was) {
        return Ok(None);
    }
    Ok(Some(few(alloc, block.replaced(alloc, was, now)?)?))
}

/// What a pair's parts are joined to, as a tree of both.
#[tactic(auto, using(crate::proofs::Laws::parts_above, crate::proofs::Laws::joined_first_length))]
fn join_parts(
    alloc: Global,
    first: &Arc<Tree, Global>,
    count: usize,
    second: &Arc<Tree, Global>,
    before: Joined,
    after: Joined,
) -> Result<Joined, NoMemory>
    ensures { (supers : Supers (Option ℕ)) (low high : Tree)
        → IsSized first.now.value → IsSized second.now.value
        → count ≡ length (types first.now.value)
        → length (types first.now.value) ≡ length (types low)
        → IsJoined supers (types first.now.value) (types low) before
        → IsJoined supers (types second.now.value) (types high) after
        → IfOk result (λ j. IsJoined supers (types first.now.value ++ types second.now.value)
        (types low ++ types high) j) }
{
    match before {
        Joined::Unlike => Ok(Joined::Unlike),
        Joined::Same => match after {
            Joined::Unlike => Ok(Joined::Unlike),
            Joined::Same => Ok(Joined::Same),
            Joined::New(later) => {
                let later = Arc::new(alloc, later)?;
                Ok(Joined::New(Tree::Pair(Arc::try_clone(first)?, count, later)))
            }
        },
        Joined::New(former) => {
            let former = Arc::new(alloc, former)?;
            match after {
                Joined::Unlike => Ok(Joined::Unlike),
                Joined::Same => {
                    Ok(Joined::New(Tree::Pair(former, count, Arc::try_clone(second)?)))
                }
                Joined::New(later) => {
                    let later = Arc::new(alloc, later)?;
                    Ok(Joined::New(Tree::Pair(former, count, later)))
                }
            }
        }
    }
}

/// What a pair's parts are replaced by, as a tree of both.
#[tactic(auto, using(crate::proofs::Laws::replaced_parts, crate::proofs::Laws::replaced_length))]
fn replace_parts(
    alloc: Global,
    first: &Arc<Tree, Global>,
    count: usize,
    second: &Arc<Tree, Global>,
    before: Option<Tree>,
    after: Option<Tree>,
) -> Result<Option<Tree>, NoMemory>
    requires first { IsSized first.now.value }
    requires second { IsSized second.now.value }
    requires count { count ≡ length (types first.now.value) }
    ensures { (was now : FlowType)
        → IsReplaced was now (types first.now.value) before
        → IsReplaced was now (types second.now.value) after
        → IfOk result (λ o. IsReplaced was now (types first.now.value ++ types second.now.value) o) }
{
    match before {
        None => match after {
            None => Ok(None),
            Some(later) => {
                let later = Arc::new(alloc, later)?;
                Ok(Some(Tree::Pair(Arc::try_clone(first)?, count, later)))
            }
        },
        Some(former) => {
            let former = Arc::new(alloc, former)?;
            match after {
                None => Ok(Some(Tree::Pair(former, count, Arc::try_clone(second)?))),
                Some(later) => {
                    let later = Arc::new(alloc, later)?;
                    Ok(Some(Tree::Pair(former, count, later)))
                }
            }
        }
    }
}

impl Tree {
    /// The same types. It takes no memory.
    pub fn share(&self) -> Result<Tree, NoMemory>
        ensures types { IfOk result (λ t. types t ≡ types self.now) }
        ensures sized { IfOk result (λ t. is_sized t ≡ is_sized self.now) }
    {
        match self {
            Tree::Unusable(count) => Ok(Tree::Unusable(*count)),
            Tree::Few(block) => Ok(Tree::Few(block.share()?)),
            Tree::Pair(first, count, second) => Ok(Tree::Pair(
                Arc::try_clone(first)?,
                *count,
                Arc::try_clone(second)?,
            )),
        }
    }

    /// The type at a place.
    #[tactic(auto, using(crate::proofs::Laws::get_left, crate::proofs::Laws::get_right))]
    pub fn get(&self, at: usize) -> Option<FlowType>
        requires { IsSized self.now }
        ensures { result ≡ slice_get (types self.now) at }
    {
        match self {
            Tree::Unusable(count) => {
                if at < *count {
                    Some(FlowType::Unusable)
                } else {
                    None
                }
            }
            Tree::Few(block) => block.get().get(at),
            Tree::Pair(first, count, second) => {
                if at < *count {
                    first.get(at)
                } else {
                    second.get(at - *count)
                }
            }
        }
    }

    /// The tree with another type at a place.
    #[tactic(auto, using(crate::proofs::Laws::set_left, crate::proofs::Laws::set_right))]
    pub fn set(&self, alloc: Global, at: usize, t: FlowType) -> Result<Tree, NoMemory>
        requires sized { IsSized self.now }
        requires within { at < length (types self.now) }
        ensures types { IfOk result (λ tree. types tree ≡ slice_set (types self.now) at t) }
        ensures sized { IfOk result (λ tree. IsSized tree) }
    {
        match self {
            Tree::Unusable(count) => one_of(alloc, *count, at, t),
            Tree::Few(block) => few(alloc, block.get().set(alloc, at, t)?),
            Tree::Pair(first, count, second) => {
                if at < *count {
                    let first = Arc::new(alloc, first.set(alloc, at, t)?)?;
                    Ok(Tree::Pair(first, *count, Arc::try_clone(second)?))
                } else {
                    let second = Arc::new(alloc, second.set(alloc, at - *count, t)?)?;
                    Ok(Tree::Pair(Arc::try_clone(first)?, *count, second))
                }
            }
        }
    }

    /// Whether the first types are Unusable, so many of them.
    #[tactic(auto, using(crate::proofs::Laws::unusable_first_parts, crate::proofs::Laws::first_unusable))]
    pub fn are_unusable(&self, n: usize) -> bool
        requires sized { IsSized self.now }
        ensures { result ≡ all_unusable (take n (types self.now)) }
    {
        match self {
            Tree::Unusable(_) => true,
            Tree::Few(block) => block.get().are_unusable(n),
            Tree::Pair(first, count, second) => {
                first.are_unusable(n) && (n <= *count || second.are_unusable(n - *count))
            }
        }
    }

    /// Whether the first types, so many of them, fit those of another tree of as many types; `None`
    /// only where the trees are of unlike shapes.
    #[tactic(auto, using(crate::proofs::Laws::fit_first_parts, crate::proofs::Laws::fit_first_top, crate::proofs::Laws::top_fits_first))]
    pub fn fit(&self, image: &Image, high: &Tree, n: usize) -> Option<bool>
        requires low { IsSized self.now }
        requires high { IsSized high.now }
        requires alike { length (types self.now) ≡ length (types high.now) }
        ensures { IfSome result
            (λ b. b ≡ types_fit (superclasses image.now) (take n (types self.now))
            (take n (types high.now))) }
    {
        if let Tree::Unusable(_) = high {
            return Some(true);
        }
        match self {
            Tree::Unusable(_) => Some(high.are_unusable(n)),
            Tree::Few(low) => match high {
                Tree::Few(up) => Some(low.get().fit(image, up.get(), n)),
                _ => None,
            },
            Tree::Pair(first, count, second) => match high {
                Tree::Pair(over, other, above) if *count == *other => {
                    if !first.fit(image, over, n)? {
                        return Some(false);
                    }
                    if n <= *count {
                        return Some(true);
                    }
                    second.fit(image, above, n - *count)
                }
                _ => None,
            },
        }
    }

    /// Whether the first types can stand on a stack, so many of them.
    #[tactic(auto, using(crate::proofs::Laws::operands_first_parts, crate::proofs::Laws::none_first, crate::proofs::Laws::none_there, crate::proofs::Laws::no_operand))]
    pub fn are_operands(&self, n: usize) -> bool
        requires sized { IsSized self.now }
        ensures { result ≡ all_operands (take n (types self.now)) }
    {
        match self {
            Tree::Unusable(count) => n == 0 || *count == 0,
            Tree::Few(block) => block.get().are_operands(n),
            Tree::Pair(first, count, second) => {
                first.are_operands(n) && (n <= *count || second.are_operands(n - *count))
            }
        }
    }

    /// How many of the first types are longs, out of so many.
    #[tactic(auto, using(crate::proofs::Laws::longs_first_parts, crate::proofs::Laws::first_longs, crate::proofs::Laws::few_in, crate::proofs::Laws::longs_past))]
    pub fn longs(&self, n: usize) -> usize
        requires sized { IsSized self.now }
        ensures { result ≡ longs (take n (types self.now)) }
    {
        match self {
            Tree::Unusable(_) => 0,
            Tree::Few(block) => block.get().longs(n),
            Tree::Pair(first, count, second) => {
                if n <= *count {
                    first.longs(n)
                } else {
                    first.longs(*count) + second.longs(n - *count)
                }
            }
        }
    }

    /// The types above this tree's and those of another one.
    #[tactic(auto, using(crate::proofs::Laws::joined_parts, crate::proofs::Laws::joined_with_top, crate::proofs::Laws::top_joined))]
    pub fn join(&self, alloc: Global, image: &Image, low: &Tree) -> Result<Joined, NoMemory>
        requires tree { IsTree (superclasses image.now) }
        requires high { IsSized self.now }
        requires low { IsSized low.now }
        requires alike { length (types self.now) ≡ length (types low.now) }
        ensures { IfOk result
            (λ j. IsJoined (superclasses image.now) (types self.now) (types low.now) j) }
    {
        if let Tree::Unusable(_) = self {
            return Ok(Joined::Same);
        }
        match low {
            Tree::Unusable(count) => Ok(Joined::New(Tree::Unusable(*count))),
            Tree::Few(b) => match self {
                Tree::Few(a) => join_blocks(alloc, image, a.get(), b.get()),
                _ => Ok(Joined::Unlike),
            },
            Tree::Pair(under, other, below) => match self {
                Tree::Pair(first, count, second) if *count == *other => {
                    let before = first.join(alloc, image, under)?;
                    let after = second.join(alloc, image, below)?;
                    join_parts(alloc, first, *count, second, before, after)
                }
                _ => Ok(Joined::Unlike),
            },
        }
    }

    /// Puts a type in place of each copy of another one; `None` where there is no copy.
    #[tactic(auto, using(crate::proofs::Laws::none_replaced, crate::proofs::Laws::counted))]
    pub fn replace(
        &self,
        alloc: Global,
        was: FlowType,
        now: FlowType,
    ) -> Result<Option<Tree>, NoMemory>
        requires sized { IsSized self.now }
        requires usable { was ≡ flow.Unusable → ⊥ }
        ensures { IfOk result (λ o. IsReplaced was now (types self.now) o) }
    {
        match self {
            Tree::Unusable(_) => Ok(None),
            Tree::Few(block) => replace_block(alloc, block.get(), was, now),
            Tree::Pair(first, count, second) => {
                let before = first.replace(alloc, was, now)?;
                let after = second.replace(alloc, was, now)?;
                replace_parts(alloc, first, *count, second, before, after)
            }
        }
    }
}
