//! Handlers in a tree, in which those that cover an address are found without a look at each.

ghost use Rattle.std.specs.Prelude.{◌≡◌, ◌++◌, ◌∷◌, [], filter, List as Items, IfOk, OnOk, IsPermutation};
ghost use Rattle.std.specs.List.{list_any};
ghost use Rattle.flow_verifier.specs.declared.method.Handler.{Handler};
ghost use Rattle.flow_verifier.specs.Given.{covers};
ghost use Rattle.flow_verifier.specs.Worklist.HandlerTrees.{handlers_in, includes, AreWithin, IsBounded};

use crate::method::Handler;
use jvm_base::{List, NoMemory};
use std::alloc::Global;

/// Addresses from one up to another.
#[derive(Clone, Copy)]
pub(crate) struct Span {
    pub start: u32,
    pub until: u32,
}

/// Handlers in order: none, one, or those of two trees, whose ranges lie within a span. Where they
/// stand in the order of where they begin, the way to those that cover an address is short.
#[derive(Drop)]
pub(crate) enum HandlerTree {
    Nothing,
    One(Handler),
    Pair(Span, Box<HandlerTree>, Box<HandlerTree>),
}

impl Span {
    fn includes(self, at: u32) -> bool
        ensures { result ≡ includes self at }
    {
        self.start <= at && at < self.until
    }

    /// The least span in which two lie.
    fn with(self, other: Span) -> Span
        ensures { (hs gs : Items Handler) → AreWithin self hs → AreWithin other gs
            → AreWithin result (hs ++ gs) }
    {
        Span {
            start: self.start.min(other.start),
            until: self.until.max(other.until),
        }
    }
}

fn is_covered(at: u32, handler: &Handler) -> bool
    ensures { result ≡ covers at handler.now }
{
    handler.start <= at && at < handler.until
}

/// Adds a handler, if it covers an address.
fn add_covering(found: &mut List<Handler>, at: u32, handler: &Handler) -> Result<(), NoMemory>
    ensures { OnOk result (found.new ≡ found.old ++ filter (covers at) (handler.now ∷ [])) }
{
    if is_covered(at, handler) {
        found.push(*handler)
    } else {
        Ok(())
    }
}

/// Handlers in the order of where they begin.
fn sorted(alloc: Global, handlers: &[Handler]) -> Result<List<Handler>, NoMemory>
    ensures { IfOk result (λ hs. IsPermutation handlers.now hs) }
{
    let mut sorted = Vec::from_slice(alloc, handlers)?;
    sorted.sort_unstable_by_key(|handler| handler.start);
    Ok(List::from_vec(sorted))
}

/// The handlers of two trees.
fn pair(alloc: Global, first: HandlerTree, second: HandlerTree) -> Result<HandlerTree, NoMemory>
    requires first { IsBounded first }
    requires second { IsBounded second }
    ensures handlers { IfOk result (λ t. handlers_in t ≡ handlers_in first ++ handlers_in second) }
    ensures bounded { IfOk result (λ t. IsBounded t) }
{
    let span = first.span().with(second.span());
    let first = Box::new(alloc, first)?;
    let second = Box::new(alloc, second)?;
    Ok(HandlerTree::Pair(span, first, second))
}

/// A tree of handlers in their order.
fn tree_of(alloc: Global, handlers: &[Handler]) -> Result<HandlerTree, NoMemory>
    ensures handlers { IfOk result (λ t. handlers_in t ≡ handlers.now) }
    ensures bounded { IfOk result (λ t. IsBounded t) }
{
    match handlers.len() {
        0 => Ok(HandlerTree::Nothing),
        1 => Ok(HandlerTree::One(handlers[0])),
        count => {
            let first = tree_of(alloc, &handlers[..count / 2])?;
            let second = tree_of(alloc, &handlers[count / 2..])?;
            pair(alloc, first, second)
        }
    }
}

impl HandlerTree {
    /// A tree of a method's handlers.
    pub fn new(alloc: Global, handlers: &[Handler]) -> Result<HandlerTree, NoMemory>
        ensures handlers { IfOk result (λ t. IsPermutation handlers.now (handlers_in t)) }
        ensures bounded { IfOk result (λ t. IsBounded t) }
    {
        let sorted = sorted(alloc, handlers)?;
        tree_of(alloc, sorted.as_slice())
    }

    /// A span in which each handler's range lies.
    fn span(&self) -> Span
        requires { IsBounded self.now }
        ensures { AreWithin result (handlers_in self.now) }
    {
        match self {
            HandlerTree::Nothing => Span { start: 0, until: 0 },
            HandlerTree::One(handler) => Span {
                start: handler.start,
                until: handler.until,
            },
            HandlerTree::Pair(span, _, _) => *span,
        }
    }

    /// Whether one of the handlers covers an address.
    #[tactic(auto, using(crate::proofs::HandlerLaws::none_covers_outside, crate::proofs::HandlerLaws::any_parts))]
    pub fn any_covers(&self, at: u32) -> bool
        requires { IsBounded self.now }
        ensures { result ≡ list_any (covers at) (handlers_in self.now) }
    {
        match self {
            HandlerTree::Nothing => false,
            HandlerTree::One(handler) => is_covered(at, handler),
            HandlerTree::Pair(span, first, second) => {
                span.includes(at) && (first.any_covers(at) || second.any_covers(at))
            }
        }
    }

    /// Adds those that cover an address, in order.
    #[tactic(auto, using(crate::proofs::HandlerLaws::none_added_outside, crate::proofs::HandlerLaws::found_parts))]
    fn find(&self, at: u32, found: &mut List<Handler>) -> Result<(), NoMemory>
        requires { IsBounded self.now }
        ensures { OnOk result
            (found.new ≡ found.old ++ filter (covers at) (handlers_in self.now)) }
    {
        match self {
            HandlerTree::Nothing => Ok(()),
            HandlerTree::One(handler) => add_covering(found, at, handler),
            HandlerTree::Pair(span, first, second) => {
                if !span.includes(at) {
                    return Ok(());
                }
                first.find(at, found)?;
                second.find(at, found)
            }
        }
    }

    /// Those that cover an address. It takes time in their number, and in the depth of the tree.
    pub fn covering(&self, alloc: Global, at: u32) -> Result<List<Handler>, NoMemory>
        requires { IsBounded self.now }
        ensures { IfOk result (λ hs. hs ≡ filter (covers at) (handlers_in self.now)) }
    {
        let mut found = List::new(alloc);
        self.find(at, &mut found)?;
        Ok(found)
    }
}
