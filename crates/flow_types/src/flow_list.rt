//! Lists of types.

ghost use Rattle.std.specs.Prelude.{◌≡◌, IfOk, MatchOption, length, slice_get, slice_set, true};
ghost use Rattle.flow_types.specs.Tree.{superclasses, IsTree};
ghost use Rattle.flow_types.specs.Types.{joined};
ghost use Rattle.flow_types.specs.TypeLists.{types_fit, types_joined, stacks_joined, stacks_meet, is_operand};

use crate::flow_type::{FlowType, fits, merge_type};
use jvm_base::{List, NoMemory};
use program_image::Image;
use std::alloc::Global;

/// Whether the lists have one length and each type fits the one at its place.
pub(crate) fn types_fit(image: &Image, low: &[FlowType], high: &[FlowType]) -> bool
    ensures { result ≡ types_fit (superclasses image.now) low.now high.now }
{
    if low.len() != high.len() {
        return false;
    }
    for i in 0..low.len() {
        if !fits(image, &low[i], &high[i]) {
            return false;
        }
    }
    true
}

/// The locals above two lists of one length.
pub(crate) fn merge_locals(
    alloc: Global,
    image: &Image,
    a: &[FlowType],
    b: &[FlowType],
) -> Result<List<FlowType>, NoMemory>
    requires tree { IsTree (superclasses image.now) }
    ensures { IfOk result (λ out. out ≡ types_joined (superclasses image.now) a.now b.now) }
{
    let mut out = List::new(alloc);
    for i in 0..a.len().min(b.len()) {
        out.push(merge_type(image, a[i], b[i]))?;
    }
    Ok(out)
}

/// The stack above two, where there is one.
pub(crate) fn merge_stacks(
    alloc: Global,
    image: &Image,
    a: &[FlowType],
    b: &[FlowType],
) -> Result<Option<List<FlowType>>, NoMemory>
    requires tree { IsTree (superclasses image.now) }
    ensures { IfOk result (λ out. out ≡ stacks_joined (superclasses image.now) a.now b.now) }
{
    if a.len() != b.len() {
        return Ok(None);
    }
    let mut out = List::new(alloc);
    for i in 0..a.len() {
        let above = merge_type(image, a[i], b[i]);
        if let FlowType::Unusable | FlowType::High = above {
            return Ok(None);
        }
        out.push(above)?;
    }
    Ok(Some(out))
}

fn is_operand(t: FlowType) -> bool
    ensures { result ≡ is_operand t }
{
    !matches!(t, FlowType::Unusable | FlowType::High)
}

/// Whether there is a stack above two.
pub(crate) fn stacks_meet(image: &Image, a: &[FlowType], b: &[FlowType]) -> bool
    requires tree { IsTree (superclasses image.now) }
    ensures { result ≡ stacks_meet (superclasses image.now) a.now b.now }
{
    if a.len() != b.len() {
        return false;
    }
    for i in 0..a.len() {
        if !is_operand(merge_type(image, a[i], b[i])) {
            return false;
        }
    }
    true
}

/// Makes the type at a place the least that both fit.
fn raise_at(image: &Image, list: &mut List<FlowType>, at: usize, low: FlowType)
    requires tree { IsTree (superclasses image.now) }
    ensures { MatchOption (slice_get list.old at) (list.new ≡ list.old)
        (λ t. list.new ≡ slice_set list.old at (joined (superclasses image.now) t low)) }
{
    if let Some(found) = list.get(at) {
        let t = *found;
        list.set(at, merge_type(image, t, low));
    }
}

/// Makes each type the least that it and the one at its place fit.
pub(crate) fn raise_types(image: &Image, list: &mut List<FlowType>, low: &[FlowType])
    requires tree { IsTree (superclasses image.now) }
    requires long { length list.old ≡ length low.now }
    ensures { list.new ≡ types_joined (superclasses image.now) list.old low.now }
{
    for i in 0..low.len() {
        raise_at(image, list, i, low[i]);
    }
}
