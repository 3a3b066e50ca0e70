//! How far before a member its class has another one of the same name or descriptor, so that each
//! text is read once.

ghost use Rattle.std.specs.Prelude.{◌≡◌, ◌+◌, ◌<◌, [], length, map, IfOk, OnOk};
ghost use Rattle.link_image.specs.Kept.Backs.{IsBack, AreBacks, AreSeen};

use class_format::{FieldItem, MethodItem};
use jvm_base::{List, NoMemory};
use std::alloc::Global;

/// The indices of the names of fields.
pub(crate) fn field_names(alloc: Global, fields: &[FieldItem]) -> Result<List<u16>, NoMemory>
    ensures { IfOk result (λ indices. indices ≡ map (λ x. x.name) fields.now) }
{
    let mut indices = List::new(alloc);
    for field in fields {
        indices.push(field.name)?;
    }
    Ok(indices)
}

/// The indices of the descriptors of fields.
pub(crate) fn field_descs(alloc: Global, fields: &[FieldItem]) -> Result<List<u16>, NoMemory>
    ensures { IfOk result (λ indices. indices ≡ map (λ x. x.desc) fields.now) }
{
    let mut indices = List::new(alloc);
    for field in fields {
        indices.push(field.desc)?;
    }
    Ok(indices)
}

/// The indices of the names of methods.
pub(crate) fn method_names(alloc: Global, methods: &[MethodItem]) -> Result<List<u16>, NoMemory>
    ensures { IfOk result (λ indices. indices ≡ map (λ x. x.name) methods.now) }
{
    let mut indices = List::new(alloc);
    for method in methods {
        indices.push(method.name)?;
    }
    Ok(indices)
}

/// The indices of the descriptors of methods.
pub(crate) fn method_descs(alloc: Global, methods: &[MethodItem]) -> Result<List<u16>, NoMemory>
    ensures { IfOk result (λ indices. indices ≡ map (λ x. x.desc) methods.now) }
{
    let mut indices = List::new(alloc);
    for method in methods {
        indices.push(method.desc)?;
    }
    Ok(indices)
}

/// How many places before a place the same index was seen first; `seen` has that place by index.
fn back(seen: &mut [Option<usize>], indices: &[u16], place: usize) -> usize
    requires inside { place < length indices.now }
    requires seen { AreSeen seen.old indices.now place }
    ensures back { IsBack indices.now place result }
    ensures seen { AreSeen seen.new indices.now (place + 1) }
{
    let index = indices[place] as usize;
    if let Some(Some(first)) = seen.get(index) {
        return place - *first;
    }
    if index < seen.len() {
        seen[index] = Some(place);
    }
    0
}

#[tactic(auto, using(crate::proofs::BackLaws::none_found, crate::proofs::BackLaws::found_more, crate::proofs::BackLaws::all_found))]
fn add_backs(
    backs: &mut List<usize>,
    seen: &mut [Option<usize>],
    indices: &[u16],
) -> Result<(), NoMemory>
    requires none { backs.old ≡ [] }
    requires seen { AreSeen seen.old indices.now 0 }
    ensures { OnOk result (AreBacks indices.now backs.new) }
{
    for place in 0..indices.len() {
        backs.push(back(seen, indices, place))?;
    }
    Ok(())
}

/// How many places before each place the same index stands first, in a pool of a length.
#[tactic(auto, using(crate::proofs::BackLaws::none_seen))]
pub(crate) fn backs(alloc: Global, pool: usize, indices: &[u16]) -> Result<List<usize>, NoMemory>
    ensures { IfOk result (λ backs. AreBacks indices.now backs) }
{
    let mut seen = vec![in alloc; None; pool]?;
    let mut backs = List::new(alloc);
    add_backs(&mut backs, &mut seen, indices)?;
    Ok(backs)
}
