//! Objects that are made together, or not at all.

ghost use Rattle.std.specs.Prelude.{◌≡◌, ◌<◌, ◌≤◌, take, drop, length, None, OnOk, OnErr};
ghost use Rattle.jvm_base.specs.Maps.{put};
ghost use Rattle.jvm_base.specs.Names.{name_cmp};
ghost use Rattle.machine_state.specs.State.{body_at};
ghost use Rattle.shared_state.specs.Making.{with_made, all_made, AllNew, mark_of, unmade, all_unmade, IsNext};

use crate::heap::Heap;
use jvm_base::{List, Name, NoMemory, ObjectBody};
use machine_state::Effect;
use std::alloc::Global;
use std::mem::replace;

/// The object of an effect is made. A mark with its name stays in the effect's place.
fn make_one(alloc: Global, heap: &mut Heap, effect: &mut Effect) -> Result<(), NoMemory>
    ensures ok { OnOk result (heap.new ≡ with_made effect.old heap.old) }
    ensures mark { effect.new ≡ mark_of effect.old }
    ensures err { OnErr result (heap.new ≡ heap.old) }
{
    let name = match effect {
        Effect::Made(name, _) => *name,
        _ => return Ok(()),
    };
    match replace(effect, Effect::Freed(name)) {
        Effect::Made(name, body) => heap.make(alloc, name, body),
        _ => Ok(()),
    }
}

/// The object of the effect at a place is made.
fn make_at(
    alloc: Global,
    heap: &mut Heap,
    effects: &mut List<Effect>,
    at: usize,
) -> Result<(), NoMemory>
    requires within { at < length effects.old }
    requires new { AllNew heap.old (drop at effects.old) }
    ensures ok { OnOk result (IsNext at heap.old effects.old heap.new effects.new) }
    ensures before { take at effects.new ≡ take at effects.old }
    ensures count { length effects.new ≡ length effects.old }
    ensures err { OnErr result (heap.new ≡ heap.old) }
{
    match effects.get_mut(at) {
        Some(effect) => make_one(alloc, heap, effect),
        None => Ok(()),
    }
}

/// The object that a mark names is taken out again.
fn unmake_one(heap: &mut Heap, effect: &Effect)
    ensures { heap.new ≡ unmade effect.now heap.old }
{
    if let Effect::Freed(name) = effect {
        heap.unmake(*name);
    }
}

/// The objects with the first marks, so many, are taken out again, the last one first.
fn unmake(heap: &mut Heap, effects: &[Effect], count: usize)
    requires { count ≤ length effects.now }
    ensures { heap.new ≡ all_unmade (take count effects.now) heap.old }
{
    let mut left = count;
    while left > 0 {
        left -= 1;
        unmake_one(heap, &effects[left]);
    }
}

/// The objects of the effects are made, or none of them.
pub(crate) fn make_all(
    alloc: Global,
    heap: &mut Heap,
    effects: &mut List<Effect>,
) -> Result<(), NoMemory>
    requires { AllNew heap.old effects.old }
    ensures ok { OnOk result (heap.new ≡ all_made effects.old heap.old) }
    ensures err { OnErr result (heap.new ≡ heap.old) }
{
    for i in 0..effects.len() {
        if make_at(alloc, heap, effects, i).is_err() {
            unmake(heap, effects.as_slice(), i);
            return Err(NoMemory);
        }
    }
    Ok(())
}

/// Two objects are made, or neither of them.
#[tactic(auto, using(crate::proofs::HeapLaws::made_gone))]
pub(crate) fn make_two(
    alloc: Global,
    heap: &mut Heap,
    name: Name,
    body: ObjectBody,
    other: Name,
    other_body: ObjectBody,
) -> Result<(), NoMemory>
    requires { body_at heap.old name ≡ None }
    ensures ok { OnOk result
        (heap.new ≡ put name_cmp other other_body (put name_cmp name body heap.old)) }
    ensures err { OnErr result (heap.new ≡ heap.old) }
{
    heap.make(alloc, name, body)?;
    if heap.make(alloc, other, other_body).is_err() {
        heap.unmake(name);
        return Err(NoMemory);
    }
    Ok(())
}
