//! Arrays of arrays (JVMS2 6, multianewarray): level by level, the outermost array first, under names
//! whose indices follow one another.

ghost use Rattle.std.specs.Prelude.{◌≡◌, ◌≢◌, true, false, ◌≤◌, ◌<◌, ◌+◌, ◌*◌, ◌^◌, ◌++◌, [], ◌∷◌, map, replicate, IfOk, OnOk, MatchOption};
ghost use Rattle.jvm_base.specs.declared.value.ObjectBody.TheVariants as object;
ghost use Rattle.machine_state.specs.declared.served.Effect.TheVariants as effect;
ghost use Rattle.machine_state.specs.Making.{arrays, elements, levels, making, made_objects, part_class, references};
ghost use Rattle.machine_state.specs.Serve.{all_new, name_fits};
ghost use Rattle.step_serve.specs.Levels.{array_count};
ghost use Rattle.step_serve.specs.Telling.{Tells};

use crate::bodies::part;
use crate::faults::Server;
use crate::makes::flat_body;
use crate::names::{NO_NODE, Names};
use crate::telling::making_choice;
use jvm_base::{List, Name, NoMemory, ObjectBody, Value};
use machine_state::{Answer, Effect, Effects, Served};
use program_image::Image;
use std::alloc::Global;

/// How many indices names have.
const INDICES: u64 = 1 << 32;

/// Arrays that are made together: those of one level and of the levels below it.
#[derive(Clone, Copy)]
struct Level {
    node: u8,
    class: u32,
    count: u64,
    index: u64,
}

/// How many arrays there are in all levels of these sizes, of which the first has so many; `None` where
/// they are more than names have indices.
fn array_count(count: u64, sizes: &[u32]) -> Option<u64>
    ensures { MatchOption result (2 ^ 32 < array_count count sizes.now)
        (λ n. (n ≡ array_count count sizes.now) × (n ≤ 2 ^ 32)) }
{
    match sizes {
        [] => Some(0),
        [size, below @ ..] => {
            if count > INDICES {
                return None;
            }
            let all = count + array_count(count * u64::from(*size), below)?;
            if all > INDICES { None } else { Some(all) }
        }
    }
}

/// Whether no object has the name of an array of one level.
fn level_is_new<N: Names>(names: &N, level: Level) -> bool
    requires { level.index + level.count ≤ 2 ^ 32 }
    ensures { result ≡ all_new (N.heap names.now) level.node level.index
        (replicate level.count level.class) }
{
    for index in level.index..level.index + level.count {
        let name = Name {
            node: level.node,
            class: level.class,
            index: index as u32,
        };
        if names.has(name) {
            return false;
        }
    }
    true
}

/// The level below one whose arrays have this size.
fn next_level(image: &Image, level: Level, size: u32) -> Level
    requires few { level.count ≤ 2 ^ 32 }
    requires named { level.index + level.count ≤ 2 ^ 32 }
    ensures { result ≡ record {
      node = level.node;
      class = part_class image.now level.class;
      count = level.count * size;
      index = level.index + level.count;
    } }
{
    Level {
        node: level.node,
        class: part(image, level.class).unwrap_or(0),
        count: level.count * u64::from(size),
        index: level.index + level.count,
    }
}

/// Whether no object has the name of an array of any level.
fn are_new<N: Names>(names: &N, image: &Image, level: Level, sizes: &[u32]) -> bool
    requires { level.index + array_count level.count sizes.now ≤ 2 ^ 32 }
    ensures { result ≡ all_new (N.heap names.now) level.node level.index
        (map (λ o. o.0.class) (levels image.now level.node level.class level.count level.index sizes.now)) }
{
    match sizes {
        [] => true,
        [size, below @ ..] => {
            level_is_new(names, level)
                && are_new(names, image, next_level(image, level, *size), below)
        }
    }
}

/// An array of references to arrays of the level below, from the one with this index on.
fn references(alloc: Global, below: Level, first: u64, size: u32) -> Result<ObjectBody, NoMemory>
    requires { first + size ≤ 2 ^ 32 }
    ensures { IfOk result
        (λ body. body ≡ object.Array (references below.node below.class first size)) }
{
    let mut elements = Vec::with_capacity(alloc, size as usize)?;
    for index in first..first + u64::from(size) {
        let name = Name {
            node: below.node,
            class: below.class,
            index: index as u32,
        };
        elements.push(Value::Ref(name))?;
    }
    Ok(ObjectBody::Array(List::from_vec(elements)))
}

/// What one array of a level holds: arrays of the level below, or what its class has at first.
fn elements(
    alloc: Global,
    image: &Image,
    level: Level,
    place: u64,
    size: u32,
    below: &[u32],
) -> Result<ObjectBody, NoMemory>
    requires named { level.index + array_count level.count (size ∷ below.now) ≤ 2 ^ 32 }
    requires placed { place < level.count }
    ensures { IfOk result (λ body. body ≡ object.Array (elements image.now level.node level.class
        (level.index + level.count + place * size) size below.now)) }
{
    match below {
        [] => flat_body(alloc, image, level.class, size),
        [_, ..] => {
            let next = next_level(image, level, size);
            references(alloc, next, next.index + place * u64::from(size), size)
        }
    }
}

/// Adds the arrays of one level.
fn push_level(
    alloc: Global,
    image: &Image,
    level: Level,
    size: u32,
    below: &[u32],
    effects: &mut List<Effect>,
) -> Result<(), NoMemory>
    requires { level.index + array_count level.count (size ∷ below.now) ≤ 2 ^ 32 }
    ensures { OnOk result (effects.new ≡ effects.old ++ map (λ o. effect.Made o.0 o.1)
        (arrays image.now level.node level.class level.count level.index (level.index + level.count) (size ∷ below.now))) }
{
    for place in 0..level.count {
        let name = Name {
            node: level.node,
            class: level.class,
            index: (level.index + place) as u32,
        };
        let body = elements(alloc, image, level, place, size, below)?;
        effects.push(Effect::Made(name, body))?;
    }
    Ok(())
}

/// Adds the arrays of all levels.
fn push_levels(
    alloc: Global,
    image: &Image,
    level: Level,
    sizes: &[u32],
    effects: &mut List<Effect>,
) -> Result<(), NoMemory>
    requires { level.index + array_count level.count sizes.now ≤ 2 ^ 32 }
    ensures { OnOk result (effects.new ≡ effects.old ++ map (λ o. effect.Made o.0 o.1)
        (levels image.now level.node level.class level.count level.index sizes.now)) }
{
    match sizes {
        [] => Ok(()),
        [size, below @ ..] => {
            push_level(alloc, image, level, *size, below, effects)?;
            push_levels(
                alloc,
                image,
                next_level(image, level, *size),
                below,
                effects,
            )
        }
    }
}

/// The arrays under new names; `None` exactly where a name is taken. Room for all of them is taken
/// first, so that too many fail before any time is spent.
fn made_new<N: Names>(
    alloc: Global,
    server: &Server<N>,
    level: Level,
    count: u64,
    sizes: &[u32],
) -> Result<Option<List<Effect>>, NoMemory>
    requires counted { count ≡ array_count level.count sizes.now }
    requires named { level.index + count ≤ 2 ^ 32 }
    ensures { IfOk result (λ made. MatchOption made
        (all_new (N.heap server.now.names.now) level.node level.index
        (map (λ o. o.0.class) (levels server.now.image.now level.node level.class level.count level.index sizes.now)) ≡ false)
        (λ effects. (all_new (N.heap server.now.names.now) level.node level.index
        (map (λ o. o.0.class) (levels server.now.image.now level.node level.class level.count level.index sizes.now)) ≡ true)
        × (effects ≡ map (λ o. effect.Made o.0 o.1)
        (levels server.now.image.now level.node level.class level.count level.index sizes.now)))) }
{
    let mut effects = List::from_vec(Vec::with_capacity(alloc, count as usize)?);
    if !are_new(server.names, server.image, level, sizes) {
        return Ok(None);
    }
    push_levels(alloc, server.image, level, sizes, &mut effects)?;
    Ok(Some(effects))
}

/// The arrays under names from this one on; `None` exactly where it doesn't fit them.
fn made<N: Names>(
    alloc: Global,
    server: &Server<N>,
    name: Name,
    class: u32,
    sizes: &[u32],
) -> Result<Option<List<Effect>>, NoMemory>
    requires { sizes.now ≢ [] }
    ensures { IfOk result (λ made. MatchOption made
        (name_fits (N.heap server.now.names.now) name (map (λ o. o.0.class) (made_objects server.now.image.now name class sizes.now)) ≡ false)
        (λ effects. (name_fits (N.heap server.now.names.now) name (map (λ o. o.0.class) (made_objects server.now.image.now name class sizes.now)) ≡ true)
        × (effects ≡ map (λ o. effect.Made o.0 o.1) (made_objects server.now.image.now name class sizes.now)))) }
{
    let level = Level {
        node: name.node,
        class,
        count: 1,
        index: u64::from(name.index),
    };
    match array_count(1, sizes) {
        Some(count)
            if name.node != NO_NODE && name.class == class && level.index + count <= INDICES => {
            made_new(alloc, server, level, count, sizes)
        }
        _ => Ok(None),
    }
}

/// Arrays of all levels.
pub(crate) fn arrays<N: Names>(
    alloc: Global,
    server: &Server<N>,
    class: u32,
    sizes: &[u32],
) -> Result<Served, NoMemory>
    requires { sizes.now ≢ [] }
    ensures { IfOk result (λ s. Tells (N.heap server.now.names.now) server.now.wish
        (making s.choice.name (made_objects server.now.image.now s.choice.name class sizes.now)) s) }
{
    let choice = making_choice(server.wish, class);
    let (name_fits, effects) = match made(alloc, server, choice.name, class, sizes)? {
        Some(list) => (true, Effects::Many(list)),
        None => (false, Effects::Nothing),
    };
    Ok(Served {
        choice,
        pick_fits: choice.pick == 0,
        name_fits,
        effects,
        answer: Answer::Gives(Some(Value::Ref(choice.name))),
    })
}
