//! Classes by a text of theirs, which isn't copied.

ghost use Rattle.std.specs.Prelude.{◌≡◌, ◌≤◌, ◌++◌, ◌∷◌, [], length, Some, None, if◌then◌else◌, OnOk, IfOk};
ghost use Rattle.std.specs.BTreeMap.{is_at};
ghost use Rattle.hierarchy.specs.Walks.{first_some};
ghost use Rattle.program_image.specs.Built.Alike.{Seen, glance, glance_cmp, candidates, letter_before, text_of, with_text, AreAlike, AreNames};
ghost use Rattle.program_image.specs.Named.{first_by, first_named};
ghost use Rattle.program_image.specs.Selection.{package_of};

use crate::info::ClassInfo;
use jvm_base::{List, NoMemory, Units};
use std::alloc::Global;
use std::collections::BTreeMap;

/// By which text a class is looked up.
#[derive(Clone, Copy)]
pub(crate) enum By {
    Name,
    Package,
}

/// What is seen of a text at a glance: its length and its last four units, 16 bits each. Texts that
/// agree in this are compared.
type Glance = (usize, u64);

/// The classes whose texts look so at a glance, by number.
pub(crate) type Alike = BTreeMap<Glance, List<u32>>;

/// The unit so many places before the end of a text, or its first one.
fn letter_before(text: &[u16], back: usize) -> u64
    ensures letter { result ≡ letter_before text.now back }
    ensures few { result ≤ 65535 }
{
    match text.get(text.len().saturating_sub(back)) {
        Some(letter) => u64::from(*letter),
        None => 0,
    }
}

fn glance(text: &[u16]) -> Glance
    ensures { result ≡ glance text.now }
{
    let first = letter_before(text, 4) * 65536 + letter_before(text, 3);
    let last = letter_before(text, 2) * 65536 + letter_before(text, 1);
    (text.len(), first * 4_294_967_296 + last)
}

/// The part of a name before its last `/`.
fn package(name: &[u16]) -> &[u16]
    ensures { result.now ≡ package_of name.now }
{
    let mut end = name.len();
    while end > 0 {
        end -= 1;
        if name[end] == u16::from(b'/') {
            return &name[..end];
        }
    }
    &name[..0]
}

/// The text of a class by which it is looked up.
pub(crate) fn text_of(by: By, class: &ClassInfo) -> &[u16]
    ensures { result.now ≡ text_of by class.now }
{
    let name = class.name.as_slice();
    match by {
        By::Name => name,
        By::Package => package(name),
    }
}

/// Adds a class under what is seen of its text.
#[tactic(auto, using(crate::proofs::AlikeLaws::added))]
fn add(alloc: Global, alike: &mut Alike, seen: Glance, class: u32) -> Result<(), NoMemory>
    ensures { OnOk result ((other : Seen) → candidates alike.new.entries other
        ≡ candidates alike.old.entries other
        ++ (if is_at (glance_cmp seen) other then class ∷ [] else [])) }
{
    let mut classes = match alike.remove(&seen) {
        Some(classes) => classes,
        None => List::new(alloc),
    };
    classes.push(class)?;
    alike.insert(seen, classes)?;
    Ok(())
}

/// The classes by a text of theirs.
pub(crate) fn alike(alloc: Global, by: By, classes: &[ClassInfo]) -> Result<Alike, NoMemory>
    requires { length classes.now ≤ 16777216 }
    ensures { IfOk result (λ alike. AreAlike by classes.now classes.now alike.entries) }
{
    let mut alike = BTreeMap::new(alloc);
    for class in 0..classes.len() {
        let seen = glance(text_of(by, &classes[class]));
        add(alloc, &mut alike, seen, class as u32)?;
    }
    Ok(alike)
}

/// Whether the class of a number has the text.
fn has_text(by: By, classes: &[ClassInfo], text: &[u16], class: u32) -> bool
    ensures { (if result then Some class else None) ≡ with_text by classes.now text.now class }
{
    let place = class as usize;
    place < classes.len() && text_of(by, &classes[place]) == text
}

/// The classes whose texts look like this one.
fn candidates<'a>(alike: &'a Alike, text: &[u16]) -> &'a [u32]
    ensures { result.now ≡ candidates alike.now.entries (glance text.now) }
{
    match alike.get(&glance(text)) {
        Some(found) => found.as_slice(),
        None => &[],
    }
}

/// The first of some classes that has a text.
fn first_of(by: By, classes: &[ClassInfo], some: &[u32], text: &[u16]) -> Option<u32>
    ensures { result ≡ first_some (with_text by classes.now text.now) some.now }
{
    for class in some {
        if has_text(by, classes, text, *class) {
            return Some(*class);
        }
    }
    None
}

/// The first class that has a text.
pub(crate) fn first(by: By, classes: &[ClassInfo], alike: &Alike, text: &[u16]) -> Option<u32>
    requires { AreAlike by classes.now classes.now alike.now.entries }
    ensures { result ≡ first_by (text_of by) text.now classes.now }
{
    first_of(by, classes, candidates(alike, text), text)
}

/// The classes by name.
#[tactic(auto, unfolding(crate::specs::Built::Alike::AreNames))]
pub(crate) fn names(alloc: Global, classes: &[ClassInfo]) -> Result<Alike, NoMemory>
    requires { length classes.now ≤ 16777216 }
    ensures { IfOk result (λ names. AreNames classes.now names.entries) }
{
    alike(alloc, By::Name, classes)
}

/// The first class of a name.
#[tactic(auto, unfolding(crate::specs::Built::Alike::AreNames))]
pub(crate) fn named(classes: &[ClassInfo], names: &Alike, name: &Units) -> Option<u32>
    requires { AreNames classes.now names.now.entries }
    ensures { result ≡ first_named classes.now name.now }
{
    first(By::Name, classes, names, name.as_slice())
}
