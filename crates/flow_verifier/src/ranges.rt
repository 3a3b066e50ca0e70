//! Ranges of places that the same handlers cover.

ghost use Rattle.std.specs.Prelude.{◌≡◌, ◌<◌, ◌^◌, ◌==◌, ◌||◌, ℕ, length, IfOk};
ghost use Rattle.std.specs.List.{list_any};
ghost use Rattle.flow_verifier.specs.Methods.{ops_of, place_of, IsMethod, Rises};
ghost use Rattle.flow_verifier.specs.Worklist.Ranges.{flag_at, turns_at, range_at, AreNumbered, AreRanges};

use crate::method::{Handler, Method, ops_of, place_of};
use crate::rising::no_flags;
use code_table::Placed;
use jvm_base::{List, NoMemory};
use program_image::Image;
use std::alloc::Global;

/// The number of the range of each place, and how many ranges there are.
#[derive(Drop)]
pub(crate) struct Ranges {
    pub number: List<u32>,
    pub count: usize,
}

/// Flags a place, if it is there.
fn flag(flags: &mut List<bool>, place: u32)
    ensures long { length flags.new ≡ length flags.old }
    ensures flags { (i : ℕ) → i < length flags.old → flag_at flags.new i
        ≡ (flag_at flags.old i || (place == i)) }
{
    if (place as usize) < flags.len() {
        flags.set(place as usize, true);
    }
}

/// Flags the places at which a handler begins and ends to cover.
fn flag_turns(flags: &mut List<bool>, ops: &[Placed], handler: &Handler)
    requires few { length ops.now < 2 ^ 32 }
    requires rising { Rises ops.now }
    ensures long { length flags.new ≡ length flags.old }
    ensures flags { (i : ℕ) → i < length flags.old → flag_at flags.new i
        ≡ (flag_at flags.old i || turns_at ops.now i handler.now) }
{
    flag(flags, place_of(ops, handler.start));
    flag(flags, place_of(ops, handler.until));
}

/// For each place whether a handler begins or ends to cover there.
fn turns(alloc: Global, image: &Image, m: &Method) -> Result<List<bool>, NoMemory>
    requires fine { IsMethod image.now m.now }
    ensures long { IfOk result (λ flags. length flags ≡ length (ops_of image.now m.now.number)) }
    ensures flags { IfOk result (λ flags. (i : ℕ) → i < length flags → flag_at flags i
        ≡ list_any (turns_at (ops_of image.now m.now.number) i) m.now.handlers) }
{
    let ops = ops_of(image, m.number);
    let mut flags = no_flags(alloc, ops.len())?;
    let handlers = m.handlers.as_slice();
    for k in 0..handlers.len() {
        flag_turns(&mut flags, ops, &handlers[k]);
    }
    Ok(flags)
}

/// Ranges of which one begins at each place with a flag.
fn numbered(alloc: Global, flags: &[bool]) -> Result<Ranges, NoMemory>
    requires few { length flags.now < 2 ^ 32 }
    ensures { IfOk result (λ ranges. AreNumbered flags.now ranges) }
{
    let mut number = List::new(alloc);
    let mut last = 0;
    for i in 0..flags.len() {
        if flags[i] {
            last += 1;
        }
        number.push(last)?;
    }
    Ok(Ranges {
        number,
        count: last as usize + 1,
    })
}

impl Ranges {
    /// The ranges of a method. It takes time in the number of its instructions and handlers.
    pub fn new(alloc: Global, image: &Image, m: &Method) -> Result<Ranges, NoMemory>
        requires fine { IsMethod image.now m.now }
        ensures { IfOk result (λ ranges. AreRanges image.now m.now ranges) }
    {
        let flags = turns(alloc, image, m)?;
        numbered(alloc, flags.as_slice())
    }

    /// The number of the range of a place.
    pub fn of(&self, place: u32) -> u32
        requires { place < length self.now.number }
        ensures { result ≡ range_at self.now place }
    {
        self.number.as_slice()[place as usize]
    }
}
