//! Modified UTF-8 (JVMS2 4.4.7).

ghost use Rattle.std.specs.Prelude.{◌≡◌, ◌≢◌, ◌++◌, List, ℕ, Some, length, min, option_map, IfOk, IfErr, OnOk};
ghost use Rattle.jvm_base.specs.Reads.{Reads, Refuses, SpellsNone};
ghost use Rattle.jvm_base.specs.declared.units.NameErr.TheVariants.{BadUtf};
ghost use Rattle.jvm_base.specs.Text.{is_one, is_two, is_three, unit_at, units_of, unit_bytes, text_bytes};
ghost use Rattle.jvm_base.specs.Units.{AreUnits};

use crate::list::List;
use crate::memory::NoMemory;
use crate::units::{NameErr, Units};
use std::alloc::Global;

fn is_one(a: u8) -> bool
    ensures { result ≡ is_one a }
{
    0 < a && a < 128
}

fn is_two(a: u8, b: u8) -> bool
    ensures { result ≡ is_two a b }
{
    192 <= a && a < 224 && 128 <= b && b < 192 && (a == 192 && b == 128 || 194 <= a)
}

fn is_three(a: u8, b: u8, c: u8) -> bool
    ensures { result ≡ is_three a b c }
{
    224 <= a && a < 240 && 128 <= b && b < 192 && 128 <= c && c < 192 && (224 < a || 160 <= b)
}

/// The first unit, and the bytes after it.
#[tactic(auto, unfolding(crate::specs::Text::unit_at))]
fn first_unit(bytes: &[u8]) -> Option<(u16, &[u8])>
    ensures { option_map (λ x. (x.0, x.1.now)) result ≡ unit_at bytes.now }
{
    match bytes {
        [a, after @ ..] if is_one(*a) => Some((*a as u16, after)),
        [a, b, after @ ..] if is_two(*a, *b) => {
            Some(((*a as u16 - 192) * 64 + (*b as u16 - 128), after))
        }
        [a, b, c, after @ ..] if is_three(*a, *b, *c) => Some((
            (*a as u16 - 224) * 4096 + (*b as u16 - 128) * 64 + (*c as u16 - 128),
            after,
        )),
        _ => None,
    }
}

fn read_units(alloc: Global, bytes: &[u8]) -> Result<Units, NameErr>
    ensures { Reads BadUtf result (units_of bytes.now) }
{
    let mut units = Units::new(alloc);
    let mut rest = bytes;
    while !rest.is_empty() {
        match first_unit(rest) {
            Some((unit, after)) => {
                units.push(unit)?;
                rest = after;
            }
            None => return Err(NameErr::BadUtf),
        }
    }
    Ok(units)
}

fn unit_len(unit: u16) -> usize
    ensures { result ≡ length (unit_bytes unit) }
{
    if 0 < unit && unit < 128 {
        1
    } else if unit < 2048 {
        2
    } else {
        3
    }
}

fn push_unit(bytes: &mut Vec<u8>, unit: u16) -> Result<(), NoMemory>
    ensures { OnOk result (bytes.new.items ≡ bytes.old.items ++ unit_bytes unit) }
{
    if 0 < unit && unit < 128 {
        bytes.push(unit as u8)?;
    } else if unit < 2048 {
        bytes.push(192 + (unit / 64) as u8)?;
        bytes.push(128 + (unit % 64) as u8)?;
    } else {
        bytes.push(224 + (unit / 4096) as u8)?;
        bytes.push(128 + (unit / 64 % 64) as u8)?;
        bytes.push(128 + (unit % 64) as u8)?;
    }
    Ok(())
}

impl Units {
    /// The text that bytes of modified UTF-8 spell.
    pub fn read(alloc: Global, bytes: &[u8]) -> Result<Units, NameErr>
        ensures found { IfOk result (λ us. AreUnits us × (bytes.now ≡ text_bytes us)) }
        ensures only { (us : List ℕ) → AreUnits us → bytes.now ≡ text_bytes us → Reads BadUtf result (Some us) }
        ensures refused { IfErr result (Refuses BadUtf (SpellsNone AreUnits text_bytes bytes.now)) }
        ensures exact { Reads BadUtf result (units_of bytes.now) }
    {
        read_units(alloc, bytes)
    }

    /// The text as modified UTF-8.
    pub fn write(&self, alloc: Global) -> Result<List<u8>, NoMemory>
        ensures { IfOk result (λ bytes. bytes ≡ text_bytes self.now) }
    {
        let mut bytes = Vec::new(alloc);
        for unit in self.as_slice() {
            push_unit(&mut bytes, *unit)?;
        }
        Ok(List::from_vec(bytes))
    }

    /// How many bytes the text takes as modified UTF-8, or `usize::MAX` where that is less. It takes
    /// no memory.
    pub fn byte_len(&self) -> usize
        ensures { result ≡ min (length (text_bytes self.now)) usize.MAX }
    {
        let mut len = 0usize;
        for unit in self.as_slice() {
            len = len.saturating_add(unit_len(*unit));
        }
        len
    }
}

/// A text is read from its spelling, and from nothing else.
pub fn text_has_one_spelling()
    ensures written { (us : List ℕ) → AreUnits us → units_of (text_bytes us) ≡ Some us }
    ensures read { (bytes us : List ℕ) → units_of bytes ≡ Some us → AreUnits us × (bytes ≡ text_bytes us) }
{}
