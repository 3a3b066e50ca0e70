//! The name of the main class.

ghost use Rattle.std.specs.Prelude.{◌≡◌, ◌++◌, IfOk, OnOk};
ghost use Rattle.std.specs.Char.Escape.{encode_utf16};
ghost use Rattle.one_jvm.specs.Verdicts.{class_word, main_of, slashed};
ghost use Rattle.one_jvm.specs.Steps.Parts.{asked_by};

use crate::words::Request;
use class_format::ClassFile;
use class_names::this_name;
use jvm_base::{NoMemory, Units};
use std::alloc::Global;

/// The character that stands for one of a class's name in a word.
fn slashed(c: char) -> char
    ensures { result ≡ slashed c }
{
    if c == '.' { '/' } else { c }
}

/// Adds the one or two units of a character.
pub(crate) fn push_char(units: &mut Units, c: char) -> Result<(), NoMemory>
    ensures { OnOk result (units.new ≡ units.old ++ encode_utf16 c) }
{
    let mut pair = [0; 2];
    for unit in c.encode_utf16(&mut pair).iter() {
        units.push(*unit)?;
    }
    Ok(())
}

/// A word as the name of a class.
fn class_word(alloc: Global, word: &str) -> Result<Units, NoMemory>
    ensures { IfOk result (λ units. units ≡ class_word word.now) }
{
    let mut units = Units::new(alloc);
    for c in word.chars() {
        push_char(&mut units, slashed(c))?;
    }
    Ok(units)
}

/// The name of the main class: the given one, or that of the first class.
pub(crate) fn main_of(
    alloc: Global,
    request: &Request<'_>,
    classes: &[ClassFile],
) -> Result<Units, NoMemory>
    ensures { IfOk result (λ units. units ≡ main_of (asked_by request.now).main classes.now) }
{
    if let Some(word) = request.main() {
        return class_word(alloc, word);
    }
    match classes {
        [first, ..] => Units::from_slice(alloc, this_name(first)),
        [] => Ok(Units::new(alloc)),
    }
}
