//! Texts that a program makes: of numbers, and of two texts.
#![tactic(auto)]

ghost use Rattle.std.specs.Prelude.{◌≡◌, ◌++◌, IfOk, OnOk, take};
ghost use Rattle.std.specs.Fmt.{signed_decimal};
ghost use Rattle.text_objects.specs.Texts.{IsNumber, number_text};

use itoa::Buffer;
use jvm_base::{NoMemory, Units, Value};
use std::alloc::Global;

/// The text of bytes, a unit for each.
fn from_bytes(alloc: Global, bytes: &[u8]) -> Result<Units, NoMemory>
    ensures { IfOk result (λ text. text ≡ bytes.now) }
{
    let mut text = Units::new(alloc);
    for byte in bytes {
        text.push(u16::from(*byte))?;
    }
    Ok(text)
}

/// Adds the units at the end.
fn push_all(text: &mut Units, units: &[u16]) -> Result<(), NoMemory>
    ensures { OnOk result (text.new ≡ text.old ++ units.now) }
{
    for unit in units {
        text.push(*unit)?;
    }
    Ok(())
}

/// A number in decimal.
pub fn number_text(alloc: Global, value: Value) -> Result<Units, NoMemory>
    requires { IsNumber value }
    ensures { IfOk result (λ text. text ≡ number_text value) }
{
    let mut buffer = Buffer::new();
    match value {
        Value::Int(number) => from_bytes(alloc, buffer.format(number).as_bytes()),
        Value::Long(number) => from_bytes(alloc, buffer.format(number).as_bytes()),
        _ => unreachable!(),
    }
}

/// The units of a text with those of another one behind them.
pub fn joined_units(alloc: Global, a: &[u16], b: &[u16]) -> Result<Units, NoMemory>
    ensures { IfOk result (λ text. text ≡ a.now ++ b.now) }
{
    let mut text = Units::from_slice(alloc, a)?;
    push_all(&mut text, b)?;
    Ok(text)
}

/// A text with another one behind it.
pub fn joined(alloc: Global, a: &Units, b: &Units) -> Result<Units, NoMemory>
    ensures { IfOk result (λ text. text ≡ a.now ++ b.now) }
{
    joined_units(alloc, a.as_slice(), b.as_slice())
}
