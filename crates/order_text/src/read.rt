//! Orders read from their text.

ghost use Rattle.std.specs.Prelude.{◌≡◌, ◌==◌, ◌<◌, ◌≤◌, ◌^◌, List as Items, ℕ, Ok as OkOf, Err as ErrOf, length, position, IfOk, IfErr, true};
ghost use Rattle.jvm_base.specs.Told.{Gives, Tells, itself};
ghost use Rattle.order_text.specs.Spelling.{field, name_end, choice_line, IsName, IsChoice, IsOrderText};
ghost use Rattle.order_text.specs.Faults.{IsFirstFault};
ghost use Rattle.order_text.specs.Told.{told};
ghost use Rattle.order_text.specs.Reading.Fronts.{IsFront, IsNumberOf, are_digits, is_numeral, value_of};

use crate::error::OrderErr;
use crate::write::{END, HEAD};
use jvm_base::Name;
use machine_state::{Choice, Order};
use std::alloc::Global;

/// Past the greatest thread, pick or index.
const NUMBERS: u64 = 1 << 32;

/// Past the greatest class.
const CLASSES: u64 = 1 << 24;

/// Past the greatest node.
const NODES: u64 = 1 << 8;

/// Whether the bytes are digits, not too many, without leading zeros.
fn is_numeral(bytes: &[u8]) -> bool
    ensures { result ≡ is_numeral bytes.now }
{
    !bytes.is_empty()
        && bytes.len() <= 10
        && (bytes.len() == 1 || bytes[0] != b'0')
        && are_digits(bytes)
}

fn are_digits(bytes: &[u8]) -> bool
    ensures { result ≡ are_digits bytes.now }
{
    bytes.iter().all(|byte| byte.is_ascii_digit())
}

/// The number that up to ten digits spell.
fn value(digits: &[u8]) -> u64
    requires few { length digits.now ≤ 10 }
    requires digits { are_digits digits.now ≡ true }
    ensures { result ≡ value_of digits.now }
{
    let mut value = 0;
    for digit in digits {
        value = value * 10 + u64::from(*digit - b'0');
    }
    value
}

/// The number below the limit that the bytes are in decimal.
fn number(bytes: &[u8], limit: u64) -> Option<u64>
    requires { limit ≤ 2 ^ 32 }
    ensures { IsNumberOf limit bytes.now result }
{
    if !is_numeral(bytes) {
        return None;
    }
    let value = value(bytes);
    if value < limit { Some(value) } else { None }
}

/// The first place of a byte.
fn place(bytes: &[u8], wanted: u8) -> Option<usize>
    ensures { result ≡ position (λ b. b == wanted) bytes.now }
{
    bytes.iter().position(|byte| *byte == wanted)
}

/// A number below the limit with a byte behind it, and what follows.
fn field(bytes: &[u8], limit: u64, behind: u8) -> Option<(u64, &[u8])>
    requires limit { limit ≤ 2 ^ 32 }
    requires behind { behind < 48 }
    ensures { IsFront (λ n. n < limit) (λ n. field n behind) bytes.now result }
{
    let len = place(bytes, behind)?;
    let number = number(&bytes[..len], limit)?;
    Some((number, &bytes[len + 1..]))
}

/// The name that stands in front, up to the end of its line, and what follows that.
fn name(bytes: &[u8]) -> Option<(Name, &[u8])>
    ensures { IsFront IsName name_end bytes.now result }
{
    let (node, rest) = field(bytes, NODES, b'.')?;
    let (class, rest) = field(rest, CLASSES, b'.')?;
    let (index, rest) = field(rest, NUMBERS, b'\n')?;
    let name = Name {
        node: node as u8,
        class: class as u32,
        index: index as u32,
    };
    Some((name, rest))
}

/// The choice whose line stands in front, and what follows that.
fn choice(bytes: &[u8]) -> Option<(Choice, &[u8])>
    ensures { IsFront IsChoice choice_line bytes.now result }
{
    let (thread, rest) = field(bytes, NUMBERS, b' ')?;
    let (pick, rest) = field(rest, NUMBERS, b' ')?;
    let (name, rest) = name(rest)?;
    let choice = Choice {
        thread: thread as u32,
        pick: pick as u32,
        name,
    };
    Some((choice, rest))
}

/// The order whose text the bytes are, read line by line.
fn read(alloc: Global, bytes: &[u8]) -> Result<Order, OrderErr>
    ensures found { IfOk result (λ order. IsOrderText bytes.now order) }
    ensures fault { IfErr result (Tells told (IsFirstFault bytes.now)) }
{
    let Some(mut rest) = bytes.strip_prefix(HEAD) else {
        return Err(OrderErr::BadOrder { line: 1 });
    };
    let mut order = Order::new(alloc);
    let mut line = 2;
    while let Some((choice, after)) = choice(rest) {
        order.push(choice)?;
        rest = after;
        line += 1;
    }
    match rest.strip_prefix(END) {
        None => Err(OrderErr::BadOrder { line }),
        Some([]) => Ok(order),
        Some(_) => Err(OrderErr::BadOrder { line: line + 1 }),
    }
}

/// The order whose text the bytes are.
pub fn read_order(alloc: Global, bytes: &[u8]) -> Result<Order, OrderErr>
    // What is read is spelled so.
    ensures found { IfOk result (λ order. IsOrderText bytes.now order) }
    // The line that is told is the first fault.
    ensures fault { IfErr result (Tells told (IsFirstFault bytes.now)) }
    // An order's text is read, unless memory ran out.
    ensures only { (order : Items Choice) → IsOrderText bytes.now order
        → Gives told itself result (OkOf order) }
    // A first fault is told, unless memory ran out.
    ensures only_fault { (line : ℕ) → IsFirstFault bytes.now line
        → Gives told itself result (ErrOf line) }
{
    read(alloc, bytes)
}
