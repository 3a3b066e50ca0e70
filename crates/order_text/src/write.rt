//! The text of an order.

ghost use Rattle.std.specs.Prelude.{◌≡◌, ◌∷◌, [], ◌++◌, decimal, IfOk, OnOk};
ghost use Rattle.std.specs.List.{AllByRecursion};
ghost use Rattle.order_text.specs.Spelling.{field, choice_line, HasClass, IsChoice, IsOrderText};

use itoa::Buffer;
use jvm_base::{List, NoMemory};
use machine_state::{Choice, Order};
use std::alloc::Global;

/// The first line.
pub(crate) const HEAD: &[u8] = b"cjvm-order 1\n";

/// The last line.
pub(crate) const END: &[u8] = b"end\n";

/// Adds a number, and the byte behind it.
fn push_field(text: &mut List<u8>, number: u32, behind: u8) -> Result<(), NoMemory>
    ensures { OnOk result (text.new ≡ text.old ++ field number behind) }
{
    let mut buffer = Buffer::new();
    text.append(buffer.format(number).as_bytes())?;
    text.push(behind)
}

/// Adds the line of a choice, all of whose numbers are in range.
fn push_choice(text: &mut List<u8>, choice: Choice) -> Result<(), NoMemory>
    requires { HasClass choice }
    ensures fits { IsChoice choice }
    ensures line { OnOk result (text.new ≡ text.old ++ choice_line choice) }
{
    push_field(text, choice.thread, b' ')?;
    push_field(text, choice.pick, b' ')?;
    push_field(text, u32::from(choice.name.node), b'.')?;
    push_field(text, choice.name.class, b'.')?;
    push_field(text, choice.name.index, b'\n')
}

/// The text of an order: a line for each choice, between a first line and a last one.
pub fn write_order(alloc: Global, order: &Order) -> Result<List<u8>, NoMemory>
    requires { AllByRecursion HasClass order.now }
    ensures { IfOk result (λ text. IsOrderText text order.now) }
{
    let mut text = List::new(alloc);
    text.append(HEAD)?;
    let mut row = 0;
    for at in 0..order.len() {
        if let Some(choice) = order.get_near(at, &mut row) {
            push_choice(&mut text, choice)?;
        }
    }
    text.append(END)?;
    Ok(text)
}
