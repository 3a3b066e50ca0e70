//! Classes and methods by number, and the instructions of methods.

ghost use Rattle.std.specs.Prelude.{◌≡◌, ◌<◌, length, IsSome};
ghost use Rattle.std.specs.Option.{option_copied};
ghost use Rattle.program_image.specs.Handlers.{code_of};
ghost use Rattle.program_image.specs.Words.{super_of, instruction_at};
ghost use Rattle.machine_state.specs.Classes.{clinit_of};
ghost use Rattle.machine_state.specs.PreMade.{holder};
ghost use Rattle.program_reads.specs.Whole.{IsWhole};

use crate::boot;
use code_table::{Code, Placed};
use frame_ops::{placed_at, placed_near};
use jvm_base::Name;
use program_image::{Body, Image};

/// The node of names that no step makes.
pub const NO_NODE: u8 = 255;

/// The code of a method that has some.
pub fn code_of(image: &Image, method: u32) -> Option<&Code>
    ensures code { option_copied result ≡ code_of image.now method }
    ensures within { IsSome result → method < length image.now.methods }
{
    if method >= image.methods() {
        return None;
    }
    match &image.method(method).body {
        Body::Code(code) => Some(code),
        _ => None,
    }
}

/// The superclass of a class.
pub fn super_of(image: &Image, class: u32) -> Option<u32>
    ensures { result ≡ super_of image.now class }
{
    if class < image.classes() {
        image.class(class).super_class
    } else {
        None
    }
}

/// The initialiser of a class.
pub fn clinit_of(image: &Image, class: u32) -> Option<u32>
    ensures { result ≡ clinit_of image.now class }
{
    if class < image.classes() {
        image.class(class).clinit
    } else {
        None
    }
}

/// The instruction at an address of a method.
pub fn instruction_at(image: &Image, method: u32, at: u32) -> Option<&Placed>
    requires { IsWhole image.now }
    ensures instruction { option_copied result ≡ instruction_at image.now method at }
    ensures within { IsSome result → method < length image.now.methods }
{
    let code = code_of(image, method)?;
    placed_at(code, at)
}

/// The instruction at an address of a method, where a place is tried before a search.
pub fn instruction_near<'a>(
    image: &'a Image,
    method: u32,
    at: u32,
    place: &mut usize,
) -> Option<&'a Placed>
    requires { IsWhole image.now }
    ensures instruction { option_copied result ≡ instruction_at image.now method at }
    ensures within { IsSome result → method < length image.now.methods }
{
    let code = code_of(image, method)?;
    placed_near(code, at, place)
}

/// The object that holds the statics of a class, and is its lock.
pub fn holder(class: u32) -> Name
    ensures { result ≡ holder class }
{
    Name {
        node: NO_NODE,
        class: boot::CLASS,
        index: class,
    }
}
