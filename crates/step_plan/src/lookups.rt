//! What the instruction of a frame names.

ghost use Rattle.std.specs.Prelude.{◌≡◌, ◌<◌, length};
ghost use Rattle.program_image.specs.Program.{target_of};
ghost use Rattle.instruction_table.specs.ClassTypes.{class_in, method_in, is_private_method, is_super};
ghost use Rattle.instruction_table.specs.Rows.{is_direct};
ghost use Rattle.machine_state.specs.Classes.{constant_in};

use class_format::{PRIVATE, SUPER, has_flag};
use flow_types::is_sub;
use instruction_table::owner_of;
use jvm_base::{Frame, Value};
use program_image::{Image, Target};

/// What the frame's instruction names.
pub(crate) fn target(image: &Image, frame: &Frame) -> Option<Target>
    requires { frame.now.method < length image.now.methods }
    ensures { result ≡ target_of image.now frame.now.method frame.now.at }
{
    image.target(frame.method, frame.at)
}

/// The class that the frame's instruction names.
pub(crate) fn class_named(image: &Image, frame: &Frame) -> u32
    requires { frame.now.method < length image.now.methods }
    ensures { result ≡ class_in (target_of image.now frame.now.method frame.now.at) }
{
    match target(image, frame) {
        Some(Target::Class(class)) => class,
        _ => 0,
    }
}

/// The method that the frame's instruction names.
pub(crate) fn method_named(image: &Image, frame: &Frame) -> u32
    requires { frame.now.method < length image.now.methods }
    ensures { result ≡ method_in (target_of image.now frame.now.method frame.now.at) }
{
    match target(image, frame) {
        Some(Target::Method(method)) => method,
        _ => 0,
    }
}

/// The constant that the frame's instruction names.
pub(crate) fn constant_named(image: &Image, frame: &Frame) -> Value
    requires { frame.now.method < length image.now.methods }
    ensures { result ≡ constant_in (target_of image.now frame.now.method frame.now.at) }
{
    match target(image, frame) {
        Some(Target::Constant(value)) => value,
        _ => Value::Null,
    }
}

/// Whether `invokespecial` in a class calls the named method itself: a private one, or one that no
/// superclass of a class with the super flag declares.
pub(crate) fn is_direct(image: &Image, current: u32, method: u32) -> bool
    ensures { result ≡ is_direct image.now current method }
{
    let owner = owner_of(image, method);
    is_private(image, method)
        || !is_super(image, current)
        || owner == current
        || !is_sub(image, current, owner)
}

fn is_private(image: &Image, method: u32) -> bool
    ensures { result ≡ is_private_method image.now method }
{
    method < image.methods() && has_flag(image.method(method).flags, PRIVATE)
}

fn is_super(image: &Image, class: u32) -> bool
    ensures { result ≡ is_super image.now class }
{
    class < image.classes() && has_flag(image.class(class).flags, SUPER)
}
