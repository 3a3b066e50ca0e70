//! The flags of a member that was found.

ghost use Rattle.std.specs.Prelude.{◌≡◌};
ghost use Rattle.link_uses.specs.Lookups.{field_flags, method_flags};

use crate::lookup::Found;
use link_rules::Program;

/// The flags of a field that was found.
pub(crate) fn field_flags(program: &Program, found: &Found) -> u16
    ensures { result ≡ field_flags program.now found.now }
{
    match program.class(found.class as usize) {
        Some(class) => match class.fields.get(found.place) {
            Some(field) => field.flags,
            None => 0,
        },
        None => 0,
    }
}

/// The flags of a method that was found.
pub(crate) fn method_flags(program: &Program, found: &Found) -> u16
    ensures { result ≡ method_flags program.now found.now }
{
    match program.class(found.class as usize) {
        Some(class) => match class.methods.get(found.place) {
            Some(method) => method.flags,
            None => 0,
        },
        None => 0,
    }
}
