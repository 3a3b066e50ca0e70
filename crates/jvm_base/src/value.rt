//! Values, and what holds them.

use crate::list::List;
use crate::name::Name;
use crate::units::Units;

/// What a local, an operand, a field or an element holds (JVMS2 3.3, 3.4). A boolean, byte, char or
/// short is an `Int`.
#[derive(Clone, Copy, Debug, PartialEq, Eq)]
pub enum Value {
    Int(i32),
    Long(i64),
    Ref(Name),
    Null,
}

/// What an object holds: the fields of an instance or of a class's statics, the elements of an
/// array, or the text of a String or StringBuffer.
#[derive(Drop)]
pub enum ObjectBody {
    Fields(List<Value>),
    Array(List<Value>),
    Text(Units),
}

/// An exception that no handler of its thread took, by its class.
#[derive(Clone, Copy, Debug, PartialEq, Eq)]
pub struct Uncaught {
    pub thread: u32,
    pub class: u32,
}
