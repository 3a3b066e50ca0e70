//! What an array is of.

ghost use Rattle.std.specs.Prelude.{◌≡◌};
ghost use Rattle.flow_types.specs.Primitives.{primitive_number};

use code_table::element_kind;

/// A primitive type that an array may be of.
#[derive(Clone, Copy, PartialEq, Eq)]
pub enum Primitive {
    Boolean,
    Char,
    Float,
    Double,
    Byte,
    Short,
    Int,
    Long,
}

impl Primitive {
    /// The number by which `newarray` names it (JVMS2 6, newarray).
    pub fn number(self) -> u8
        ensures { result ≡ primitive_number self }
    {
        match self {
            Primitive::Boolean => element_kind::T_BOOLEAN,
            Primitive::Char => element_kind::T_CHAR,
            Primitive::Float => element_kind::T_FLOAT,
            Primitive::Double => element_kind::T_DOUBLE,
            Primitive::Byte => element_kind::T_BYTE,
            Primitive::Short => element_kind::T_SHORT,
            Primitive::Int => element_kind::T_INT,
            Primitive::Long => element_kind::T_LONG,
        }
    }
}

/// What an array is of, below its dimensions: a primitive type, or a class by its number.
#[derive(Clone, Copy, PartialEq, Eq)]
pub enum Element {
    Primitive(Primitive),
    Object(u32),
}
