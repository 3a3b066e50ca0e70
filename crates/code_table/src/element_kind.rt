//! The numbers that newarray has for the kinds of an array's elements (JVMS2 6).

ghost use Rattle.std.specs.Prelude.{◌≡◌};
ghost use Rattle.code_table.specs.ElementKinds.{kinds, named_kinds};

pub const T_BOOLEAN: u8 = 4;

pub const T_CHAR: u8 = 5;

pub const T_FLOAT: u8 = 6;

pub const T_DOUBLE: u8 = 7;

pub const T_BYTE: u8 = 8;

pub const T_SHORT: u8 = 9;

pub const T_INT: u8 = 10;

pub const T_LONG: u8 = 11;

/// Each constant is the number of the kind that has its name.
pub fn named_element_kinds()
    ensures { kinds ≡ named_kinds }
{}
