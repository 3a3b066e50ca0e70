//! The rules of the verifier, by number.

/// Control runs past the last instruction.
pub const PAST_THE_END: u8 = 1;

/// The stack grows above max_stack.
pub const TOO_DEEP: u8 = 2;

/// An operand is missing.
pub const MISSING: u8 = 3;

/// An operand is of another kind, or a long would be split.
pub const OPERAND: u8 = 4;

/// A local is at or above max_locals.
pub const NO_LOCAL: u8 = 5;

/// A local that is read is of another kind.
pub const LOCAL: u8 = 6;

/// Flows meet with unlike stacks.
pub const CLASH: u8 = 7;

/// A reference doesn't fit where it goes.
pub const REFERENCE: u8 = 8;

/// An array instruction meets another array.
pub const ARRAY: u8 = 9;

/// An uninitialised object is used.
pub const UNINITIALISED: u8 = 10;

/// An initialiser is called on the wrong object, or a constructor ends before it called one.
pub const INITIALISER: u8 = 11;

/// A return isn't of the method's result.
pub const RETURN: u8 = 12;

/// A handler catches what isn't thrown.
pub const HANDLER: u8 = 13;
