//! Numbers in code.

ghost use Rattle.std.specs.Prelude.{◌≡◌, ◌+◌, ◌≤◌, ◌<◌, length};
ghost use Rattle.std.specs.Int.{w8, w16, w32};
ghost use Rattle.code_table.specs.Numbers.{number_at, signed_at};

use byteorder::{BigEndian, ByteOrder};

/// The byte at a place.
pub(crate) fn u1(bytes: &[u8], at: usize) -> u8
    requires { at < length bytes.now }
    ensures { result ≡ number_at w8 bytes.now at }
{
    let (_, rest) = bytes.split_at(at);
    rest[0]
}

/// The byte at a place, with its sign.
pub(crate) fn i1(bytes: &[u8], at: usize) -> i8
    requires { at < length bytes.now }
    ensures { result ≡ signed_at w8 bytes.now at }
{
    u1(bytes, at).cast_signed()
}

/// The two bytes from a place on.
pub(crate) fn u2(bytes: &[u8], at: usize) -> u16
    requires { at + 2 ≤ length bytes.now }
    ensures { result ≡ number_at w16 bytes.now at }
{
    BigEndian::read_u16(&bytes[at..])
}

/// The two bytes from a place on, with their sign.
pub(crate) fn i2(bytes: &[u8], at: usize) -> i16
    requires { at + 2 ≤ length bytes.now }
    ensures { result ≡ signed_at w16 bytes.now at }
{
    BigEndian::read_i16(&bytes[at..])
}

/// The four bytes from a place on, with their sign.
pub(crate) fn i4(bytes: &[u8], at: usize) -> i32
    requires { at + 4 ≤ length bytes.now }
    ensures { result ≡ signed_at w32 bytes.now at }
{
    BigEndian::read_i32(&bytes[at..])
}
