//! Arithmetic on ints and longs by opcode, and numbers cut to fewer bits (JVMS2 6). Results wrap.

ghost use Rattle.std.specs.Prelude.{◌≡◌, ℤ, pos, ◌≢◌, ◌≤◌, ◌-◌, int_lt};
ghost use Rattle.std.specs.Int.{w32, w64};
ghost use Rattle.frame_ops.specs.Narrowing as low;
ghost use Rattle.frame_ops.specs.Numbers as defined;

use code_table::opcode;

/// The sum, difference or product of two ints.
pub(crate) fn int_arithmetic(op: u8, a: i32, b: i32) -> i32
    ensures { result ≡ defined.arithmetic op w32 a b }
{
    match op {
        opcode::IADD | opcode::LADD => a.wrapping_add(b),
        opcode::ISUB | opcode::LSUB => a.wrapping_sub(b),
        _ => a.wrapping_mul(b),
    }
}

/// The sum, difference or product of two longs.
pub(crate) fn long_arithmetic(op: u8, a: i64, b: i64) -> i64
    ensures { result ≡ defined.arithmetic op w64 a b }
{
    match op {
        opcode::IADD | opcode::LADD => a.wrapping_add(b),
        opcode::ISUB | opcode::LSUB => a.wrapping_sub(b),
        _ => a.wrapping_mul(b),
    }
}

/// Two ints bit by bit.
pub(crate) fn int_bitwise(op: u8, a: i32, b: i32) -> i32
    ensures { result ≡ defined.bitwise op w32 a b }
{
    match op {
        opcode::IAND | opcode::LAND => a & b,
        opcode::IOR | opcode::LOR => a | b,
        _ => a ^ b,
    }
}

/// Two longs bit by bit.
pub(crate) fn long_bitwise(op: u8, a: i64, b: i64) -> i64
    ensures { result ≡ defined.bitwise op w64 a b }
{
    match op {
        opcode::IAND | opcode::LAND => a & b,
        opcode::IOR | opcode::LOR => a | b,
        _ => a ^ b,
    }
}

/// The quotient or remainder of two ints.
pub(crate) fn int_division(op: u8, a: i32, b: i32) -> i32
    requires { b ≢ pos 0 }
    ensures { result ≡ defined.division op w32 a b }
{
    match op {
        opcode::IDIV | opcode::LDIV => a.wrapping_div(b),
        _ => a.wrapping_rem(b),
    }
}

/// The quotient or remainder of two longs.
pub(crate) fn long_division(op: u8, a: i64, b: i64) -> i64
    requires { b ≢ pos 0 }
    ensures { result ≡ defined.division op w64 a b }
{
    match op {
        opcode::IDIV | opcode::LDIV => a.wrapping_div(b),
        _ => a.wrapping_rem(b),
    }
}

/// How far an int is shifted.
pub(crate) fn int_shift_count(b: i32) -> u32
    ensures { result ≡ defined.shift_count 32 b }
{
    b.cast_unsigned() % 32
}

/// How far a long is shifted.
pub(crate) fn long_shift_count(b: i32) -> u32
    ensures { result ≡ defined.shift_count 64 b }
{
    b.cast_unsigned() % 64
}

/// An int shifted by the low 5 bits of another.
pub(crate) fn int_shifted(op: u8, a: i32, b: i32) -> i32
    ensures { result ≡ defined.shifted op w32 a (defined.shift_count 32 b) }
{
    let count = int_shift_count(b);
    match op {
        opcode::ISHL | opcode::LSHL => a << count,
        opcode::ISHR | opcode::LSHR => a >> count,
        _ => (a.cast_unsigned() >> count).cast_signed(),
    }
}

/// A long shifted by the low 6 bits of an int.
pub(crate) fn long_shifted(op: u8, a: i64, b: i32) -> i64
    ensures { result ≡ defined.shifted op w64 a (defined.shift_count 64 b) }
{
    let count = long_shift_count(b);
    match op {
        opcode::ISHL | opcode::LSHL => a << count,
        opcode::ISHR | opcode::LSHR => a >> count,
        _ => (a.cast_unsigned() >> count).cast_signed(),
    }
}

/// How two longs are ordered: -1, 0 or 1.
pub(crate) fn ordered(a: i64, b: i64) -> i32
    ensures { result ≡ defined.ordered a b }
{
    if a < b {
        -1
    } else if b < a {
        1
    } else {
        0
    }
}

/// A comparison by its place among the six.
pub(crate) fn compares(test: u8, a: i32, b: i32) -> bool
    ensures { result ≡ defined.compares test a b }
{
    match test {
        0 => a == b,
        1 => a != b,
        2 => a < b,
        3 => a >= b,
        4 => a > b,
        _ => a <= b,
    }
}

/// The low 8 bits, with sign.
pub fn as_byte(a: i32) -> i32
    ensures { result ≡ low.as_byte a }
{
    ((a.cast_unsigned() % 256) as u8).cast_signed() as i32
}

/// The low 16 bits, without sign.
pub fn as_unit(a: i32) -> i32
    ensures { result ≡ pos (low.as_unit a) }
{
    (a.cast_unsigned() % 65536) as i32
}

/// The low 16 bits, with sign.
pub fn as_short(a: i32) -> i32
    ensures { result ≡ low.as_short a }
{
    ((a.cast_unsigned() % 65536) as u16).cast_signed() as i32
}

/// The low 32 bits of a long, with sign.
pub(crate) fn as_int(a: i64) -> i32
    ensures { result ≡ low.as_int a }
{
    ((a.cast_unsigned() % 4294967296) as u32).cast_signed()
}
