//! Numbers: the rows that `tools/FrameValues.java` prints.

use crate::rows::{Run, wrong_row};
use std::test::Fail;

/// Sums and differences wrap.
const SUMS: &str = "
-2147483648 -2147483648 iadd -> 0
-2147483648 -1 iadd -> 2147483647
-2147483648 2147483647 iadd -> -1
2147483647 1 iadd -> -2147483648
2147483647 2147483647 iadd -> -2
0 -2147483648 iadd -> -2147483648
-2147483648 -2147483648 isub -> 0
-2147483648 -1 isub -> -2147483647
-2147483648 2147483647 isub -> 1
2147483647 1 isub -> 2147483646
2147483647 2147483647 isub -> 0
0 -2147483648 isub -> -2147483648
-9223372036854775808L -9223372036854775808L ladd -> 0L
-9223372036854775808L -1L ladd -> 9223372036854775807L
-9223372036854775808L 9223372036854775807L ladd -> -1L
9223372036854775807L 1L ladd -> -9223372036854775808L
9223372036854775807L 9223372036854775807L ladd -> -2L
0L -9223372036854775808L ladd -> -9223372036854775808L
-9223372036854775808L -9223372036854775808L lsub -> 0L
-9223372036854775808L -1L lsub -> -9223372036854775807L
-9223372036854775808L 9223372036854775807L lsub -> 1L
9223372036854775807L 1L lsub -> 9223372036854775806L
9223372036854775807L 9223372036854775807L lsub -> 0L
0L -9223372036854775808L lsub -> -9223372036854775808L
";

/// So do products.
const PRODUCTS: &str = "
-2147483648 -2147483648 imul -> 0
-2147483648 -1 imul -> -2147483648
-2147483648 2147483647 imul -> -2147483648
2147483647 1 imul -> 2147483647
2147483647 2147483647 imul -> 1
0 -2147483648 imul -> 0
-9223372036854775808L -9223372036854775808L lmul -> 0L
-9223372036854775808L -1L lmul -> -9223372036854775808L
-9223372036854775808L 9223372036854775807L lmul -> -9223372036854775808L
9223372036854775807L 1L lmul -> 9223372036854775807L
9223372036854775807L 9223372036854775807L lmul -> 1L
0L -9223372036854775808L lmul -> 0L
";

/// Quotients go toward zero, and a remainder has the sign of the dividend.
const QUOTIENTS: &str = "
7 2 idiv -> 3
7 2 irem -> 1
-7 2 idiv -> -3
-7 2 irem -> -1
7 -2 idiv -> -3
7 -2 irem -> 1
-7 -2 idiv -> 3
-7 -2 irem -> -1
-2147483648 -1 idiv -> -2147483648
-2147483648 -1 irem -> 0
-2147483648 2147483647 idiv -> -1
-2147483648 2147483647 irem -> -1
2147483647 -2147483648 idiv -> 0
2147483647 -2147483648 irem -> 2147483647
0 -1 idiv -> 0
0 -1 irem -> 0
7 0 idiv -> Arithmetic
7 0 irem -> Arithmetic
0 0 idiv -> Arithmetic
0 0 irem -> Arithmetic
7L 2L ldiv -> 3L
7L 2L lrem -> 1L
-7L 2L ldiv -> -3L
-7L 2L lrem -> -1L
7L -2L ldiv -> -3L
7L -2L lrem -> 1L
-7L -2L ldiv -> 3L
-7L -2L lrem -> -1L
-9223372036854775808L -1L ldiv -> -9223372036854775808L
-9223372036854775808L -1L lrem -> 0L
-9223372036854775808L 9223372036854775807L ldiv -> -1L
-9223372036854775808L 9223372036854775807L lrem -> -1L
9223372036854775807L -9223372036854775808L ldiv -> 0L
9223372036854775807L -9223372036854775808L lrem -> 9223372036854775807L
0L -1L ldiv -> 0L
0L -1L lrem -> 0L
7L 0L ldiv -> Arithmetic
7L 0L lrem -> Arithmetic
0L 0L ldiv -> Arithmetic
0L 0L lrem -> Arithmetic
";

/// The least number is its own negation.
const NEGATIONS: &str = "
-2147483648 ineg -> -2147483648
-2147483647 ineg -> 2147483647
-1 ineg -> 1
0 ineg -> 0
1 ineg -> -1
2147483647 ineg -> -2147483647
-9223372036854775808L lneg -> -9223372036854775808L
-9223372036854775807L lneg -> 9223372036854775807L
-1L lneg -> 1L
0L lneg -> 0L
1L lneg -> -1L
9223372036854775807L lneg -> -9223372036854775807L
";

/// Of the count an int's low 5 bits are taken, or the low 6 for a long.
const SHIFTS: &str = "
-5 0 ishl -> -5
-5 0 ishr -> -5
-5 0 iushr -> -5
-5 1 ishl -> -10
-5 1 ishr -> -3
-5 1 iushr -> 2147483645
-5 31 ishl -> -2147483648
-5 31 ishr -> -1
-5 31 iushr -> 1
-5 32 ishl -> -5
-5 32 ishr -> -5
-5 32 iushr -> -5
-5 33 ishl -> -10
-5 33 ishr -> -3
-5 33 iushr -> 2147483645
-5 63 ishl -> -2147483648
-5 63 ishr -> -1
-5 63 iushr -> 1
-5 64 ishl -> -5
-5 64 ishr -> -5
-5 64 iushr -> -5
-5 65 ishl -> -10
-5 65 ishr -> -3
-5 65 iushr -> 2147483645
-5 -1 ishl -> -2147483648
-5 -1 ishr -> -1
-5 -1 iushr -> 1
-5L 0 lshl -> -5L
-5L 0 lshr -> -5L
-5L 0 lushr -> -5L
-5L 1 lshl -> -10L
-5L 1 lshr -> -3L
-5L 1 lushr -> 9223372036854775805L
-5L 31 lshl -> -10737418240L
-5L 31 lshr -> -1L
-5L 31 lushr -> 8589934591L
-5L 32 lshl -> -21474836480L
-5L 32 lshr -> -1L
-5L 32 lushr -> 4294967295L
-5L 33 lshl -> -42949672960L
-5L 33 lshr -> -1L
-5L 33 lushr -> 2147483647L
-5L 63 lshl -> -9223372036854775808L
-5L 63 lshr -> -1L
-5L 63 lushr -> 1L
-5L 64 lshl -> -5L
-5L 64 lshr -> -5L
-5L 64 lushr -> -5L
-5L 65 lshl -> -10L
-5L 65 lshr -> -3L
-5L 65 lushr -> 9223372036854775805L
-5L -1 lshl -> -9223372036854775808L
-5L -1 lshr -> -1L
-5L -1 lushr -> 1L
2147483647 1 ishl -> -2
2147483647 31 ishr -> 0
2147483647 30 iushr -> 1
9223372036854775807L 1 lshl -> -2L
9223372036854775807L 63 lshr -> 0L
9223372036854775807L 62 lushr -> 1L
";

/// Bit by bit.
const BITS: &str = "
12 10 iand -> 8
12 10 ior -> 14
12 10 ixor -> 6
-12 10 iand -> 0
-12 10 ior -> -2
-12 10 ixor -> -2
-2147483648 -1 iand -> -2147483648
-2147483648 -1 ior -> -1
-2147483648 -1 ixor -> 2147483647
-2147483648 2147483647 iand -> 0
-2147483648 2147483647 ior -> -1
-2147483648 2147483647 ixor -> -1
12L 10L land -> 8L
12L 10L lor -> 14L
12L 10L lxor -> 6L
-12L 10L land -> 0L
-12L 10L lor -> -2L
-12L 10L lxor -> -2L
-9223372036854775808L -1L land -> -9223372036854775808L
-9223372036854775808L -1L lor -> -1L
-9223372036854775808L -1L lxor -> 9223372036854775807L
-9223372036854775808L 9223372036854775807L land -> 0L
-9223372036854775808L 9223372036854775807L lor -> -1L
-9223372036854775808L 9223372036854775807L lxor -> -1L
";

/// Numbers of other types.
const CONVERSIONS: &str = "
-1 i2b -> -1
-1 i2c -> 65535
-1 i2s -> -1
127 i2b -> 127
127 i2c -> 127
127 i2s -> 127
128 i2b -> -128
128 i2c -> 128
128 i2s -> 128
255 i2b -> -1
255 i2c -> 255
255 i2s -> 255
256 i2b -> 0
256 i2c -> 256
256 i2s -> 256
-129 i2b -> 127
-129 i2c -> 65407
-129 i2s -> -129
32767 i2b -> -1
32767 i2c -> 32767
32767 i2s -> 32767
32768 i2b -> 0
32768 i2c -> 32768
32768 i2s -> -32768
65535 i2b -> -1
65535 i2c -> 65535
65535 i2s -> -1
65536 i2b -> 0
65536 i2c -> 0
65536 i2s -> 0
-32769 i2b -> -1
-32769 i2c -> 32767
-32769 i2s -> 32767
-2147483648 i2b -> 0
-2147483648 i2c -> 0
-2147483648 i2s -> 0
-2147483648 i2l -> -2147483648L
-2147483647 i2l -> -2147483647L
-1 i2l -> -1L
0 i2l -> 0L
1 i2l -> 1L
2147483647 i2l -> 2147483647L
0L l2i -> 0
-1L l2i -> -1
2147483647L l2i -> 2147483647
2147483648L l2i -> -2147483648
4294967295L l2i -> -1
4294967296L l2i -> 0
-2147483648L l2i -> -2147483648
-2147483649L l2i -> 2147483647
-9223372036854775808L l2i -> 0
9223372036854775807L l2i -> -1
";

/// Two longs.
const COMPARISONS: &str = "
-9223372036854775808L -9223372036854775808L lcmp -> 0
-9223372036854775808L -1L lcmp -> -1
-9223372036854775808L 9223372036854775807L lcmp -> -1
9223372036854775807L 1L lcmp -> 1
9223372036854775807L 9223372036854775807L lcmp -> 0
0L -9223372036854775808L lcmp -> 1
";

#[test]
fn arithmetic(rt: HostRuntime) -> Result<(), Fail> {
    for table in [SUMS, PRODUCTS, QUOTIENTS, NEGATIONS] {
        assert_eq!(rt; wrong_row(rt.alloc(), table, Run::Alone)?, None);
    }
    Ok(())
}

#[test]
fn shifts_and_bits(rt: HostRuntime) -> Result<(), Fail> {
    for table in [SHIFTS, BITS] {
        assert_eq!(rt; wrong_row(rt.alloc(), table, Run::Alone)?, None);
    }
    Ok(())
}

#[test]
fn conversions_and_order(rt: HostRuntime) -> Result<(), Fail> {
    for table in [CONVERSIONS, COMPARISONS] {
        assert_eq!(rt; wrong_row(rt.alloc(), table, Run::Alone)?, None);
    }
    Ok(())
}
