//! Constants, locals, and operands that are moved about.

use crate::rows::{Run, wrong_row};
use std::test::Fail;

const CONSTANTS: &str = "
nop -> on
5 8L nop -> 5 8L
aconst_null -> null
iconst_m1 -> -1
iconst_0 -> 0
iconst_1 -> 1
iconst_2 -> 2
iconst_3 -> 3
iconst_4 -> 4
iconst_5 -> 5
lconst_0 -> 0L
lconst_1 -> 1L
bipush.80 -> -128
bipush.7f -> 127
sipush.8000 -> -32768
sipush.7fff -> 32767
sipush.0080 -> 128
5 8L iconst_1 -> 5 8L 1
5 8L lconst_1 -> 5 8L 1L
# what the program tells
ldc.0a -2147483648 -> -2147483648
ldc_w.000a 7 -> 7
ldc.0d @3 -> @3
ldc2_w.000b -9223372036854775808L -> -9223372036854775808L
5 ldc2_w.000b 7L -> 5 7L
";

/// A long takes two locals, of which the second holds 0.
const LOADS: &str = "
7 8L 0 @3 null | iload.00 -> 7 8L 0 @3 null | 7
7 8L 0 @3 null | iload_0 -> 7 8L 0 @3 null | 7
7 8L 0 @3 null | lload.01 -> 7 8L 0 @3 null | 8L
7 8L 0 @3 null | lload_1 -> 7 8L 0 @3 null | 8L
7 8L 0 @3 null | aload.03 -> 7 8L 0 @3 null | @3
7 8L 0 @3 null | aload_3 -> 7 8L 0 @3 null | @3
7 8L 0 @3 null | aload.04 -> 7 8L 0 @3 null | null
7 8L 0 @3 null | wide.iload.0000 -> 7 8L 0 @3 null | 7
7 8L 0 @3 null | wide.lload.0001 -> 7 8L 0 @3 null | 8L
7 8L 0 @3 null | wide.aload.0003 -> 7 8L 0 @3 null | @3
9 8L 0 7 | 1 2L iload_3 -> 9 8L 0 7 | 1 2L 7
6 7 | iload_1 -> 6 7 | 7
5 6 7 | iload_2 -> 5 6 7 | 7
@1 | aload_0 -> @1 | @1
";

const STORES: &str = "
0 0 0 0 0 | 7 istore.00 -> 7 0 0 0 0 |
0 0 0 0 0 | 7 istore_1 -> 0 7 0 0 0 |
0 0 0 0 0 | 7 istore_3 -> 0 0 0 7 0 |
0 0 0 0 0 | 7 istore.04 -> 0 0 0 0 7 |
0 0 0 0 0 | @3 astore_2 -> 0 0 @3 0 0 |
0 0 0 0 0 | null astore.04 -> 0 0 0 0 null |
1 2 3 4 5 | 8L lstore.00 -> 8L 0 3 4 5 |
1 2 3 4 5 | 8L lstore_2 -> 1 2 8L 0 5 |
1 2 3 4 5 | 8L lstore.03 -> 1 2 3 8L 0 |
1 2 3 4 5 | 7 wide.istore.0004 -> 1 2 3 4 7 |
1 2 3 4 5 | 8L wide.lstore.0003 -> 1 2 3 8L 0 |
1 2 3 4 5 | @3 wide.astore.0000 -> @3 2 3 4 5 |
1 2 | 5 8L 7 istore_1 -> 1 7 | 5 8L
1 2 | 5 8L 9L lstore_0 -> 9L 0 | 5 8L
";

/// The first rows are those that `tools/FrameValues.java` prints.
const INCREMENTS: &str = "
2147483647 | iinc.00.01 -> -2147483648 |
2147483647 | iinc.00.7f -> -2147483522 |
-2147483648 | iinc.00.ff -> 2147483647 |
-2147483648 | iinc.00.80 -> 2147483520 |
5 | iinc.00.00 -> 5 |
5 | iinc.00.fb -> 0 |
2147483647 | wide.iinc.0000.7fff -> -2147450882 |
-2147483648 | wide.iinc.0000.8000 -> 2147450880 |
5 | wide.iinc.0000.0100 -> 261 |
1 2 3 | iinc.02.ff -> 1 2 2 |
1 2 | 5 8L iinc.00.01 -> 2 2 | 5 8L
";

/// By what takes two slots and what takes one.
const MOVES: &str = "
1 2 pop -> 1
1L 2 pop -> 1L
1 2 3 pop2 -> 1
1 2L pop2 -> 1
1L @2 null pop2 -> 1L
1 dup -> 1 1
1L 2 dup -> 1L 2 2
1 2 dup_x1 -> 2 1 2
3L 1 @2 dup_x1 -> 3L @2 1 @2
1 2 3 dup_x2 -> 3 1 2 3
1L 2 dup_x2 -> 2 1L 2
4 1 2 3 dup_x2 -> 4 3 1 2 3
1 2 dup2 -> 1 2 1 2
1L dup2 -> 1L 1L
3 1L dup2 -> 3 1L 1L
1 2 3 dup2_x1 -> 2 3 1 2 3
1 2L dup2_x1 -> 2L 1 2L
4L 1 2L dup2_x1 -> 4L 2L 1 2L
1 2 3 4 dup2_x2 -> 3 4 1 2 3 4
1 2 3L dup2_x2 -> 3L 1 2 3L
1L 2 3 dup2_x2 -> 2 3 1L 2 3
1L 2L dup2_x2 -> 2L 1L 2L
5 1L 2L dup2_x2 -> 5 2L 1L 2L
1 2 swap -> 2 1
1L 2 @3 swap -> 1L @3 2
";

#[test]
fn constants_and_moves(rt: HostRuntime) -> Result<(), Fail> {
    for table in [CONSTANTS, MOVES] {
        assert_eq!(rt; wrong_row(rt.alloc(), table, Run::Alone)?, None);
    }
    Ok(())
}

#[test]
fn local_variables(rt: HostRuntime) -> Result<(), Fail> {
    for table in [LOADS, STORES, INCREMENTS] {
        assert_eq!(rt; wrong_row(rt.alloc(), table, Run::Alone)?, None);
    }
    Ok(())
}
