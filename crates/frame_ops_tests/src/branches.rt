//! Jumps: those of the numbers that `tools/FrameValues.java` prints, of references, and switches.

use crate::rows::{Run, wrong_row};
use std::test::Fail;

/// By one or two ints.
const INTS: &str = "
3 3 if_icmpeq.0008 -> to 12
3 3 if_icmpne.0008 -> on
3 3 if_icmplt.0008 -> on
3 3 if_icmpge.0008 -> to 12
3 3 if_icmpgt.0008 -> on
3 3 if_icmple.0008 -> to 12
-2147483648 2147483647 if_icmpeq.0008 -> on
-2147483648 2147483647 if_icmpne.0008 -> to 12
-2147483648 2147483647 if_icmplt.0008 -> to 12
-2147483648 2147483647 if_icmpge.0008 -> on
-2147483648 2147483647 if_icmpgt.0008 -> on
-2147483648 2147483647 if_icmple.0008 -> to 12
2147483647 -2147483648 if_icmpeq.0008 -> on
2147483647 -2147483648 if_icmpne.0008 -> to 12
2147483647 -2147483648 if_icmplt.0008 -> on
2147483647 -2147483648 if_icmpge.0008 -> to 12
2147483647 -2147483648 if_icmpgt.0008 -> to 12
2147483647 -2147483648 if_icmple.0008 -> on
-1 0 if_icmpeq.0008 -> on
-1 0 if_icmpne.0008 -> to 12
-1 0 if_icmplt.0008 -> to 12
-1 0 if_icmpge.0008 -> on
-1 0 if_icmpgt.0008 -> on
-1 0 if_icmple.0008 -> to 12
-2147483648 ifeq.0008 -> on
-2147483648 ifne.0008 -> to 12
-2147483648 iflt.0008 -> to 12
-2147483648 ifge.0008 -> on
-2147483648 ifgt.0008 -> on
-2147483648 ifle.0008 -> to 12
-1 ifeq.0008 -> on
-1 ifne.0008 -> to 12
-1 iflt.0008 -> to 12
-1 ifge.0008 -> on
-1 ifgt.0008 -> on
-1 ifle.0008 -> to 12
0 ifeq.0008 -> to 12
0 ifne.0008 -> on
0 iflt.0008 -> on
0 ifge.0008 -> to 12
0 ifgt.0008 -> on
0 ifle.0008 -> to 12
1 ifeq.0008 -> on
1 ifne.0008 -> to 12
1 iflt.0008 -> on
1 ifge.0008 -> to 12
1 ifgt.0008 -> to 12
1 ifle.0008 -> on
";

/// By one or two references.
const REFERENCES: &str = "
null ifnull.0008 -> to 12
null ifnonnull.0008 -> on
@1 ifnull.0008 -> on
@1 ifnonnull.0008 -> to 12
null null if_acmpeq.0008 -> to 12
null null if_acmpne.0008 -> on
@1 @1 if_acmpeq.0008 -> to 12
@1 @1 if_acmpne.0008 -> on
@1 @2 if_acmpeq.0008 -> on
@1 @2 if_acmpne.0008 -> to 12
@1 null if_acmpeq.0008 -> on
@1 null if_acmpne.0008 -> to 12
null @1 if_acmpeq.0008 -> on
null @1 if_acmpne.0008 -> to 12
# what lies below stays
9 8L 3 3 if_icmpeq.0008 -> 9 8L to 12
9 8L 3 4 if_icmpeq.0008 -> 9 8L
9 8L @1 ifnull.0008 -> 9 8L
9 8L @1 @1 if_acmpeq.0008 -> 9 8L to 12
";

/// To other instructions, forward, back, and to itself.
const PLACES: &str = "
goto.0008 -> to 12
goto.fffc -> to 0
goto.0000 -> to 4
5 goto.0008 -> 5 to 12
goto_w.0000000a -> to 14
goto_w.fffffffd -> to 1
goto_w.00000000 -> to 4
0 ifeq.fffc -> to 0
0 ifeq.0000 -> to 4
0 ifeq.0003 -> on
";

/// By tables for -1 to 1, for the greatest int, and for the two least.
const SWITCHES: &str = "
-2 tableswitch.000000.fffffffc.ffffffff.00000001.fffffffd.fffffffe.ffffffff -> to 0
-1 tableswitch.000000.fffffffc.ffffffff.00000001.fffffffd.fffffffe.ffffffff -> to 1
0 tableswitch.000000.fffffffc.ffffffff.00000001.fffffffd.fffffffe.ffffffff -> to 2
1 tableswitch.000000.fffffffc.ffffffff.00000001.fffffffd.fffffffe.ffffffff -> to 3
2 tableswitch.000000.fffffffc.ffffffff.00000001.fffffffd.fffffffe.ffffffff -> to 0
-2147483648 tableswitch.000000.fffffffc.ffffffff.00000001.fffffffd.fffffffe.ffffffff -> to 0
2147483647 tableswitch.000000.fffffffc.ffffffff.00000001.fffffffd.fffffffe.ffffffff -> to 0
2147483647 tableswitch.000000.fffffffc.7fffffff.7fffffff.fffffffd -> to 1
2147483646 tableswitch.000000.fffffffc.7fffffff.7fffffff.fffffffd -> to 0
-2147483648 tableswitch.000000.fffffffc.7fffffff.7fffffff.fffffffd -> to 0
-2147483648 tableswitch.000000.fffffffc.80000000.80000001.fffffffd.fffffffe -> to 1
-2147483647 tableswitch.000000.fffffffc.80000000.80000001.fffffffd.fffffffe -> to 2
-2147483646 tableswitch.000000.fffffffc.80000000.80000001.fffffffd.fffffffe -> to 0
2147483647 tableswitch.000000.fffffffc.80000000.80000001.fffffffd.fffffffe -> to 0
# by pairs for the least int and 1000, and by none
-2147483648 lookupswitch.000000.fffffffc.00000002.80000000.fffffffd.000003e8.fffffffe -> to 1
-2147483647 lookupswitch.000000.fffffffc.00000002.80000000.fffffffd.000003e8.fffffffe -> to 0
0 lookupswitch.000000.fffffffc.00000002.80000000.fffffffd.000003e8.fffffffe -> to 0
999 lookupswitch.000000.fffffffc.00000002.80000000.fffffffd.000003e8.fffffffe -> to 0
1000 lookupswitch.000000.fffffffc.00000002.80000000.fffffffd.000003e8.fffffffe -> to 2
1001 lookupswitch.000000.fffffffc.00000002.80000000.fffffffd.000003e8.fffffffe -> to 0
2147483647 lookupswitch.000000.fffffffc.00000002.80000000.fffffffd.000003e8.fffffffe -> to 0
0 lookupswitch.000000.fffffffc.00000000 -> to 0
5 8L 1000 lookupswitch.000000.fffffffc.00000002.80000000.fffffffd.000003e8.fffffffe -> 5 8L to 2
";

#[test]
fn branches(rt: HostRuntime) -> Result<(), Fail> {
    for table in [INTS, REFERENCES] {
        assert_eq!(rt; wrong_row(rt.alloc(), table, Run::Alone)?, None);
    }
    Ok(())
}

#[test]
fn places_and_switches(rt: HostRuntime) -> Result<(), Fail> {
    for table in [PLACES, SWITCHES] {
        assert_eq!(rt; wrong_row(rt.alloc(), table, Run::Alone)?, None);
    }
    Ok(())
}
