//! Rules on control, operands and locals.

use crate::rows::wrong_row;
use std::test::Fail;

/// Control goes on past the last instruction.
const PAST_THE_END: &str = "
# nop
9 m ()V 0.0 00 -> rule 1 at 0
9 m ()V 0.0 00 b1 -> ok
# iconst_0 istore_0
9 m ()V 1.1 03 3b -> rule 1 at 1
9 m ()V 1.1 03 3b b1 -> ok
# a goto to itself; aconst_null athrow
9 m ()V 0.0 a7 0000 -> ok
9 m ()V 1.0 01 bf -> ok
# iconst_0, a tableswitch and a lookupswitch back to it
9 m ()V 1.0 03 aa 0000 ffffffff 00000000 00000000 ffffffff -> ok
9 m ()V 1.0 03 ab 0000 ffffffff 00000000 -> ok
# behind a goto to itself nothing is reached
9 m ()V 0.0 a7 0000 00 -> ok
";

/// The stack grows above its room.
const TOO_DEEP: &str = "
# iconst_0 pop; lconst_0 pop2; iconst_0 dup pop2
9 m ()V 0.0 03 57 b1 -> rule 2 at 0
9 m ()V 1.0 03 57 b1 -> ok
9 m ()V 1.0 09 58 b1 -> rule 2 at 0
9 m ()V 2.0 09 58 b1 -> ok
9 m ()V 1.0 03 59 58 b1 -> rule 2 at 1
9 m ()V 2.0 03 59 58 b1 -> ok
# iconst_0 i2l pop2
9 m ()V 1.0 03 85 58 b1 -> rule 2 at 1
9 m ()V 2.0 03 85 58 b1 -> ok
# a call that gives a long
9 m ()V 1.0 invokestatic:A.k.()J 58 b1 -> rule 2 at 0
9 m ()V 2.0 invokestatic:A.k.()J 58 b1 -> ok
# what a handler takes
9 m ()V 0.0 00 b1 57 b1 catch:0.1.2.any -> rule 2 at 2
9 m ()V 1.0 00 b1 57 b1 catch:0.1.2.any -> ok
";

/// An operand is missing.
const MISSING: &str = "
9 m ()V 1.0 57 b1 -> rule 3 at 0
9 m ()V 1.0 03 57 b1 -> ok
# iadd on one int, on one long, on two ints
9 m ()V 2.0 03 60 57 b1 -> rule 3 at 1
9 m ()V 2.0 09 60 57 b1 -> rule 3 at 1
9 m ()V 2.0 03 03 60 57 b1 -> ok
# pop2, dup2, swap, dup_x2 with too little
9 m ()V 2.0 03 58 b1 -> rule 3 at 1
9 m ()V 4.0 03 5c b1 -> rule 3 at 1
9 m ()V 2.0 03 5f b1 -> rule 3 at 1
9 m ()V 4.0 03 03 5b b1 -> rule 3 at 2
9 m ()V 4.0 03 03 03 5b b1 -> ok
# ireturn
9 m ()I 1.0 ac -> rule 3 at 0
9 m ()I 1.0 03 ac -> ok
# a call of two arguments with one
9 m ()V 3.0 03 invokestatic:A.v.(JI)V b1 -> rule 3 at 1
9 m ()V 3.0 09 03 invokestatic:A.v.(JI)V b1 -> ok
# where one is missing, the depth after isn't told
9 m ()V 0.0 60 57 b1 -> rule 3 at 0
";

/// An operand is of another kind, or half of a long would be moved.
const OPERAND: &str = "
# aconst_null, ifeq to the return
9 m ()V 1.0 01 99 0003 b1 -> rule 4 at 1
9 m ()V 1.0 03 99 0003 b1 -> ok
# iconst_0 athrow; iconst_0 astore_0; aconst_null istore_0; iconst_0 arraylength
9 m ()V 1.0 03 bf -> rule 4 at 1
9 m ()V 1.1 03 4b b1 -> rule 4 at 1
9 m ()V 1.1 01 4b b1 -> ok
9 m ()V 1.1 01 3b b1 -> rule 4 at 1
9 m ()V 1.0 03 be 57 b1 -> rule 4 at 1
# iadd of an int and a long, ladd of two longs, lshl by an int and by a long
9 m ()V 4.0 03 09 60 57 b1 -> rule 4 at 2
9 m ()V 4.0 09 09 61 58 b1 -> ok
9 m ()V 4.0 09 03 79 58 b1 -> ok
9 m ()V 4.0 09 09 79 58 b1 -> rule 4 at 2
# pop and pop2 of a long; pop2 of an int above a long
9 m ()V 2.0 09 57 b1 -> rule 4 at 1
9 m ()V 2.0 09 58 b1 -> ok
9 m ()V 3.0 09 03 58 b1 -> rule 4 at 2
9 m ()V 3.0 03 03 58 b1 -> ok
# dup and dup2 of a long
9 m ()V 4.0 09 59 b1 -> rule 4 at 1
9 m ()V 4.0 09 5c 58 58 b1 -> ok
# dup_x1 and dup_x2 of an int above a long
9 m ()V 4.0 09 03 5a b1 -> rule 4 at 2
9 m ()V 4.0 09 03 5b 57 58 57 b1 -> ok
# dup2_x1 and dup2_x2 of a long, above an int and above a long
9 m ()V 5.0 03 09 5d 58 57 58 b1 -> ok
9 m ()V 6.0 09 09 5d b1 -> rule 4 at 2
9 m ()V 6.0 09 09 5e 58 58 58 b1 -> ok
9 m ()V 6.0 09 03 09 5e b1 -> rule 4 at 3
# swap above a long, and of a long
9 m ()V 3.0 09 03 5f b1 -> rule 4 at 2
9 m ()V 3.0 03 09 5f b1 -> rule 4 at 2
9 m ()V 2.0 03 03 5f 57 57 b1 -> ok
# an argument, and the value of a field
9 m ()V 1.0 03 invokestatic:A.s.(LA;)V b1 -> rule 4 at 1
9 m ()V 1.0 03 putstatic:A.o.LA; b1 -> rule 4 at 1
9 m ()V 2.0 01 01 putfield:A.x.I b1 -> rule 4 at 2
9 m ()V 2.0 01 03 putfield:A.x.I b1 -> ok
# of two rules the lower one: i2l of null has no room for its long
9 m ()V 1.0 01 85 58 b1 -> rule 2 at 1
9 m ()V 2.0 01 85 58 b1 -> rule 4 at 1
";

/// There are too few locals.
const NO_LOCAL: &str = "
# parameters
9 m (I)V 0.0 b1 -> rule 5 at 0
9 m (I)V 0.1 b1 -> ok
9 m (J)V 0.1 b1 -> rule 5 at 0
9 m (J)V 0.2 b1 -> ok
1 m (I)V 0.1 b1 -> rule 5 at 0
1 m (I)V 0.2 b1 -> ok
# iconst_0 istore_1; lconst_0 lstore_0
9 m ()V 1.1 03 3c b1 -> rule 5 at 1
9 m ()V 1.2 03 3c b1 -> ok
9 m ()V 2.1 09 3f b1 -> rule 5 at 1
9 m ()V 2.2 09 3f b1 -> ok
# iload_1; lload_0 of the last local; iinc
9 m ()V 1.1 1b 57 b1 -> rule 5 at 0
9 m (I)V 2.1 1e 58 b1 -> rule 5 at 0
9 m ()V 0.0 84 00 01 b1 -> rule 5 at 0
9 m (I)V 0.1 84 00 01 b1 -> ok
# `<clinit>` has no receiver, whatever its flags
1 m ()V 0.0 b1 -> rule 5 at 0
8 <clinit> ()V 0.0 b1 -> ok
0 <clinit> ()V 0.0 b1 -> ok
# wide iload 256
9 m ()V 1.100 c4 15 0100 57 b1 -> rule 5 at 0
9 m ()V 1.101 03 c4 36 0100 c4 15 0100 57 b1 -> ok
";

/// A local that is read is of another kind.
const LOCAL: &str = "
# iload_0, aload_0
9 m ()V 1.1 1a 57 b1 -> rule 6 at 0
9 m (I)V 1.1 1a 57 b1 -> ok
9 m (I)V 1.1 2a 57 b1 -> rule 6 at 0
9 m (LA;)V 1.1 2a 57 b1 -> ok
9 m (LA;)V 1.1 1a 57 b1 -> rule 6 at 0
1 m ()V 1.1 2a 57 b1 -> ok
0 <clinit> ()V 1.1 2a 57 b1 -> rule 6 at 0
# a long, and its halves
9 m (J)V 2.2 1e 58 b1 -> ok
9 m (J)V 1.2 1a 57 b1 -> rule 6 at 0
9 m (J)V 1.2 1b 57 b1 -> rule 6 at 0
9 m (IJ)V 2.3 1e 58 b1 -> rule 6 at 0
# the other half stays where one is overwritten: iconst_0 istore_1 lload_0, then istore_0 lload_0
9 m (J)V 2.2 03 3c 1e 58 b1 -> rule 6 at 2
9 m (J)V 2.2 03 3b 1e 58 b1 -> rule 6 at 2
9 m (J)V 1.2 03 3c 1b 57 b1 -> ok
# iinc of null
9 m ()V 1.1 01 4b 84 00 01 b1 -> rule 6 at 2
9 m ()V 1.1 03 3b 84 00 01 b1 -> ok
# iload_0, ifeq 9, iconst_0, istore_1, goto 11, 9 aconst_null, astore_1, 11 iload_1, pop
9 m (I)V 1.2 1a 99 0008 03 3c a7 0005 01 4c 1b 57 b1 -> rule 6 at 11
9 m (I)V 1.2 1a 99 0008 03 3c a7 0005 01 4c b1 -> ok
# a loop that sets it: iconst_0, istore_1, 2 iload_0, ifeq 11, 6 aconst_null, astore_1, goto 2, 11 iload_1
9 m (I)V 1.2 03 3c 1a 99 0008 01 4c a7 fffa 1b 57 b1 -> rule 6 at 11
9 m (I)V 1.2 03 3c 1a 99 0008 04 3c a7 fffa 1b 57 b1 -> ok
";

/// Flows meet with unlike stacks.
const CLASH: &str = "
# iload_0, ifeq 5, iconst_0, 5 return; ifeq 6 behind a pop
9 m (I)V 1.1 1a 99 0004 03 b1 -> rule 7 at 5
9 m (I)V 1.1 1a 99 0005 03 57 b1 -> ok
# iload_0, ifeq 8, iconst_0, goto 9, 8 aconst_null, 9 pop
9 m (I)V 1.1 1a 99 0007 03 a7 0004 01 57 b1 -> rule 7 at 9
9 m (I)V 1.1 1a 99 0007 03 a7 0004 04 57 b1 -> ok
# a loop that pushes
9 m ()V 9.0 03 a7 ffff -> rule 7 at 0
9 m ()V 9.0 03 57 a7 fffe -> ok
# a handler at an instruction that control goes on to with another stack
9 m ()V 1.0 00 00 57 b1 catch:0.1.2.any -> rule 7 at 2
9 m ()V 1.0 00 b1 57 b1 catch:0.1.2.any -> ok
# of two places the lower one, whatever is reached first: iload_0, ifeq 8, 4 aconst_null, ifeq 8, 8 pop
9 m (I)V 1.1 1a 99 0007 01 99 0003 57 b1 -> rule 4 at 5
# what follows an instruction that breaks a rule has the clash frame; the lowest place is told
9 m ()V 1.0 01 99 0003 57 b1 -> rule 4 at 1
# also where it leads back: iconst_0, ifeq 0 as the last instruction; iload_0, aconst_null, astore_0, goto 0
9 m ()V 1.0 03 99 ffff -> rule 7 at 0
9 m (I)V 1.1 1a 57 01 4b a7 fffc -> rule 7 at 0
9 m (I)V 1.1 1a 57 04 3b a7 fffc -> ok
";

#[test]
fn past_the_end(rt: HostRuntime) -> Result<(), Fail> {
    assert_eq!(rt; wrong_row(rt.alloc(), PAST_THE_END)?, None);
    Ok(())
}

#[test]
fn operands(rt: HostRuntime) -> Result<(), Fail> {
    for table in [TOO_DEEP, MISSING, OPERAND] {
        assert_eq!(rt; wrong_row(rt.alloc(), table)?, None);
    }
    Ok(())
}

#[test]
fn locals(rt: HostRuntime) -> Result<(), Fail> {
    for table in [NO_LOCAL, LOCAL] {
        assert_eq!(rt; wrong_row(rt.alloc(), table)?, None);
    }
    Ok(())
}

#[test]
fn unlike_stacks(rt: HostRuntime) -> Result<(), Fail> {
    assert_eq!(rt; wrong_row(rt.alloc(), CLASH)?, None);
    Ok(())
}
