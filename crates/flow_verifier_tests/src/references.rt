//! Rules on references, uninitialised objects, returns and handlers.

use crate::rows::wrong_row;
use std::test::Fail;

/// A reference doesn't fit what takes it.
const REFERENCE: &str = "
# an argument
9 m (Ljava/lang/Object;)V 1.1 2a invokestatic:A.s.(LA;)V b1 -> rule 8 at 1
9 m (LA;)V 1.1 2a invokestatic:A.s.(LA;)V b1 -> ok
9 m (LT;)V 1.1 2a invokestatic:A.s.(LA;)V b1 -> ok
9 m ()V 1.0 01 invokestatic:A.s.(LA;)V b1 -> ok
9 m ([LA;)V 1.1 2a invokestatic:A.s.(LA;)V b1 -> rule 8 at 1
# the value of a field
9 m (LA;Ljava/lang/Object;)V 2.2 2a 2b putfield:A.a.LA; b1 -> rule 8 at 2
9 m (LA;LA;)V 2.2 2a 2b putfield:A.a.LA; b1 -> ok
9 m (Ljava/lang/Object;)V 1.1 2a putstatic:A.o.LA; b1 -> rule 8 at 1
9 m (LC;)V 1.1 2a putstatic:A.o.LA; b1 -> ok
# a receiver
9 m (Ljava/lang/Object;)V 1.1 2a invokevirtual:A.f.()V b1 -> rule 8 at 1
9 m (LT;)V 1.1 2a invokevirtual:A.f.()V b1 -> ok
9 m (Ljava/lang/Object;)V 1.1 2a getfield:A.x.I 57 b1 -> rule 8 at 1
9 m (LC;)V 1.1 2a getfield:A.x.I 57 b1 -> ok
9 m (LA;)V 1.1 2a getfield:T.y.I 57 b1 -> rule 8 at 1
9 m (LT;)V 1.1 2a getfield:T.y.I 57 b1 -> ok
# by the class that declares the member: a C for T's x and f
9 m (LC;)V 1.1 2a getfield:T.x.I 57 b1 -> ok
9 m (LC;)V 1.1 2a invokevirtual:T.f.()V b1 -> ok
# what is thrown
9 m (Ljava/lang/Object;)V 1.1 2a bf -> rule 8 at 1
9 m (Ljava/lang/Error;)V 1.1 2a bf -> ok
# a search from the superclass wants an object of the current class
1 m (LA;)V 1.2 2b invokespecial:A.f.()V b1 -> rule 8 at 1
1 m (LA;)V 1.2 2a invokespecial:A.f.()V b1 -> ok
# Object stands in the place of an interface
9 m (Ljava/lang/Object;)V 1.1 2a invokeinterface:I.i.()V 0100 b1 -> ok
9 m (Ljava/lang/Object;)V 1.1 2a putstatic:A.r.LI; b1 -> ok
9 m (LI;)V 1.1 2a invokestatic:A.s.(LA;)V b1 -> rule 8 at 1
9 m ([Ljava/lang/Object;)V 1.1 2a invokestatic:A.w.([LI;)V b1 -> ok
# arrays
9 m ([LT;)V 1.1 2a invokestatic:A.t.([LA;)V b1 -> ok
9 m ([Ljava/lang/Object;)V 1.1 2a invokestatic:A.t.([LA;)V b1 -> rule 8 at 1
9 m ([[LA;)V 1.1 2a invokestatic:A.t.([LA;)V b1 -> rule 8 at 1
9 m ([[I)V 1.1 2a invokestatic:A.u.([Ljava/lang/Object;)V b1 -> ok
9 m ([I)V 1.1 2a invokestatic:A.u.([Ljava/lang/Object;)V b1 -> rule 8 at 1
# aload_0, aaload of it is of its part, and of null is null
9 m ([LT;)V 2.1 2a 03 32 invokestatic:A.s.(LA;)V b1 -> ok
9 m ([Ljava/lang/Object;)V 2.1 2a 03 32 invokestatic:A.s.(LA;)V b1 -> rule 8 at 3
9 m ()V 2.0 01 03 32 invokestatic:A.s.(LA;)V b1 -> ok
9 m ()V 2.0 01 03 32 invokestatic:A.t.([LA;)V b1 -> ok
# a checked cast, also of null
9 m (Ljava/lang/Object;)V 1.1 2a checkcast:A invokestatic:A.s.(LA;)V b1 -> ok
9 m (LA;)V 1.1 2a checkcast:java/lang/Object invokestatic:A.s.(LA;)V b1 -> rule 8 at 4
9 m ()V 1.0 01 checkcast:java/lang/Object invokestatic:A.s.(LA;)V b1 -> rule 8 at 4
9 m ()V 1.0 string:x invokestatic:A.s.(LA;)V b1 -> rule 8 at 3
# arrays that are made
9 m ()V 1.0 03 anewarray:T invokestatic:A.t.([LA;)V b1 -> ok
9 m ()V 1.0 03 anewarray:[I invokestatic:A.u.([Ljava/lang/Object;)V b1 -> ok
9 m ()V 1.0 03 bc 0a invokestatic:A.u.([Ljava/lang/Object;)V b1 -> rule 8 at 3
9 m ()V 2.0 03 03 multianewarray:[[I 02 invokestatic:A.u.([Ljava/lang/Object;)V b1 -> ok
9 m ()V 2.0 03 03 multianewarray:[[I 02 invokestatic:A.t.([LA;)V b1 -> rule 8 at 6
";

/// An array instruction meets something else than its array.
const ARRAY: &str = "
# iaload
9 m ([J)V 2.1 2a 03 2e 57 b1 -> rule 9 at 2
9 m ([I)V 2.1 2a 03 2e 57 b1 -> ok
9 m ()V 2.0 01 03 2e 57 b1 -> ok
9 m (LA;)V 2.1 2a 03 2e 57 b1 -> rule 9 at 2
9 m ([[I)V 2.1 2a 03 2e 57 b1 -> rule 9 at 2
# laload, caload, saload
9 m ([J)V 2.1 2a 03 2f 58 b1 -> ok
9 m ([I)V 2.1 2a 03 2f 58 b1 -> rule 9 at 2
9 m ([C)V 2.1 2a 03 34 57 b1 -> ok
9 m ([S)V 2.1 2a 03 34 57 b1 -> rule 9 at 2
9 m ([S)V 2.1 2a 03 35 57 b1 -> ok
9 m ([C)V 2.1 2a 03 35 57 b1 -> rule 9 at 2
# baload and bastore take bytes and booleans
9 m ([B)V 2.1 2a 03 33 57 b1 -> ok
9 m ([Z)V 2.1 2a 03 33 57 b1 -> ok
9 m ([C)V 2.1 2a 03 33 57 b1 -> rule 9 at 2
9 m ([B)V 3.1 2a 03 03 54 b1 -> ok
9 m ([Z)V 3.1 2a 03 03 54 b1 -> ok
9 m ([I)V 3.1 2a 03 03 54 b1 -> rule 9 at 3
# iastore, lastore, castore, sastore
9 m ([I)V 3.1 2a 03 03 4f b1 -> ok
9 m ([B)V 3.1 2a 03 03 4f b1 -> rule 9 at 3
9 m ([J)V 4.1 2a 03 09 50 b1 -> ok
9 m ([I)V 4.1 2a 03 09 50 b1 -> rule 9 at 3
9 m ([C)V 3.1 2a 03 03 55 b1 -> ok
9 m ([S)V 3.1 2a 03 03 55 b1 -> rule 9 at 3
9 m ([S)V 3.1 2a 03 03 56 b1 -> ok
9 m ([Z)V 3.1 2a 03 03 56 b1 -> rule 9 at 3
# aaload, and aastore of any reference
9 m ([I)V 2.1 2a 03 32 57 b1 -> rule 9 at 2
9 m ([[I)V 2.1 2a 03 32 57 b1 -> ok
9 m ([ILjava/lang/Object;)V 3.2 2a 03 2b 53 b1 -> rule 9 at 3
9 m ([LA;Ljava/lang/Object;)V 3.2 2a 03 2b 53 b1 -> ok
9 m ([[I[J)V 3.2 2a 03 2b 53 b1 -> ok
# arraylength
9 m (Ljava/lang/Object;)V 1.1 2a be 57 b1 -> rule 9 at 1
9 m ([[J)V 1.1 2a be 57 b1 -> ok
9 m ()V 1.0 01 be 57 b1 -> ok
";

/// An uninitialised object is used.
const UNINITIALISED: &str = "
# a receiver
9 m ()V 1.0 new:A invokevirtual:A.f.()V b1 -> rule 10 at 3
9 m ()V 2.0 new:A 59 invokespecial:A.<init>.()V invokevirtual:A.f.()V b1 -> ok
9 m ()V 1.0 new:A getfield:A.x.I 57 b1 -> rule 10 at 3
# an argument, the value of a field, an element, a result, what is thrown
9 m ()V 1.0 new:A invokestatic:A.s.(LA;)V b1 -> rule 10 at 3
9 m ()V 1.0 new:A putstatic:A.o.LA; b1 -> rule 10 at 3
9 m ([LA;)V 3.1 2a 03 new:A 53 b1 -> rule 10 at 5
9 m ()LA; 1.0 new:A b0 -> rule 10 at 3
9 m ()V 1.0 new:java/lang/Error bf -> rule 10 at 3
# ifnull, if_acmpeq, checkcast, instanceof, monitorenter
9 m ()V 1.0 new:A c6 0003 b1 -> rule 10 at 3
9 m ()V 2.0 new:A 01 a5 0003 b1 -> rule 10 at 4
9 m ()V 1.0 new:A checkcast:A 57 b1 -> rule 10 at 3
9 m ()V 1.0 new:A instanceof:A 57 b1 -> rule 10 at 3
9 m ()V 1.0 new:A c2 b1 -> rule 10 at 3
# arraylength
9 m ()V 1.0 new:A be 57 b1 -> rule 10 at 3
# astore_0 aload_0 dup swap pop pop
9 m ()V 2.1 new:A 4b 2a 59 5f 57 57 b1 -> ok
# a constructor sets fields of its own class before it calls another, and no others
1 <init> ()V 2.1 2a 03 putfield:T.y.I 2a invokespecial:A.<init>.()V b1 -> ok
1 <init> ()V 2.1 2a 03 putfield:A.x.I 2a invokespecial:A.<init>.()V b1 -> rule 10 at 2
1 <init> ()V 2.1 2a 03 putfield:T.x.I 2a invokespecial:A.<init>.()V b1 -> rule 10 at 2
1 <init> ()V 2.1 2a invokespecial:A.<init>.()V 2a 03 putfield:A.x.I b1 -> ok
1 <init> ()V 1.1 2a getfield:T.y.I 57 b1 -> rule 10 at 1
1 <init> ()V 1.1 2a invokevirtual:A.f.()V b1 -> rule 10 at 1
9 m ()V 2.0 new:T 03 putfield:T.y.I b1 -> rule 10 at 4
# 0 new Object, 3 nop, 4 iconst_0, 5 ifne 3, 8 a call of <init>: it may stand there at a jump back
9 m ()V 2.0 new:java/lang/Object 00 03 9a fffe invokespecial:java/lang/Object.<init>.()V b1 -> ok
# the last of two made by one instruction; the first isn't initialised: 0 new, astore_1, iload_0, ifne 0
9 m (I)V 1.2 new:A 4b 1a b1 -> rule 6 at 4
9 m (I)V 1.2 new:A 4c 1a 9a fffb 2b invokespecial:A.<init>.()V b1 -> ok
9 m (I)V 2.3 new:A 4c 2b 4d 2b invokespecial:A.<init>.()V 2c invokestatic:A.s.(LA;)V b1 -> ok
9 m (I)V 1.3 new:A 4c new:A 4d 2b invokespecial:A.<init>.()V 2c invokestatic:A.s.(LA;)V b1 -> rule 10 at 13
";

/// An initialiser is called on what isn't its, or isn't called.
const INITIALISER: &str = "
# on an initialised object; one that doesn't fit breaks rule 8 too
9 m (LA;)V 1.1 2a invokespecial:A.<init>.()V b1 -> rule 11 at 1
9 m (Ljava/lang/Object;)V 1.1 2a invokespecial:A.<init>.()V b1 -> rule 8 at 1
9 m ()V 1.0 01 invokespecial:A.<init>.()V b1 -> rule 11 at 1
9 m ()V 1.0 03 invokespecial:A.<init>.()V b1 -> rule 4 at 1
# of another class than was made
9 m ()V 1.0 new:java/lang/Error invokespecial:java/lang/Exception.<init>.()V b1 -> rule 11 at 3
9 m ()V 1.0 new:java/lang/Error invokespecial:java/lang/Error.<init>.()V b1 -> ok
# a constructor calls one of its class or of the one above
1 <init> ()V 1.1 2a invokespecial:java/lang/Object.<init>.()V b1 -> rule 11 at 1
1 <init> ()V 1.1 2a invokespecial:A.<init>.()V b1 -> ok
1 <init> ()V 1.1 2a invokespecial:T.<init>.()V b1 -> ok
1 <init> ()V 1.1 2a invokespecial:java/lang/Error.<init>.()V b1 -> rule 11 at 1
# once alone
1 <init> ()V 2.1 2a 59 invokespecial:A.<init>.()V invokespecial:A.<init>.()V b1 -> rule 11 at 5
# and before it returns, on each path: iload_1, ifeq 8, aload_0, a call, 8 return
1 <init> ()V 0.1 b1 -> rule 11 at 0
1 <init> (I)V 1.2 1b 99 0007 2a invokespecial:A.<init>.()V b1 -> rule 11 at 8
1 <init> (I)V 1.2 1b 99 0008 2a invokespecial:A.<init>.()V b1 01 bf -> ok
1 <init> ()V 1.1 01 bf -> ok
1 <init> ()V 1.1 a7 0000 -> ok
# where it meets itself it stays, in a local and on the stack: iload_1, ifeq, the first, goto, the other
1 <init> (I)V 1.3 1b 99 0008 2a 4d a7 0005 2a 4d 2c invokespecial:A.<init>.()V b1 -> ok
1 <init> (I)V 1.2 1b 99 0007 2a a7 0004 2a invokespecial:A.<init>.()V b1 -> ok
# it has no join with null, an int, what is made by new, an object of the class, or an array
1 <init> (I)V 1.3 1b 99 0008 2a 4d a7 0005 01 4d 2c invokespecial:A.<init>.()V b1 -> rule 6 at 11
1 <init> (I)V 1.3 1b 99 0008 01 4d a7 0005 2a 4d 2c invokespecial:A.<init>.()V b1 -> rule 6 at 11
1 <init> (I)V 1.3 1b 99 0008 2a 4d a7 0005 03 3d 2c invokespecial:A.<init>.()V b1 -> rule 6 at 11
1 <init> (I)V 1.3 1b 99 0008 2a 4d a7 0007 new:A 4d 2c invokespecial:A.<init>.()V b1 -> rule 6 at 13
1 <init> (ILT;)V 1.4 1b 99 0008 2a 4e a7 0005 2c 4e 2d invokespecial:A.<init>.()V b1 -> rule 6 at 11
1 <init> (I[I)V 1.4 1b 99 0008 2a 4e a7 0005 2c 4e 2d invokespecial:A.<init>.()V b1 -> rule 6 at 11
1 <init> (I)V 1.2 1b 99 0007 2a a7 0004 01 invokespecial:A.<init>.()V b1 -> rule 7 at 9
# to a handler the locals flow from before the call
1 <init> ()V 1.1 2a invokespecial:A.<init>.()V b1 57 b1 catch:0.4.5.any -> rule 11 at 6
1 <init> ()V 1.1 2a invokespecial:A.<init>.()V 00 b1 57 b1 catch:4.5.6.any -> ok
9 m ()V 1.1 new:A 4b 2a invokespecial:A.<init>.()V b1 57 2a invokevirtual:A.f.()V b1 catch:5.8.9.any -> rule 10 at 11
9 m ()V 1.1 new:A 4b 2a invokespecial:A.<init>.()V 00 b1 57 2a invokevirtual:A.f.()V b1 catch:8.9.a.any -> ok
";

/// A return isn't of the method's result.
const RETURN: &str = "
9 m ()I 0.0 b1 -> rule 12 at 0
9 m ()V 1.0 03 ac -> rule 12 at 1
9 m ()J 1.0 03 ac -> rule 12 at 1
9 m ()J 2.0 09 ad -> ok
9 m ()LA; 1.0 03 ac -> rule 12 at 1
9 m ()V 1.0 01 b0 -> rule 12 at 1
9 m ()I 1.0 01 b0 -> rule 12 at 1
9 m ()Z 1.0 03 ac -> ok
9 m ()C 1.0 03 ac -> ok
9 m ()LA; 1.0 01 b0 -> ok
9 m (Ljava/lang/Object;)LA; 1.1 2a b0 -> rule 12 at 1
9 m (LT;)LA; 1.1 2a b0 -> ok
9 m (Ljava/lang/Object;)LI; 1.1 2a b0 -> ok
9 m ([LT;)[LA; 1.1 2a b0 -> ok
9 m ([LA;)[LT; 1.1 2a b0 -> rule 12 at 1
9 m ([LA;)Ljava/lang/Object; 1.1 2a b0 -> ok
";

/// A handler catches what isn't thrown.
const HANDLER: &str = "
9 m ()V 1.0 00 b1 57 b1 catch:0.1.2.A -> rule 13 at 2
9 m ()V 1.0 00 b1 57 b1 catch:0.1.2.java/lang/Exception -> ok
9 m ()V 1.0 00 b1 57 b1 catch:0.1.2.java/lang/Throwable -> ok
9 m ()V 1.0 00 b1 57 b1 catch:0.1.2.java/lang/Object -> rule 13 at 2
# aconst_null, goto 5, 4 nop: the handler of 4 has a frame, though 4 hasn't; one without a frame is fine
9 m ()V 1.0 01 a7 0004 00 57 b1 catch:4.5.5.A -> rule 13 at 5
9 m ()V 1.0 b1 00 57 b1 catch:1.2.2.A -> ok
# what it catches is of the entry's class
9 m ()V 1.0 00 b1 b0 catch:0.1.2.java/lang/Error -> rule 12 at 2
9 m ()Ljava/lang/Error; 1.0 00 01 b0 b0 catch:0.1.3.java/lang/Error -> ok
9 m ()Ljava/lang/Error; 1.0 00 01 b0 b0 catch:0.1.3.java/lang/Exception -> rule 12 at 3
9 m ()Ljava/lang/Throwable; 1.0 00 01 b0 b0 catch:0.1.3.any -> ok
# two ranges with one handler give the first common superclass
9 m ()Ljava/lang/Throwable; 1.0 00 00 01 b0 b0 catch:0.1.4.java/lang/Error catch:1.2.4.java/lang/Exception -> ok
9 m ()Ljava/lang/Error; 1.0 00 00 01 b0 b0 catch:0.1.4.java/lang/Error catch:1.2.4.java/lang/Exception -> rule 12 at 4
# the range ends before its end: iconst_0 istore_0 1 nop 3 iload_0 in the handler of 0 to 2 and of 2 to 3
9 m ()V 1.1 03 3b 00 b1 57 1a 57 b1 catch:0.2.4.any -> rule 6 at 5
9 m ()V 1.1 03 3b 00 b1 57 1a 57 b1 catch:2.3.4.any -> ok
# the locals are those from before each instruction of the range
9 m ()V 1.1 03 3b 01 4b 00 b1 57 1a 57 b1 catch:2.4.6.any -> ok
9 m ()V 1.1 03 3b 01 4b 00 b1 57 1a 57 b1 catch:2.5.6.any -> rule 6 at 7
# also where the instruction breaks a rule; the lower address is told
9 m ()V 1.1 03 3b 57 b1 57 1a 57 b1 catch:2.3.4.any -> rule 3 at 2
";

#[test]
fn references(rt: HostRuntime) -> Result<(), Fail> {
    for table in [REFERENCE, ARRAY] {
        assert_eq!(rt; wrong_row(rt.alloc(), table)?, None);
    }
    Ok(())
}

#[test]
fn uninitialised(rt: HostRuntime) -> Result<(), Fail> {
    for table in [UNINITIALISED, INITIALISER] {
        assert_eq!(rt; wrong_row(rt.alloc(), table)?, None);
    }
    Ok(())
}

#[test]
fn returns_and_handlers(rt: HostRuntime) -> Result<(), Fail> {
    for table in [RETURN, HANDLER] {
        assert_eq!(rt; wrong_row(rt.alloc(), table)?, None);
    }
    Ok(())
}
