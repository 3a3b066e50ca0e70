//! Faults, what is asked, called, thrown and left, and instructions that were answered.

use crate::rows::{Run, wrong_row};
use std::test::Fail;

const ARRAYS: &str = "
null 0 iaload -> NullPointer
null 0 laload -> NullPointer
null -1 aaload -> NullPointer
@1 0 iaload -> asks
@1 -1 laload -> asks
@1 0 aaload -> asks
@1 0 baload -> asks
@1 0 caload -> asks
@1 0 saload -> asks
null 0 5 iastore -> NullPointer
null -1 5L lastore -> NullPointer
null 0 @2 aastore -> NullPointer
@1 0 5 iastore -> asks
@1 -1 5L lastore -> asks
@1 0 null aastore -> asks
@1 0 5 bastore -> asks
@1 0 5 castore -> asks
@1 0 5 sastore -> asks
null arraylength -> NullPointer
@1 arraylength -> asks
# sizes
-1 newarray.0a -> NegativeSize
-2147483648 newarray.0b -> NegativeSize
0 newarray.04 -> asks
2147483647 newarray.0a -> asks
-1 anewarray.0006 -> NegativeSize
0 anewarray.0006 -> asks
0 -1 multianewarray.000602 -> NegativeSize
-1 0 multianewarray.000602 -> NegativeSize
-1 -1 multianewarray.000602 -> NegativeSize
0 0 multianewarray.000602 -> asks
-1 0 0 multianewarray.000602 -> asks
-1 multianewarray.000601 -> NegativeSize
-1 0 multianewarray.000601 -> asks
";

const OBJECTS: &str = "
getstatic.0007 -> asks
5 putstatic.0007 -> asks
null putstatic.0007 -> asks
null getfield.0007 -> NullPointer
@1 getfield.0007 -> asks
null @1 getfield.0007 -> asks
null 5 putfield.0007 -> NullPointer
@1 5 putfield.0007 -> asks
@1 null putfield.0007 -> asks
new.0006 -> asks
null monitorenter -> NullPointer
@1 monitorenter -> asks
null monitorexit -> NullPointer
@1 monitorexit -> asks
# the program tells whether the object is of the class
@3 checkcast.0006 fits -> @3
@3 checkcast.0006 fails -> ClassCast
null checkcast.0006 fits -> null
null checkcast.0006 fails -> null
5 8L @3 checkcast.0006 fits -> 5 8L @3
@3 instanceof.0006 fits -> 1
@3 instanceof.0006 fails -> 0
null instanceof.0006 fits -> 0
null instanceof.0006 fails -> 0
5 8L @3 instanceof.0006 fits -> 5 8L 1
";

const WAYS: &str = "
null 8L 1 invokevirtual.0008 -> NullPointer
@1 8L 1 invokevirtual.0008 -> calls
null @1 8L 1 invokevirtual.0008 -> calls
null 8L 1 invokespecial.0008 -> NullPointer
@1 8L 1 invokespecial.0008 -> calls
null 8L 1 invokeinterface.00090400 -> NullPointer
@1 8L 1 invokeinterface.00090400 -> calls
8L 1 invokestatic.0008 -> calls
null 8L 1 invokestatic.0008 -> calls
null athrow -> NullPointer
@1 athrow -> throws @1
@2 @1 athrow -> throws @1
7 ireturn -> leaves 7
5 8L 7 ireturn -> leaves 7
8L lreturn -> leaves 8L
@3 areturn -> leaves @3
null areturn -> leaves null
return -> leaves
7 return -> leaves
";

/// The answer, if any, stands behind the instruction.
const ANSWERED: &str = "
@1 3 iaload 9 -> 9
@1 3 laload 9L -> 9L
5 @1 3 aaload null -> 5 null
@1 3 9 iastore -> on
5 @1 3 9L lastore -> 5
5L @1 3 @2 aastore -> 5L
5 @1 arraylength 4 -> 5 4
getstatic.0007 9 -> 9
5 getstatic.0007 9 -> 5 9
5 9 putstatic.0007 -> 5
@1 getfield.0007 9 -> 9
5 @1 getfield.0007 9 -> 5 9
@1 9 putfield.0007 -> on
5 @1 9 putfield.0007 -> 5
5 @1 8L 1 invokevirtual.0008 -> 5
5 @1 8L 1 invokevirtual.0010 9L -> 5 9L
5 @1 8L 1 invokespecial.0008 -> 5
5 @1 8L 1 invokeinterface.00090400 -> 5
5 @1 8L 1 invokestatic.0008 -> 5 @1
5 @1 8L 1 invokestatic.0010 9L -> 5 @1 9L
new.0006 @9 -> @9
5 new.0006 @9 -> 5 @9
5 3 newarray.0a @9 -> 5 @9
5 3 anewarray.0006 @9 -> 5 @9
5 2 3 multianewarray.000602 @9 -> 5 @9
5 2 3 multianewarray.000601 @9 -> 5 2 @9
@1 monitorenter -> on
5 @1 monitorexit -> 5
";

#[test]
fn faults_and_requests(rt: HostRuntime) -> Result<(), Fail> {
    for table in [ARRAYS, OBJECTS, WAYS] {
        assert_eq!(rt; wrong_row(rt.alloc(), table, Run::Alone)?, None);
    }
    Ok(())
}

#[test]
fn answers(rt: HostRuntime) -> Result<(), Fail> {
    assert_eq!(rt; wrong_row(rt.alloc(), ANSWERED, Run::Answered)?, None);
    Ok(())
}
