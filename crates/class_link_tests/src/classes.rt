//! Code that isn't decoded, and classes as wholes: their names, superclasses and interfaces.

/// The place of the file and of the method, from 0, then the reason and the address.
pub(crate) const CODE: &str = "\
A, method 9 f ()V 00 -> ok
A, method 9 f ()V ba -> code 0 0 unknown-op 0
A, method 9 f ()V 00 ca -> code 0 0 unknown-op 1
# methods without code count
A 421, method 401 f ()V, method 9 g ()V 0b -> code 0 1 left-out-op 0
A | B, method 9 f ()V 11 00 -> ok
A | B, method 9 f ()V 11 -> code 1 0 cut-op 0
A, method 9 f ()V, method 9 g ()V b2 00 01 -> code 0 1 bad-index 0
A, method 9 f ()V invokeinterface:java/lang/Runnable.run.()V 01 00 -> ok
A, method 9 f ()V invokeinterface:java/lang/Runnable.run.()V 02 00 -> code 0 0 bad-index 0
A, method 9 f ()V invokeinterface:java/lang/Runnable.run.()V 01 01 -> code 0 0 bad-index 0
A, method 9 f ()V a7 00 03 -> ok
A, method 9 f ()V a7 00 04 -> code 0 0 target-off 0
A, method 9 f ()V catch:0.1.1.any 00 -> ok
A, method 9 f ()V catch:0.2.1.any 00 -> ok
A, method 9 f ()V catch:0.3.1.any 00 -> code 0 0 bad-table 0
A, method 9 f ()V catch:0.1.1.any catch:1.1.0.any 00 -> code 0 0 bad-table 1
# the first method of the first file
A, method 9 f ()V ba, method 9 g ()V cb -> code 0 0 unknown-op 0
A | B, method 9 f ()V ba | C, method 9 g ()V cb -> code 1 0 unknown-op 0
";

pub(crate) const SAME: &str = "\
A | B -> ok
A | A -> A same-class A
A | B | A -> A same-class A
B | A | A | B -> A same-class A
Main -> Main same-class Main
p/A | A | q/A -> ok
p/A | A | p/A -> p/A same-class p/A
# boot classes
java/lang/Object -> java/lang/Object same-class java/lang/Object
java/lang/Object, super none -> java/lang/Object same-class java/lang/Object
java/io/PrintStream -> java/io/PrintStream same-class java/io/PrintStream
java/lang/Runnable 601 -> java/lang/Runnable same-class java/lang/Runnable
java/lang/UnsupportedOperationException -> \
java/lang/UnsupportedOperationException same-class java/lang/UnsupportedOperationException
Object | java/lang/Integer | java/io/Object -> ok
# a class that nobody can name
[I -> ok
[I | [I -> [I same-class [I
";

pub(crate) const MISSING: &str = "\
# a superclass and an interface
A, super B -> A no-class B
A, super B | B -> ok
A, super java/lang/Thread -> ok
A, super [LB; -> A no-class B
A, of I -> A no-class I
A, of I | I 601 -> ok
A, of java/lang/Runnable -> ok
A, of [LB; -> A no-class B
# declared descriptors
A, field 1 x LB; -> A no-class B
A, field 1 x LB; | B -> ok
A, field 1 x [[LB; -> A no-class B
A, field 1 x [[J -> ok
A, method 9 f (ILB;J)V -> A no-class B
A, method 9 f (ILB;J)V | B -> ok
A, method 9 f ()[LB; -> A no-class B
A 421, method 401 f ([LB;)V -> A no-class B
# classes in code
A, method 9 f ()V new:B -> A no-class B
A, method 9 f ()V anewarray:B -> A no-class B
A, method 9 f ()V anewarray:[LB; -> A no-class B
A, method 9 f ()V anewarray:[[I -> ok
A, method 9 f ()V checkcast:[LB; -> A no-class B
A, method 9 f ()V instanceof:B -> A no-class B
A, method 9 f ()V multianewarray:[[LB; 01 -> A no-class B
A, method 9 f ()V multianewarray:[[LB; 01 | B -> ok
A, method 9 f ()V catch:0.1.1.B 00 -> A no-class B
A, method 9 f ()V catch:0.1.1.[LB; 00 -> A no-class B
A, method 9 f ()V catch:0.1.1.any 00 -> ok
# the class of a member, and those of its descriptor
A, method 9 f ()V getstatic:B.x.I -> A no-class B
A, method 9 f ()V invokevirtual:[LB;.wait.()V -> A no-class B
A, method 9 f ()V putfield:A.x.[LB; -> A no-class B
A, method 9 f ()V invokestatic:A.g.(ILB;)V -> A no-class B
A, method 9 f ()V invokestatic:A.g.(I)LB; -> A no-class B
A, method 9 f ()V invokeinterface:I.g.()V 01 00 -> A no-class I
# an item that no code uses
A, unused B -> ok
";

/// Which of two missing classes.
pub(crate) const MISSING_FIRST: &str = "\
A, super B, of C -> A no-class B
A, of C, of B -> A no-class C
A, of C, field 1 x LB; -> A no-class C
A, method 9 f (LB;)V, field 1 x LC; -> A no-class C
A, field 1 y LD;, field 1 x LC; -> A no-class D
A, method 9 f (LD;LC;)LB; -> A no-class D
A, method 9 f (I)LD; new:B -> A no-class D
A, method 9 f ()V new:D new:B -> A no-class D
A, method 9 f ()V invokestatic:D.g.(LC;)LB; -> A no-class D
A, method 9 f ()V invokestatic:A.g.(ILD;LC;)LB; -> A no-class D
A, method 9 f ()V invokestatic:A.g.()LD; new:B -> A no-class D
A, method 9 f ()V catch:0.3.3.B new:D -> A no-class D
A, method 9 f ()V catch:0.1.1.any catch:0.1.1.D catch:0.1.1.C 00 -> A no-class D
A, method 9 f ()V catch:0.1.1.D 00, method 9 g (LC;)V -> A no-class D
A, method 9 f ()V new:D, method 9 g (LC;)V -> A no-class D
A, method 9 f ()V catch:0.1.1.D 00 | B, super C -> A no-class D
";

pub(crate) const ABOVE: &str = "\
# no superclass
A, super none -> A wrong-kind
I 601, super none -> I wrong-kind
# a class lies below a class
A, super I | I 601 -> A wrong-kind I
A, super I | I 201 -> A wrong-kind I
A, super java/lang/Runnable -> A wrong-kind java/lang/Runnable
A, super B | B 421 -> ok
A, super [I -> A wrong-kind [I
A, super [LB; | B -> A wrong-kind [LB;
# an interface lies below Object
I 601 -> ok
I 201 -> ok
I 601, super B | B -> I wrong-kind B
I 601, super java/lang/Thread -> I wrong-kind java/lang/Thread
I 601, super J | J 601 -> I wrong-kind J
# a listed interface is one
A, of B | B -> A wrong-kind B
A, of B | B 421 -> A wrong-kind B
A, of java/lang/Object -> A wrong-kind java/lang/Object
A, of I, of B | I 601 | B -> A wrong-kind B
A, of [I -> A wrong-kind [I
A, of [LI; | I 601 -> A wrong-kind [LI;
A, of I, of J, of I | I 601 | J 201 -> ok
I 601, of B | B -> I wrong-kind B
I 601, of J | J 601 -> ok
# the superclass comes first, then the interfaces
A, super I, of B | I 601 | B -> A wrong-kind I
A, super none, of B | B -> A wrong-kind
A, of C, of B | B | C -> A wrong-kind C
# a final superclass
A, super B | B 31 -> A final-super B
A 31, super B | B -> ok
A, super java/lang/Class -> A final-super java/lang/Class
A, super java/lang/String -> A final-super java/lang/String
A, super java/lang/StringBuffer -> A final-super java/lang/StringBuffer
A, super java/lang/System -> A final-super java/lang/System
A, super java/io/PrintStream -> ok
A, super java/lang/Throwable -> ok
A, super java/lang/VirtualMachineError -> ok
A, super java/lang/UnsupportedOperationException -> ok
";

pub(crate) const LOOPS: &str = "\
A, super A -> A super-loop A
A, super B | B, super A -> A super-loop A
B, super A | A, super B -> B super-loop B
A, super B | B, super C | C, super A -> A super-loop A
A, super B | B, super C | C -> ok
# through interfaces
I 601, of I -> I super-loop I
I 601, of J | J 601, of I -> I super-loop I
I 601, of J | J 601, of K | K 601, of I -> I super-loop I
I 601, of J, of K | J 601 | K 601, of I -> I super-loop I
# the class itself lies on the loop
A, super B | B, super B -> B super-loop B
A, super B | B, super C | C, super B -> B super-loop B
A, of I | I 601, of J | J 601, of I -> I super-loop I
A, of I, super B | B, super B | I 601, of I -> B super-loop B
A | B, super B | C, super C -> B super-loop B
# several ways to one interface are no loop
A, of I, of J | I 601, of K | J 601, of K | K 601 -> ok
A, super B, of K | B, of I | I 601, of K | K 601 -> ok
";
