//! What classes declare: descriptors, natives and interfaces' members, and overriding.

pub(crate) const LEFT_OUT: &str = "\
# declared descriptors
A, field 1 x F -> A left-out-desc xF
A, field 1 x D -> A left-out-desc xD
A, field 1 x [[D -> A left-out-desc x[[D
A, field 1 x J, field 1 y [S, field 1 z LF; | F -> ok
A, method 9 f (IF)V -> A left-out-desc f(IF)V
A, method 9 f ([D)V -> A left-out-desc f([D)V
A, method 9 f ()F -> A left-out-desc f()F
A 421, method 401 f ()[D -> A left-out-desc f()[D
A, method 9 f (IJLD;)LF; | D | F -> ok
I 601, method 401 f (D)V -> I left-out-desc f(D)V
# used members
A, method 9 f ()V getstatic:A.x.F -> A left-out-desc xF
A, method 9 f ()V putfield:A.x.[D -> A left-out-desc x[D
A, method 9 f ()V invokestatic:A.g.(D)V -> A left-out-desc g(D)V
A, method 9 f ()V invokespecial:A.g.()[F -> A left-out-desc g()[F
A, method 9 f ()V invokeinterface:java/lang/Runnable.run.()F 01 00 -> A left-out-desc run()F
# used array classes
A, method 9 f ()V checkcast:[F -> A left-out-desc [F
A, method 9 f ()V instanceof:[[D -> A left-out-desc [[D
A, method 9 f ()V anewarray:[F -> A left-out-desc [F
A, method 9 f ()V multianewarray:[[F 02 -> A left-out-desc [[F
A, method 9 f ()V catch:0.1.1.[D 00 -> A left-out-desc [D
A, method 9 f ()V invokevirtual:[F.wait.()V -> A left-out-desc [F
A, method 9 f ()V checkcast:[LF; anewarray:[J multianewarray:[[S 02 | F -> ok
A, unused [F -> ok
# which of two: fields, then each method's descriptor, code and table
A, field 1 x D, field 1 y F -> A left-out-desc xD
A, method 9 f (F)V, field 1 x D -> A left-out-desc xD
A, method 9 f (F)V, method 9 g (D)V -> A left-out-desc f(F)V
A, method 9 f (F)V checkcast:[F -> A left-out-desc f(F)V
A, method 9 f ()V checkcast:[F, method 9 g (D)V -> A left-out-desc [F
A, method 9 f ()V checkcast:[F checkcast:[D -> A left-out-desc [F
A, method 9 f ()V catch:0.3.3.[D checkcast:[F -> A left-out-desc [F
A, method 9 f ()V catch:0.1.1.[D 00, method 9 g (F)V -> A left-out-desc [D
A, method 9 f ()V invokevirtual:[F.g.(D)V -> A left-out-desc [F
";

pub(crate) const KINDS: &str = "\
# native methods
A, method 101 f ()V -> A wrong-kind f()V
A, method 109 f (I)J -> A wrong-kind f(I)J
A, method 401 f ()V -> ok
# fields of interfaces
I 601, field 1 x I -> I wrong-kind xI
I 201, field 11 x J -> I wrong-kind xJ
I 601, field 9 x I -> ok
I 601, field 19 x I -> ok
# methods of interfaces
I 601, method 1 f ()V -> I wrong-kind f()V
I 601, method 9 f ()V -> I wrong-kind f()V
I 601, method 1 <init> ()V -> I wrong-kind <init>()V
I 601, method 101 f ()V -> I wrong-kind f()V
I 601, method 401 f ()V, method 8 <clinit> ()V -> ok
# which of two
I 601, method 1 f ()V, field 1 x I -> I wrong-kind xI
I 601, field 19 w I, field 1 y I, field 1 x I -> I wrong-kind yI
A, method 1 f ()V, method 101 h ()V, method 101 g ()V -> A wrong-kind h()V
";

/// A method of A against one of its superclass.
pub(crate) const OVERRIDES: &str = "\
# final
A, super B, method 1 f ()V | B, method 1 f ()V -> ok
A, super B, method 1 f ()V | B, method 11 f ()V -> A bad-override f()V
A, super B, method 11 f ()V | B, method 1 f ()V -> ok
A, super B, method 9 f ()V | B, method 19 f ()V -> A bad-override f()V
A, super B, method 1 f ()V | B, method 12 f ()V -> ok
# another name or another descriptor
A, super B, method 1 g ()V | B, method 11 f ()V -> ok
A, super B, method 1 f (I)V | B, method 11 f ()V -> ok
A, super B, method 1 f ()I | B, method 11 f ()V -> ok
# static and instance
A, super B, method 1 f ()V | B, method 9 f ()V -> A bad-override f()V
A, super B, method 9 f ()V | B, method 1 f ()V -> A bad-override f()V
A, super B, method 9 f ()V | B, method 9 f ()V -> ok
A, super B, method 9 f ()V | B, method 2 f ()V -> ok
# less access: private 2, package 0, protected 4, public 1
A, super B, method 4 f ()V | B, method 1 f ()V -> A bad-override f()V
A, super B, method 0 f ()V | B, method 1 f ()V -> A bad-override f()V
A, super B, method 2 f ()V | B, method 1 f ()V -> A bad-override f()V
A, super B, method 1 f ()V | B, method 4 f ()V -> ok
A, super B, method 4 f ()V | B, method 4 f ()V -> ok
A, super B, method 0 f ()V | B, method 4 f ()V -> A bad-override f()V
A, super B, method 2 f ()V | B, method 4 f ()V -> A bad-override f()V
A, super B, method 1 f ()V | B, method 0 f ()V -> ok
A, super B, method 4 f ()V | B, method 0 f ()V -> ok
A, super B, method 0 f ()V | B, method 0 f ()V -> ok
A, super B, method 2 f ()V | B, method 0 f ()V -> A bad-override f()V
A, super B, method 2 f ()V | B, method 2 f ()V -> ok
A, super B, method 0 f ()V | B, method 2 f ()V -> ok
# packages: without an access word it is there in its own alone
p/A, super q/B, method 9 f ()V | q/B, method 0 f ()V -> ok
p/A, super q/B, method 9 f ()V | q/B, method 4 f ()V -> p/A bad-override f()V
p/A, super q/B, method 1 f ()V | q/B, method 11 f ()V -> p/A bad-override f()V
p/A, super p/B, method 9 f ()V | p/B, method 0 f ()V -> p/A bad-override f()V
p/q/A, super p/B, method 9 f ()V | p/B, method 0 f ()V -> ok
p/A, super p/q/B, method 9 f ()V | p/q/B, method 0 f ()V -> ok
p/q/A, super p/q/B, method 9 f ()V | p/q/B, method 0 f ()V -> p/q/A bad-override f()V
A, super p/B, method 9 f ()V | p/B, method 0 f ()V -> ok
p, super p/B, method 9 f ()V | p/B, method 0 f ()V -> ok
# further up
A, super B, method 9 f ()V | B, super C | C, method 1 f ()V -> A bad-override f()V
A, super B, method 9 f ()V | B, super C, method 2 f ()V | C, method 0 f ()V -> A bad-override f()V
p/A, super q/B, method 1 f ()V | q/B, super p/C, method 1 f ()V | p/C, method 10 f ()V \
-> p/A bad-override f()V
";

/// Initialisers, boot classes and interfaces, and which of two.
pub(crate) const MORE_OVERRIDES: &str = "\
A, super B, method 2 <init> ()V | B, method 1 <init> ()V -> ok
A, super B, method 8 <clinit> ()V | B, method 18 <clinit> ()V -> ok
A, super B, method 1 init ()V | B, method 11 init ()V -> A bad-override init()V
# Object's methods are final
A, method 1 wait ()V -> A bad-override wait()V
A, method 1 notify ()V -> A bad-override notify()V
A, method 1 notifyAll ()V -> A bad-override notifyAll()V
A, method 1 wait (J)V, method 1 notify ()I -> ok
A, method 1 toString ()Ljava/lang/String;, method 9 hashCode ()I -> ok
# others aren't
A, super java/lang/Thread, method 1 run ()V, method 1 start ()V -> ok
A, super java/lang/Thread, method 0 run ()V -> A bad-override run()V
A, super java/lang/Thread, method 9 join ()V -> A bad-override join()V
A, super java/lang/Thread, method 1 yield ()V -> A bad-override yield()V
A, super java/lang/Thread, method 9 yield ()V -> ok
A, super java/lang/Error, method 4 getMessage ()Ljava/lang/String; -> \
A bad-override getMessage()Ljava/lang/String;
A, super java/lang/Error, method 1 getMessage ()Ljava/lang/String; -> ok
# of interfaces Object alone is asked
I 601, method 401 notify ()V -> I bad-override notify()V
I 601, method 401 run ()V, of java/lang/Runnable -> ok
A, of java/lang/Runnable, method 0 run ()V -> ok
A, of java/lang/Runnable, method 9 run ()V -> ok
A 421, super B, method 401 f ()V | B, method 1 f ()V -> ok
A, super B, method 1 f ()V | B 421, method 401 f ()V -> ok
A, super B, method 0 f ()V | B 421, method 404 f ()V -> A bad-override f()V
# which of two
A, super B, method 9 g ()V, method 9 f ()V | B, method 1 f ()V, method 1 g ()V -> \
A bad-override g()V
A, super B, method 1 e ()V, method 9 f ()V | B, method 1 f ()V, method 1 e ()V -> \
A bad-override f()V
";
