//! What code uses: whether it is found, of the right kind, and accessible.

pub(crate) const FIELDS: &str = "\
A, field 9 x I, method 9 f ()V getstatic:A.x.I -> ok
A, field 9 x I, method 9 f ()V getstatic:A.x.J -> A no-field xJ
A, field 9 x I, method 9 f ()V getstatic:A.y.I -> A no-field yI
A, method 9 x ()I, method 9 f ()V putfield:A.x.I -> A no-field xI
A, method 9 f ()V getstatic:java/lang/System.out.Ljava/io/PrintStream; -> ok
A, method 9 f ()V getstatic:java/lang/System.err.Ljava/io/PrintStream; -> \
A no-field errLjava/io/PrintStream;
# from an interface, from one above it, from a superclass, from its interface
A, of I, method 9 f ()V getstatic:A.x.I | I 601, field 19 x I -> ok
A, of I, method 9 f ()V getstatic:A.x.I | I 601, of J | J 601, field 19 x I -> ok
A, super B, method 9 f ()V getstatic:A.x.I | B, field 9 x I -> ok
A, super B, method 9 f ()V getstatic:A.x.I | B, super C | C, field 9 x I -> ok
A, super B, method 9 f ()V getstatic:A.x.I | B, of I | I 601, field 19 x I -> ok
A, method 9 f ()V getstatic:I.x.I | I 601, of J | J 601, field 19 x I -> ok
A, method 9 f ()V getstatic:B.x.I | B | C, super B, field 9 x I -> A no-field xI
# its own comes first, then those of interfaces, then the superclass's
A, super B, of I, field 1 x I, method 9 f ()V getfield:A.x.I \
| B, field 9 x I | I 601, field 19 x I -> ok
A, super B, of I, method 9 f ()V getstatic:A.x.I | B, field 1 x I | I 601, field 19 x I -> ok
A, super B, of I, method 9 f ()V getfield:A.x.I | B, field 1 x I | I 601, field 19 x I -> \
A wrong-kind xI
A, super B, of I, method 9 f ()V getstatic:A.x.I | B, field 1 x I \
| I 601, of J | J 601, field 19 x I -> ok
A, super B, method 9 f ()V getfield:A.x.I | B, super C, of I | C, field 1 x I \
| I 601, field 19 x I -> A wrong-kind xI
# a private one is in the way
A, super B, method 9 f ()V getfield:A.x.I | B, super C, field 2 x I | C, field 1 x I -> \
A no-access xI
# an array has none
A, method 9 f ()V getfield:[I.length.I -> A no-field lengthI
";

pub(crate) const METHODS: &str = "\
A, method 9 f ()V invokestatic:A.f.()V -> ok
A, method 9 f ()V invokestatic:A.g.()V -> A no-method g()V
A, method 9 f ()V invokestatic:A.f.()I -> A no-method f()I
A, method 9 f ()V invokestatic:A.f.(I)V -> A no-method f(I)V
A, field 9 g I, method 9 f ()V invokestatic:A.g.()V -> A no-method g()V
# from superclasses, then from interfaces
A, super B, method 9 f ()V invokevirtual:A.g.()V | B, super C | C, method 1 g ()V -> ok
A, of I, method 9 f ()V invokevirtual:A.g.()V | I 601, method 401 g ()V -> ok
A, of I, method 9 f ()V invokevirtual:A.g.()V | I 601, of J | J 601, method 401 g ()V -> ok
A, super B, method 9 f ()V invokevirtual:A.g.()V | B, of I | I 601, method 401 g ()V -> ok
A, method 9 f ()V invokevirtual:B.g.()V | B | C, super B, method 1 g ()V -> A no-method g()V
A, super B, of I, method 9 f ()V invokevirtual:A.g.()V | B, method 2 g ()V \
| I 601, method 401 g ()V -> A no-access g()V
A, super B, method 9 f ()V invokevirtual:A.g.()V | B, super C, method 2 g ()V \
| C, method 2 g ()V -> A no-access g()V
# of an interface: its own, those above it, Object's
A, method 9 f ()V invokeinterface:I.g.()V 01 00 | I 601, method 401 g ()V -> ok
A, method 9 f ()V invokeinterface:I.g.()V 01 00 | I 601, of J | J 601, method 401 g ()V -> ok
A, method 9 f ()V invokeinterface:I.g.()V 01 00 | I 601 -> A no-method g()V
A, method 9 f ()V invokeinterface:I.g.()V 01 00 | I 601 | J 601, of I, method 401 g ()V -> \
A no-method g()V
A, method 9 f ()V invokeinterface:I.notify.()V 01 00 | I 601 -> ok
A, method 9 f ()V invokeinterface:java/lang/Runnable.run.()V 01 00 -> ok
A, method 9 f ()V invokeinterface:java/lang/Runnable.start.()V 01 00 -> A no-method start()V
# an array has Object's
A, method 9 f ()V invokevirtual:[I.wait.()V -> ok
A, method 9 f ()V invokevirtual:[LA;.notify.()V -> ok
A, method 9 f ()V invokevirtual:[LA;.f.()V -> A no-method f()V
A, method 9 f ()V invokevirtual:[I.clone.()Ljava/lang/Object; -> \
A no-method clone()Ljava/lang/Object;
# boot classes
A, method 9 f ()V invokespecial:java/lang/Object.<init>.()V -> ok
A, method 9 f ()V invokespecial:java/lang/Object.<init>.(I)V -> A no-method <init>(I)V
A, method 9 f ()V invokevirtual:java/lang/Object.hashCode.()I -> A no-method hashCode()I
A, method 9 f ()V invokevirtual:java/io/PrintStream.println.(J)V -> ok
A, method 9 f ()V invokevirtual:java/io/PrintStream.println.(B)V -> A no-method println(B)V
A, method 9 f ()V invokestatic:java/lang/Thread.sleep.(J)V -> ok
A, method 9 f ()V invokevirtual:java/lang/Error.getMessage.()Ljava/lang/String; -> ok
A, method 9 f ()V invokespecial:java/lang/LinkageError.<init>.(Ljava/lang/String;)V -> ok
# which of two
A, method 9 f ()V getstatic:A.x.I invokestatic:A.g.()V -> A no-field xI
A, method 9 f ()V invokestatic:A.g.()V getstatic:A.x.I -> A no-method g()V
A, method 9 f ()V invokestatic:A.h.()V, method 9 e ()V getstatic:A.x.I -> A no-method h()V
";

pub(crate) const FIELD_USES: &str = "\
A, field 9 x I, method 9 f ()V getstatic:A.x.I putstatic:A.x.I -> ok
A, field 1 x I, method 9 f ()V getfield:A.x.I putfield:A.x.I -> ok
A, field 1 x I, method 9 f ()V getstatic:A.x.I -> A wrong-kind xI
A, field 1 x I, method 9 f ()V putstatic:A.x.I -> A wrong-kind xI
A, field 9 x I, method 9 f ()V getfield:A.x.I -> A wrong-kind xI
A, field 9 x I, method 9 f ()V putfield:A.x.I -> A wrong-kind xI
A, method 9 f ()V getfield:I.x.I | I 601, field 19 x I -> A wrong-kind xI
A, method 9 f ()V getfield:java/lang/System.out.Ljava/io/PrintStream; -> \
A wrong-kind outLjava/io/PrintStream;
";

pub(crate) const CALLS: &str = "\
# static and instance
A, method 1 g ()V, method 9 f ()V invokevirtual:A.g.()V invokespecial:A.g.()V -> ok
A, method 9 g ()V, method 9 f ()V invokevirtual:A.g.()V -> A wrong-kind g()V
A, method 9 g ()V, method 9 f ()V invokespecial:A.g.()V -> A wrong-kind g()V
A, method 1 g ()V, method 9 f ()V invokestatic:A.g.()V -> A wrong-kind g()V
A, method 9 f ()V invokestatic:java/lang/Thread.join.()V -> A wrong-kind join()V
# a class's method by one item, an interface's by the other
A, method 9 f ()V invokevirtual:I.g.()V | I 601, method 401 g ()V -> A wrong-kind g()V
A, method 9 f ()V invokespecial:I.g.()V | I 601, method 401 g ()V -> A wrong-kind g()V
A, method 9 f ()V invokestatic:I.g.()V | I 601, method 401 g ()V -> A wrong-kind g()V
A, method 9 f ()V invokevirtual:I.notify.()V | I 601 -> A wrong-kind notify()V
A, method 1 g ()V, method 9 f ()V invokeinterface:A.g.()V 01 00 -> A wrong-kind g()V
A, of I, method 9 f ()V invokeinterface:A.g.()V 01 00 | I 601, method 401 g ()V -> \
A wrong-kind g()V
A, method 9 f ()V invokeinterface:[I.wait.()V 01 00 -> A wrong-kind wait()V
# initialisers
A, method 1 <init> ()V, method 9 f ()V invokespecial:A.<init>.()V -> ok
A, method 1 <init> ()V, method 9 f ()V invokevirtual:A.<init>.()V -> A wrong-kind <init>()V
A, method 1 <init> ()V, method 9 f ()V invokestatic:A.<init>.()V -> A wrong-kind <init>()V
A, method 9 f ()V invokeinterface:I.<init>.()V 01 00 | I 601 -> A wrong-kind <init>()V
A, method 8 <clinit> ()V, method 9 f ()V invokestatic:A.<clinit>.()V -> A wrong-kind <clinit>()V
A, method 8 <clinit> ()V, method 9 f ()V invokespecial:A.<clinit>.()V -> A wrong-kind <clinit>()V
# invokespecial finds one with code
A 421, method 401 g ()V, method 1 f ()V invokespecial:A.g.()V -> A wrong-kind g()V
A 421, method 401 g ()V, method 1 f ()V invokevirtual:A.g.()V -> ok
A, super B, method 1 f ()V invokespecial:B.g.()V | B 421, method 401 g ()V -> A wrong-kind g()V
A, super B, method 1 f ()V invokespecial:B.g.()V | B 421, method 1 g ()V -> ok
A, super B, method 1 f ()V invokespecial:B.g.()V | B, of I | I 601, method 401 g ()V -> \
A wrong-kind g()V
A, super java/lang/Thread, method 1 f ()V invokespecial:java/lang/Thread.start.()V -> ok
";

pub(crate) const MAKES: &str = "\
A, method 9 f ()V new:A -> ok
A, method 9 f ()V new:I | I 601 -> A wrong-kind I
A, method 9 f ()V new:I | I 201 -> A wrong-kind I
A, method 9 f ()V new:java/lang/Runnable -> A wrong-kind java/lang/Runnable
A 421, method 9 f ()V new:A -> A wrong-kind A
A, method 9 f ()V new:java/lang/VirtualMachineError -> A wrong-kind java/lang/VirtualMachineError
A, method 9 f ()V new:java/lang/StackOverflowError -> ok
A, method 9 f ()V new:[I -> A wrong-kind [I
A, method 9 f ()V new:[LA; -> A wrong-kind [LA;
A, method 9 f ()V anewarray:I checkcast:I instanceof:I multianewarray:[LI; 01 | I 601 -> ok
A, method 9 f ()V anewarray:B checkcast:B | B 421 -> ok
# which of two
A, method 9 f ()V new:[I new:[J -> A wrong-kind [I
A, method 9 f ()V new:[J, method 9 e ()V new:[I -> A wrong-kind [J
A, field 1 x I, method 9 f ()V getstatic:A.x.I new:[J -> A wrong-kind xI
";
