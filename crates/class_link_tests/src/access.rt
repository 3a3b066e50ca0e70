//! Whether what code uses is accessible.

pub(crate) const CLASSES: &str = "\
p/A, method 9 f ()V new:q/B | q/B -> ok
p/A, method 9 f ()V new:q/B | q/B 20 -> p/A no-access q/B
p/A, method 9 f ()V new:p/B | p/B 20 -> ok
A, method 9 f ()V new:B | B 20 -> ok
A, method 9 f ()V new:p/B | p/B 20 -> A no-access p/B
p/A, method 9 f ()V new:B | B 20 -> p/A no-access B
p/A, method 9 f ()V new:p/q/B | p/q/B 20 -> p/A no-access p/q/B
p/q/A, method 9 f ()V new:p/q/B | p/q/B 20 -> ok
# in each instruction that has a class; of an array it is that of the elements
p/A, method 9 f ()V anewarray:q/B | q/B 20 -> p/A no-access q/B
p/A, method 9 f ()V anewarray:[[Lq/B; | q/B 20 -> p/A no-access q/B
p/A, method 9 f ()V checkcast:[Lq/B; | q/B 20 -> p/A no-access q/B
p/A, method 9 f ()V instanceof:q/B | q/B 20 -> p/A no-access q/B
p/A, method 9 f ()V multianewarray:[Lq/B; 01 | q/B 20 -> p/A no-access q/B
p/A, method 9 f ()V checkcast:[Lq/B; multianewarray:[[I 02 | q/B -> ok
p/A, method 9 f ()V catch:0.1.1.q/B 00 | q/B 20 -> p/A no-access q/B
p/A, method 9 f ()V catch:0.1.1.any 00 -> ok
p/A, method 9 f ()V getstatic:q/B.x.I | q/B 20, field 9 x I -> p/A no-access q/B
p/A, method 9 f ()V invokestatic:q/B.g.()V | q/B 20, method 9 g ()V -> p/A no-access q/B
p/A, method 9 f ()V invokevirtual:[Lq/B;.wait.()V | q/B 20 -> p/A no-access q/B
p/A, method 9 f ()V invokeinterface:q/I.g.()V 01 00 | q/I 600, method 401 g ()V -> \
p/A no-access q/I
# not in the other places that name a class
p/A, super q/B | q/B 20 -> ok
p/A, of q/I | q/I 600 -> ok
p/A, field 1 x Lq/B;, method 9 f (Lq/B;)[Lq/B; | q/B 20 -> ok
p/A, field 9 x Lq/B;, method 9 f ()V getstatic:p/A.x.Lq/B; | q/B 20 -> ok
";

pub(crate) const MEMBERS: &str = "\
# private: flags 2
A, field a x I, method 9 f ()V getstatic:A.x.I -> ok
A, method 9 f ()V getstatic:B.x.I | B, field a x I -> A no-access xI
A, method 9 f ()V putfield:B.x.I | B, field 2 x I -> A no-access xI
A, method a g ()V, method 9 f ()V invokestatic:A.g.()V -> ok
A, method 9 f ()V invokestatic:B.g.()V | B, method a g ()V -> A no-access g()V
A, super B, method 9 f ()V invokevirtual:A.g.()V | B, method 2 g ()V -> A no-access g()V
A, method 9 f ()V invokespecial:B.<init>.()V | B, method 2 <init> ()V -> A no-access <init>()V
# without an access word: flags 0
p/A, method 9 f ()V getstatic:p/B.x.I | p/B, field 8 x I -> ok
p/A, method 9 f ()V getstatic:q/B.x.I | q/B, field 8 x I -> p/A no-access xI
p/A, super q/B, method 9 f ()V getstatic:p/A.x.I | q/B, field 8 x I -> p/A no-access xI
p/A, method 9 f ()V invokestatic:p/q/B.g.()V | p/q/B, method 8 g ()V -> p/A no-access g()V
A, method 9 f ()V invokestatic:B.g.()V | B, method 8 g ()V -> ok
# by the class that declares it
p/A, method 9 f ()V getstatic:q/B.x.I | q/B, super p/C | p/C, field 8 x I -> ok
p/A, method 9 f ()V getstatic:p/B.x.I | p/B, super q/C | q/C, field 8 x I -> p/A no-access xI
# protected: flags 4
p/A, method 9 f ()V getstatic:p/B.x.I | p/B, field c x I -> ok
p/A, method 9 f ()V getstatic:q/B.x.I | q/B, field c x I -> p/A no-access xI
p/A, super q/B, method 9 f ()V getstatic:q/B.x.I | q/B, field c x I -> ok
p/A, super q/B, method 9 f ()V getfield:p/A.x.I | q/B, super r/C | r/C, field 4 x I -> ok
p/A, method 9 f ()V invokevirtual:q/B.g.()V | q/B, super p/A, method 4 g ()V -> p/A no-access g()V
p/A, super q/B, method 9 f ()V invokevirtual:q/B.g.()V | q/B, method 4 g ()V -> ok
p/A, method 9 f ()V invokespecial:q/B.<init>.()V | q/B, method 4 <init> ()V -> \
p/A no-access <init>()V
p/A, super q/B, method 9 f ()V invokespecial:q/B.<init>.()V | q/B, method 4 <init> ()V -> ok
# public: flags 1
p/A, method 9 f ()V getstatic:q/B.x.I invokestatic:q/B.g.()V \
| q/B, field 9 x I, method 9 g ()V -> ok
# boot classes
A, method 9 f ()V invokevirtual:java/lang/Object.notify.()V -> ok
A, method 9 f ()V getfield:java/lang/Thread.target.Ljava/lang/Runnable; -> \
A no-access targetLjava/lang/Runnable;
A, super java/lang/Error, method 9 f ()V getfield:A.message.Ljava/lang/String; -> \
A no-access messageLjava/lang/String;
";

pub(crate) const FINALS: &str = "\
A, field 19 x I, method 9 f ()V putstatic:A.x.I -> ok
A, field 11 x I, method 9 f ()V putfield:A.x.I -> ok
A, method 9 f ()V putstatic:B.x.I | B, field 9 x I -> ok
A, method 9 f ()V putstatic:B.x.I | B, field 19 x I -> A no-access xI
A, method 9 f ()V getstatic:B.x.I | B, field 19 x I -> ok
A, method 9 f ()V putfield:B.x.I | B, field 11 x I -> A no-access xI
A, method 9 f ()V getfield:B.x.I | B, field 11 x I -> ok
A, super B, method 1 f ()V putfield:A.x.I | B, field 11 x I -> A no-access xI
A, of I, method 9 f ()V putstatic:A.x.I | I 601, field 19 x I -> A no-access xI
I 601, field 19 x I, method 8 <clinit> ()V putstatic:I.x.I -> ok
A, method 9 f ()V putstatic:java/lang/System.out.Ljava/io/PrintStream; -> \
A no-access outLjava/io/PrintStream;
# which of two: by address, and the class before the member
A, method 9 f ()V putstatic:B.y.I getstatic:B.x.I | B, field 19 y I, field a x I -> A no-access yI
A, method 9 f ()V getstatic:B.x.I putstatic:B.y.I | B, field 19 y I, field a x I -> A no-access xI
p/A, method 9 f ()V getstatic:q/B.x.I | q/B 20, field a x I -> p/A no-access q/B
p/A, method 9 f ()V catch:0.3.3.q/B getstatic:q/C.x.I \
| q/B 20 | q/C, field a x I -> p/A no-access xI
p/A, method 9 f ()V catch:0.1.1.q/B 00, method 9 e ()V new:q/C | q/B 20 | q/C 20 -> \
p/A no-access q/B
";
