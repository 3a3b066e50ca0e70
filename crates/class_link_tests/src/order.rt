//! The main class, and which of two refusals comes first.

pub(crate) const MAINS: &str = "\
Main, method 9 main ([Ljava/lang/String;)V -> ok
A | Main, method 9 main ([Ljava/lang/String;)V -> ok
Main 20, method 9 main ([Ljava/lang/String;)V -> ok
Main 421, method 39 main ([Ljava/lang/String;)V -> ok
Main, method 9 f ()V, method 9 main ([Ljava/lang/String;)V, method 9 main ()V -> ok
# no such class, and no such method
A -> Main no-main main
p/Main, method 9 main ([Ljava/lang/String;)V -> Main no-main main
Main -> Main no-main main
Main, method 1 main ([Ljava/lang/String;)V -> Main no-main main
Main, method 8 main ([Ljava/lang/String;)V -> Main no-main main
Main, method a main ([Ljava/lang/String;)V -> Main no-main main
Main, method c main ([Ljava/lang/String;)V -> Main no-main main
Main, method 9 main ()V -> Main no-main main
Main, method 9 main (Ljava/lang/String;)V -> Main no-main main
Main, method 9 main ([[Ljava/lang/String;)V -> Main no-main main
Main, method 9 main ([Ljava/lang/String;)I -> Main no-main main
Main, method 9 Main ([Ljava/lang/String;)V -> Main no-main main
Main, method 9 main ([Ljava/lang/String;I)V -> Main no-main main
# it declares the method itself
Main, super A | A, method 9 main ([Ljava/lang/String;)V -> Main no-main main
# behind the other rules
A, method 9 f ()V getstatic:A.x.I -> A no-field xI
A, method 9 f ()V putstatic:java/lang/System.out.Ljava/io/PrintStream; -> \
A no-access outLjava/io/PrintStream;
";

/// The later rule is broken in the earlier file.
pub(crate) const RULES: &str = "\
A | A, method 9 f ()V ba -> code 1 0 unknown-op 0
A, super B | C | C -> C same-class C
A, super none | B, super C -> B no-class C
A, super java/lang/String | B, of A -> B wrong-kind A
A, super A | B, super java/lang/String -> B final-super java/lang/String
A, field 1 x F | B, super B -> B super-loop B
A, method 101 f ()V | B, field 1 x F -> B left-out-desc xF
A, method 1 wait ()V | B, method 101 f ()V -> B wrong-kind f()V
A, method 9 f ()V getstatic:A.x.I | B, method 1 wait ()V -> B bad-override wait()V
A, method 9 f ()V new:[I | B, method 9 f ()V invokestatic:B.g.()V -> B no-method g()V
A, method 9 f ()V getstatic:B.x.I | B, field a x I, method 9 f ()V new:[I -> B wrong-kind [I
# in one file
A, super none, method 9 f ()V ba -> code 0 0 unknown-op 0
A, super A, of A -> A wrong-kind A
A, super java/lang/String, of B -> A no-class B
A, super A, field 1 x F -> A super-loop A
A, method 9 f ()V getstatic:A.x.F, method 101 g ()V -> A left-out-desc xF
I 601, field 1 x I, method 1 wait ()V -> I wrong-kind xI
A, method 9 wait ()V invokestatic:A.g.()V -> A bad-override wait()V
A, method 9 f ()V new:[I getstatic:A.x.I -> A no-field xI
A, method 9 f ()V putstatic:java/lang/System.out.Ljava/io/PrintStream; new:[I -> A wrong-kind [I
# two files break one rule
A, method 9 f ()V ba | B, method 9 f ()V 0b -> code 0 0 unknown-op 0
B, super A | A, super C -> A no-class C
B, super none | A, super B, of B -> B wrong-kind
B, super java/lang/System | A, super java/lang/String -> B final-super java/lang/System
B, super B | A, super A -> B super-loop B
B, method 9 f (F)V | A, field 1 x D -> B left-out-desc f(F)V
I 601, method 1 f ()V | A, method 101 f ()V | J 601, field 1 x I -> I wrong-kind f()V
B, method 1 notify ()V | A, method 1 wait ()V -> B bad-override notify()V
B, method 9 f ()V invokestatic:B.g.()V | A, method 9 f ()V getstatic:A.x.I -> B no-method g()V
B, method 9 f ()V new:[J | A, method 9 f ()V new:[I -> B wrong-kind [J
B, field 2 y I, method 9 f ()V getstatic:A.x.I | A, field a x I, method 9 f ()V getfield:B.y.I -> \
B no-access xI
";
