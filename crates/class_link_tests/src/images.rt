//! Images, number by number. The boot classes are 0 to 33 and their methods 0 to 91.

use crate::builder::program;
use crate::rows::linked;
use crate::shown::shown;
use jvm_base::NoMemory;
use std::alloc::Global;
use std::test::Fail;

/// A program, and the text of its image.
type Case = (&'static str, &'static str);

const ALONE: Case = (
    "Main, method 9 main ([Ljava/lang/String;)V",
    "\
classes 36 methods 93 main 92
class 34 Main 21 Some(0) [] [92] None
class 35 [Ljava/lang/String; 411 Some(0) [] [] None
array Some(2) [Ljava/lang/String;
method 92 34 main([Ljava/lang/String;)V 9 1 0
",
);

/// Instance fields stand behind the superclass's, statics by themselves.
const FIELDS: Case = (
    "\
B, super A, field 1 x I, field 9 s I, field 1 y J, field 9 t J \
| A, field 2 u I, field 8 v I, field 1 w [[Z \
| Main, super B, field 1 z LA;, method 9 main ([Ljava/lang/String;)V \
getfield:B.x.I getfield:Main.w.[[Z putfield:Main.z.LA; getstatic:A.v.I putstatic:Main.t.J \
getstatic:java/lang/System.out.Ljava/io/PrintStream; 57 getfield:B.y.J",
    "\
classes 38 methods 93 main 92
class 34 B 21 Some(35) [] [] None
field 34 x I 1 2 None
field 34 s I 9 0 None
field 34 y J 1 3 None
field 34 t J 9 1 None
class 35 A 21 Some(0) [] [] None
field 35 u I 2 0 None
field 35 v I 8 0 None
field 35 w [[Z 1 1 None
class 36 Main 21 Some(34) [] [92] None
field 36 z LA; 1 4 None
class 37 [Ljava/lang/String; 411 Some(0) [] [] None
array Some(2) [Ljava/lang/String;
method 92 36 main([Ljava/lang/String;)V 9 9 0
at 0 Field { class: 34, place: 2, fixed: false }
at 3 Field { class: 35, place: 1, fixed: false }
at 6 Field { class: 36, place: 4, fixed: false }
at 9 Field { class: 35, place: 0, fixed: true }
at 12 Field { class: 34, place: 1, fixed: true }
at 15 Field { class: 4, place: 0, fixed: true }
at 19 Field { class: 34, place: 3, fixed: false }
",
);

/// Methods are numbered through; a call names the method that is found.
const CALLS: Case = (
    "\
A 421, super java/lang/Thread, of J, of I, method 401 g (ILA;)J, method 8 <clinit> ()V \
| I 601, of J, method 401 f ([J)LA; \
| J 601, method 401 h ()V \
| Main, super A, method 9 f ()V, method 9 main ([Ljava/lang/String;)V \
new:Main invokespecial:java/lang/Object.<init>.()V invokevirtual:Main.g.(ILA;)J \
invokeinterface:I.h.()V 01 00 invokeinterface:I.f.([J)LA; 02 00 invokestatic:Main.f.()V \
invokevirtual:Main.run.()V invokevirtual:A.start.()V invokevirtual:[I.wait.()V \
invokevirtual:Main.h.()V, method 8 <clinit> (I)V, method 1 h ()V",
    "\
classes 39 methods 100 main 97
class 34 A 421 Some(7) [36, 35] [92, 93] Some(93)
class 35 I 601 Some(0) [36] [94] None
class 36 J 601 Some(0) [] [95] None
class 37 Main 21 Some(34) [] [96, 97, 98, 99] None
class 38 [Ljava/lang/String; 411 Some(0) [] [] None
array Some(2) [Ljava/lang/String;
method 92 34 g(ILA;)J 401 0 0
method 93 34 <clinit>()V 8 1 0
method 94 35 f([J)LA; 401 0 0
method 95 36 h()V 401 0 0
method 96 37 f()V 9 1 0
method 97 37 main([Ljava/lang/String;)V 9 11 0
at 0 Class(37)
at 3 Method(0)
at 6 Method(92)
at 9 Method(95)
at 14 Method(94)
at 19 Method(96)
at 22 Method(33)
at 25 Method(34)
at 28 Method(1)
at 31 Method(99)
method 98 37 <clinit>(I)V 8 1 0
method 99 37 h()V 1 1 0
",
);

/// The array classes come in order of first sight, each followed by its parts that are new.
const ARRAYS: Case = (
    "\
Main, method 9 main ([Ljava/lang/String;)V bc 0a anewarray:[[I checkcast:[[LMain; \
instanceof:[J multianewarray:[[[J 02 anewarray:java/lang/String checkcast:Main bc 04 \
| B, field 1 x [S, method 9 f ([B)V invokevirtual:[C.wait.()V anewarray:Main bc 05",
    "\
classes 47 methods 94 main 92
class 34 Main 21 Some(0) [] [92] None
class 35 B 21 Some(0) [] [93] None
field 35 x [S 1 0 None
class 36 [Ljava/lang/String; 411 Some(0) [] [] None
array Some(2) [Ljava/lang/String;
class 37 [I 411 Some(0) [] [] None
array None [I
class 38 [[[I 411 Some(0) [] [] None
array Some(39) [[[I
class 39 [[I 411 Some(0) [] [] None
array Some(37) [[I
class 40 [[LMain; 411 Some(0) [] [] None
array Some(41) [[LMain;
class 41 [LMain; 411 Some(0) [] [] None
array Some(34) [LMain;
class 42 [J 411 Some(0) [] [] None
array None [J
class 43 [[[J 411 Some(0) [] [] None
array Some(44) [[[J
class 44 [[J 411 Some(0) [] [] None
array Some(42) [[J
class 45 [Z 411 Some(0) [] [] None
array None [Z
class 46 [C 411 Some(0) [] [] None
array None [C
method 92 34 main([Ljava/lang/String;)V 9 9 0
at 2 Class(39)
at 5 Class(40)
at 8 Class(42)
at 11 Class(43)
at 15 Class(2)
at 18 Class(34)
method 93 35 f([B)V 9 4 0
at 0 Method(1)
at 3 Class(34)
",
);

/// Literals come file by file, those of constants first; the strings stand behind the classes.
const LITERALS: Case = (
    "\
B, field 19 s Ljava/lang/String; two, field 19 n I 7, field 9 l J 9, field 9 p Ljava/lang/String;, \
field 9 b B 300, method 9 f ()V string:three string:one string:three \
| Main, field 18 t Ljava/lang/String; one, method 9 main ([Ljava/lang/String;)V \
string:four int:-5 long:-6 string:two, field 8 u Ljava/lang/String; five",
    "\
classes 37 methods 94 main 93
class 34 B 21 Some(0) [] [92] None
field 34 s Ljava/lang/String; 19 0 Some(Ref(Name { node: 255, class: 2, index: 37 }))
field 34 n I 19 1 Some(Int(7))
field 34 l J 9 2 Some(Long(9))
field 34 p Ljava/lang/String; 9 3 None
field 34 b B 9 4 Some(Int(300))
class 35 Main 21 Some(0) [] [93] None
field 35 t Ljava/lang/String; 18 0 Some(Ref(Name { node: 255, class: 2, index: 39 }))
field 35 u Ljava/lang/String; 8 1 Some(Ref(Name { node: 255, class: 2, index: 40 }))
class 36 [Ljava/lang/String; 411 Some(0) [] [] None
array Some(2) [Ljava/lang/String;
method 92 34 f()V 9 4 0
at 0 Constant(Ref(Name { node: 255, class: 2, index: 38 }))
at 3 Constant(Ref(Name { node: 255, class: 2, index: 39 }))
at 6 Constant(Ref(Name { node: 255, class: 2, index: 38 }))
method 93 35 main([Ljava/lang/String;)V 9 5 0
at 0 Constant(Ref(Name { node: 255, class: 2, index: 41 }))
at 3 Constant(Int(-5))
at 6 Constant(Long(-6))
at 9 Constant(Ref(Name { node: 255, class: 2, index: 37 }))
literal two
literal three
literal one
literal five
literal four
",
);

/// The class of entry i stands at 65536 + i, if it names one that is no array.
const HANDLERS: Case = (
    "\
Main 20, method 9 f ()V catch:0.1.1.any catch:0.1.1.java/lang/ArithmeticException \
catch:0.2.2.[I catch:0.1.2.Main 00 00, method 29 main ([Ljava/lang/String;)V",
    "\
classes 36 methods 94 main 93
class 34 Main 20 Some(0) [] [92, 93] None
class 35 [Ljava/lang/String; 411 Some(0) [] [] None
array Some(2) [Ljava/lang/String;
method 92 34 f()V 9 3 4
at 65537 Class(12)
at 65539 Class(34)
method 93 34 main([Ljava/lang/String;)V 29 1 0
",
);

/// The text of the program's image, if it is linked.
fn image_text(alloc: Global, text: &str) -> Result<String, NoMemory> {
    match linked(alloc, &program(alloc, text)?) {
        Ok(Some(image)) => shown(alloc, &image),
        Ok(None) => Ok(String::from_str(alloc, "no class files")?),
        Err(_refusal) => Ok(String::from_str(alloc, "refused")?),
    }
}

#[test]
fn images(rt: HostRuntime) -> Result<(), Fail> {
    for (text, want) in [ALONE, FIELDS, CALLS, ARRAYS, LITERALS, HANDLERS] {
        assert_eq!(rt; image_text(rt.alloc(), text)?.as_str(), want);
    }
    Ok(())
}
