//! What each instruction is decoded to, and each refusal on both sides of its edge (JVMS2 6).

use crate::listing::first_wrong;
use std::test::Fail;

/// Each instruction without operands. A short form is its plain form with the local.
const ALONE: &str = "
nop: 00 = Nop;
aconst_null: 01 = AconstNull;
iconst_m1: 02 = Iconst -1;
iconst_0 to 5: 03 04 05 06 07 08 = Iconst 0 Iconst 1 Iconst 2 Iconst 3 Iconst 4 Iconst 5;
lconst_0, 1: 09 0a = Lconst 0 Lconst 1;
iload_0 to 3: 1a 1b 1c 1d = Load 21 0 Load 21 1 Load 21 2 Load 21 3;
lload_0 to 3: 1e 1f 20 21 = Load 22 0 Load 22 1 Load 22 2 Load 22 3;
aload_0 to 3: 2a 2b 2c 2d = Load 25 0 Load 25 1 Load 25 2 Load 25 3;
iaload, laload: 2e 2f = ArrayLoad 46 ArrayLoad 47;
aaload to saload: 32 33 34 35 = ArrayLoad 50 ArrayLoad 51 ArrayLoad 52 ArrayLoad 53;
istore_0 to 3: 3b 3c 3d 3e = Store 54 0 Store 54 1 Store 54 2 Store 54 3;
lstore_0 to 3: 3f 40 41 42 = Store 55 0 Store 55 1 Store 55 2 Store 55 3;
astore_0 to 3: 4b 4c 4d 4e = Store 58 0 Store 58 1 Store 58 2 Store 58 3;
iastore, lastore: 4f 50 = ArrayStore 79 ArrayStore 80;
aastore to sastore: 53 54 55 56 = ArrayStore 83 ArrayStore 84 ArrayStore 85 ArrayStore 86;
pop, pop2: 57 58 = Pop 87 Pop 88;
dup, dup_x1, dup_x2: 59 5a 5b = Dup 89 Dup 90 Dup 91;
dup2, dup2_x1, dup2_x2: 5c 5d 5e = Dup 92 Dup 93 Dup 94;
swap: 5f = Swap;
iadd, ladd: 60 61 = Arith 96 Arith 97;
isub, lsub: 64 65 = Arith 100 Arith 101;
imul, lmul: 68 69 = Arith 104 Arith 105;
idiv, ldiv: 6c 6d = Divide 108 Divide 109;
irem, lrem: 70 71 = Divide 112 Divide 113;
ineg, lneg: 74 75 = Negate 116 Negate 117;
ishl, lshl, ishr: 78 79 7a = Shift 120 Shift 121 Shift 122;
lshr, iushr, lushr: 7b 7c 7d = Shift 123 Shift 124 Shift 125;
iand, land, ior: 7e 7f 80 = Bits 126 Bits 127 Bits 128;
lor, ixor, lxor: 81 82 83 = Bits 129 Bits 130 Bits 131;
i2l, l2i: 85 88 = Resize 133 Resize 136;
i2b, i2c, i2s: 91 92 93 = Resize 145 Resize 146 Resize 147;
lcmp: 94 = Lcmp;
ireturn, lreturn: ac ad = Return 172 Return 173;
areturn, return: b0 b1 = Return 176 Return 177;
arraylength, athrow: be bf = ArrayLength Athrow;
monitorenter, monitorexit: c2 c3 = Monitor 194 Monitor 195;
";

/// Each other instruction. Item 7 of the pool is a field, 8 a method, 9 an interface's method, 6 a
/// class of two dimensions, 10, 12 and 16 are constants.
const WITH_OPERANDS: &str = "
bipush: 10 80 10 7f = Push -128 Push 127;
sipush: 11 fe d4 11 01 2c = Push -300 Push 300;
ldc: 12 0a 12 10 = Ldc 10 Ldc 16;
ldc_w: 13 00 0a 13 00 10 = Ldc 10 Ldc 16;
ldc2_w: 14 00 0c = Ldc2 12;
iload, lload, aload: 15 ff 16 04 19 05 = Load 21 255 Load 22 4 Load 25 5;
istore, lstore, astore: 36 ff 37 04 3a 05 = Store 54 255 Store 55 4 Store 58 5;
iinc: 84 ff 80 = Iinc 255 -128;
ifeq, ifne: 99 00 03 9a ff fd = IfZero 153 3 IfZero 154 0;
iflt, ifge: 9b 00 03 9c ff fd = IfZero 155 3 IfZero 156 0;
ifgt, ifle: 9d 00 03 9e ff fd = IfZero 157 3 IfZero 158 0;
if_icmpeq, if_icmpne: 9f 00 03 a0 ff fd = IfInts 159 3 IfInts 160 0;
if_icmplt, if_icmpge: a1 00 03 a2 ff fd = IfInts 161 3 IfInts 162 0;
if_icmpgt, if_icmple: a3 00 03 a4 ff fd = IfInts 163 3 IfInts 164 0;
if_acmpeq, if_acmpne: a5 00 03 a6 ff fd = IfRefs 165 3 IfRefs 166 0;
goto: a7 00 03 a7 ff fd = Goto 3 Goto 0;
getstatic, putstatic: b2 00 07 b3 00 07 = Static 178 7 1 Static 179 7 1;
getfield, putfield: b4 00 07 b5 00 07 = Field 180 7 1 Field 181 7 1;
invokevirtual: b6 00 08 = Invoke 182 8 2;
invokespecial: b7 00 08 = Invoke 183 8 2;
invokestatic: b8 00 08 = Invoke 184 8 2;
invokeinterface: b9 00 09 04 00 = Invoke 185 9 2;
new: bb 00 06 = New 6;
newarray: bc 04 bc 05 bc 08 = NewArray 4 NewArray 5 NewArray 8;
newarray: bc 09 bc 0a bc 0b = NewArray 9 NewArray 10 NewArray 11;
anewarray: bd 00 06 = AnewArray 6;
checkcast, instanceof: c0 00 06 c1 00 06 = Cast 192 6 Cast 193 6;
wide iload, wide lload: c4 15 01 00 c4 16 00 05 = Load 21 256 Load 22 5;
wide aload: c4 19 ff ff = Load 25 65535;
wide istore, wide lstore: c4 36 01 00 c4 37 00 05 = Store 54 256 Store 55 5;
wide astore: c4 3a ff ff = Store 58 65535;
wide iinc: c4 84 01 00 ff 38 = Iinc 256 -200;
multianewarray: c5 00 06 01 c5 00 06 02 = MultiNewArray 6 1 MultiNewArray 6 2;
ifnull, ifnonnull: c6 00 03 c7 ff fd = IfNull 198 3 IfNull 199 0;
goto_w: c8 00 00 00 05 c8 ff ff ff fb = Goto 5 Goto 0;
tableswitch: aa 09 09 09 00 00 00 00 00 00 00 05 00 00 00 05 00 00 00 00 = TableSwitch 0 5 5 0;
tableswitch: 00 aa 09 09 ff ff ff ff ff ff ff ff 00 00 00 00 00 00 00 00 ff ff ff ff = Nop
    TableSwitch 0 -1 0 1 0;
lookupswitch: ab 09 09 09 00 00 00 0c 00 00 00 00 00 = LookupSwitch 12 Nop;
lookupswitch: ab 09 09 09 00 00 00 00 00 00 00 02 ff ff ff ff 00 00 00 1c 00 00 00 00 00 00 00
    00 00 = LookupSwitch 0 -1:28 0:0 Nop;
";

/// What lies next to the rows above.
const REFUSED: &str = "
none: =;
bipush: 10 = cut-op 0;
sipush: 00 11 01 = cut-op 1;
ldc: 12 = cut-op 0;
ldc of a float: 12 0b = left-out-op 0;
ldc of a long: 12 0c = bad-index 0;
ldc past the pool: 12 13 = bad-index 0;
ldc_w of a float: 13 00 0b = left-out-op 0;
ldc_w of a long: 13 00 0c = bad-index 0;
ldc2_w of a double: 14 00 0e = left-out-op 0;
ldc2_w of an int: 14 00 0a = bad-index 0;
getstatic of a method: b2 00 08 = bad-index 0;
invokevirtual of an interface's method: b6 00 09 = bad-index 0;
invokestatic of a field: b8 00 07 = bad-index 0;
invokeinterface of a method: b9 00 08 04 00 = bad-index 0;
invokeinterface with a slot too few: b9 00 09 03 00 = bad-index 0;
invokeinterface with a slot too many: b9 00 09 05 00 = bad-index 0;
invokeinterface with a last byte: b9 00 09 04 01 = bad-index 0;
none is 186: ba 00 00 = unknown-op 0;
new of a text: bb 00 05 = bad-index 0;
newarray of 3: bc 03 = bad-index 0;
newarray of floats, of doubles: bc 06 bc 07 = left-out-op 0;
newarray of doubles: bc 07 = left-out-op 0;
newarray of 12: bc 0c = bad-index 0;
anewarray of 255 dimensions: bd 00 12 = bad-index 0;
checkcast of a field: c0 00 07 = bad-index 0;
wide: c4 = cut-op 0;
wide iload: c4 15 01 = cut-op 0;
wide iinc: c4 84 00 01 00 = cut-op 0;
wide nop: c4 00 00 00 = unknown-op 0;
wide wide: c4 c4 00 00 = unknown-op 0;
wide fload: c4 17 00 00 = left-out-op 0;
multianewarray of none: c5 00 06 00 = bad-index 0;
multianewarray of three: c5 00 06 03 = bad-index 0;
jsr_w: c9 ba = left-out-op 0;
goto into an operand: a7 00 02 00 = target-off 0;
goto past the end: a7 00 04 00 = target-off 0;
goto the end: a7 00 03 = target-off 0;
goto before the code: a7 ff ff = target-off 0;
goto_w into an operand: c8 00 01 00 05 00 = target-off 0;
the first of two targets: 99 00 01 99 00 02 = target-off 0;
an opcode before a target: a7 00 02 ff = unknown-op 3;
tableswitch without bounds: aa 09 09 09 00 00 00 00 00 00 00 05 00 00 00 = cut-op 0;
tableswitch without its offset: aa 09 09 09 00 00 00 00 00 00 00 05 00 00 00 05 00 00 00 =
    bad-switch 0;
tableswitch from 5 to -1: aa 09 09 09 00 00 00 00 00 00 00 05 ff ff ff ff 00 00 00 00 =
    bad-switch 0;
tableswitch into itself: aa 00 00 00 00 00 00 00 00 00 00 05 00 00 00 05 00 00 00 01 =
    target-off 0;
lookupswitch without a count: ab 09 09 09 00 00 00 00 00 00 00 = cut-op 0;
lookupswitch of -1: ab 09 09 09 00 00 00 00 ff ff ff ff = bad-switch 0;
lookupswitch without its pair: ab 09 09 09 00 00 00 00 00 00 00 01 00 00 00 05 00 00 00 =
    bad-switch 0;
lookupswitch of 7 and 7: ab 00 00 00 00 00 00 00 00 00 00 02 00 00 00 07 00 00 00 00 00 00 00 07
    00 00 00 00 = bad-switch 0;
lookupswitch of 7 and -7: ab 00 00 00 00 00 00 00 00 00 00 02 00 00 00 07 00 00 00 00 ff ff ff
    f9 00 00 00 00 = bad-switch 0;
lookupswitch into itself: ab 00 00 00 00 00 00 01 00 00 00 00 = target-off 0;
";

/// What javac 17 makes of a method of loops and switches, as `javap -c` lists it.
const OF_JAVAC: &str = "
0: 03 3e 03 36 04 15 04 1a a2 00 3a 15 04 ab 00 00 00 00 00 2a 00 00 00 02 00 00 00 00 00 00 00
    1b 00 00 00 01 00 00 00 21 84 03 01 a7 00 11 c4 84 00 03 ff 38 a7 00 08 1d 1f 88 82 3e 84 04
    01 a7 ff c6 1a ab 00 00 00 1f 00 00 00 02 ff ff ff fb 00 00 00 19 00 00 03 e8 00 00 00 1b 04
    ac 1d 06 7c 3e 1d 11 fe d4 68 ac = Iconst 0 Store 54 3 Iconst 0 Store 54 4 Load 21 4 Load 21
    0 IfInts 162 66 Load 21 4 LookupSwitch 55 0:40 1:46 Iinc 3 1 Goto 60 Iinc 3 -200 Goto 60
    Load 21 3 Load 22 1 Resize 136 Bits 130 Store 54 3 Iinc 4 1 Goto 5 Load 21 0 LookupSwitch 98
    -5:92 1000:94 Iconst 1 Return 172 Load 21 3 Iconst 3 Shift 124 Store 54 3 Load 21 3 Push
    -300 Arith 104 Return 172;
";

#[test]
fn instructions(rt: HostRuntime) -> Result<(), Fail> {
    for rows in [ALONE, WITH_OPERANDS, REFUSED, OF_JAVAC] {
        assert_eq!(rt; first_wrong(rt.alloc(), rows)?, None);
    }
    Ok(())
}
