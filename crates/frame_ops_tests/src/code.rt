//! Code of one instruction, with nops around it.

ghost use Rattle.std.specs.Prelude.{IfOk};
ghost use Rattle.frame_ops.specs.Stepping.{IsRising};

use code_table::{Code, CodeErr, decode_code, one_cover};
use jvm_base::{CodeItem, List, NoMemory, Pool, PoolItem, Units};
use std::alloc::Global;

/// The address of the instruction.
pub(crate) const AT: u32 = 4;

/// The mnemonics by opcode (JVMS2 9).
const MNEMONICS: &str = "
nop aconst_null iconst_m1 iconst_0 iconst_1 iconst_2 iconst_3 iconst_4 iconst_5 lconst_0 lconst_1
fconst_0 fconst_1 fconst_2 dconst_0 dconst_1 bipush sipush ldc ldc_w ldc2_w iload lload fload dload
aload iload_0 iload_1 iload_2 iload_3 lload_0 lload_1 lload_2 lload_3 fload_0 fload_1 fload_2
fload_3 dload_0 dload_1 dload_2 dload_3 aload_0 aload_1 aload_2 aload_3 iaload laload faload daload
aaload baload caload saload istore lstore fstore dstore astore istore_0 istore_1 istore_2 istore_3
lstore_0 lstore_1 lstore_2 lstore_3 fstore_0 fstore_1 fstore_2 fstore_3 dstore_0 dstore_1 dstore_2
dstore_3 astore_0 astore_1 astore_2 astore_3 iastore lastore fastore dastore aastore bastore castore
sastore pop pop2 dup dup_x1 dup_x2 dup2 dup2_x1 dup2_x2 swap iadd ladd fadd dadd isub lsub fsub dsub
imul lmul fmul dmul idiv ldiv fdiv ddiv irem lrem frem drem ineg lneg fneg dneg ishl lshl ishr lshr
iushr lushr iand land ior lor ixor lxor iinc i2l i2f i2d l2i l2f l2d f2i f2l f2d d2i d2l d2f i2b i2c
i2s lcmp fcmpl fcmpg dcmpl dcmpg ifeq ifne iflt ifge ifgt ifle if_icmpeq if_icmpne if_icmplt
if_icmpge if_icmpgt if_icmple if_acmpeq if_acmpne goto jsr ret tableswitch lookupswitch ireturn
lreturn freturn dreturn areturn return getstatic putstatic getfield putfield invokevirtual
invokespecial invokestatic invokeinterface unused new newarray anewarray arraylength athrow checkcast
instanceof monitorenter monitorexit wide multianewarray ifnull ifnonnull goto_w jsr_w
";

/// The opcode of a mnemonic.
fn opcode_of(word: &str) -> Option<u8> {
    let place = MNEMONICS.split_whitespace().position(|name| name == word)?;
    u8::try_from(place).ok()
}

/// Adds the bytes of an instruction, of which `wide.iload.0100` tells the form.
fn push_bytes(code: &mut List<u8>, instruction: &str) -> Result<(), NoMemory> {
    for word in instruction.split('.') {
        if let Some(opcode) = opcode_of(word) {
            code.push(opcode)?;
            continue;
        }
        for pair in word.as_bytes().chunks(2) {
            let digits = std::str::from_utf8(pair).unwrap_or("");
            code.push(u8::from_str_radix(digits, 16).unwrap_or(0xff))?;
        }
    }
    Ok(())
}

fn text(alloc: Global, pool: &mut Pool, bytes: &[u8]) -> Result<(), NoMemory> {
    let mut units = Units::new(alloc);
    for byte in bytes {
        units.push(*byte as u16)?;
    }
    pool.push(PoolItem::Utf8(units))
}

/// 6 is a class, 7 a field, 8 a method of a long and an int, 9 an interface's, 10 an int, 11 a
/// long, 13 a String, and 16 a method like 8 that gives a long.
fn pool(alloc: Global) -> Result<Pool, NoMemory> {
    let mut pool = Pool::new(alloc)?;
    text(alloc, &mut pool, b"I")?;
    text(alloc, &mut pool, b"(JI)V")?;
    pool.push(PoolItem::NameAndKind { name: 1, desc: 1 })?;
    pool.push(PoolItem::NameAndKind { name: 1, desc: 2 })?;
    text(alloc, &mut pool, b"[[I")?;
    pool.push(PoolItem::Class(5))?;
    pool.push(PoolItem::Field { class: 6, pair: 3 })?;
    pool.push(PoolItem::Method { class: 6, pair: 4 })?;
    pool.push(PoolItem::InterfaceMethod { class: 6, pair: 4 })?;
    pool.push(PoolItem::Integer(0))?;
    pool.push(PoolItem::Long(0))?;
    pool.push(PoolItem::Gap)?;
    pool.push(PoolItem::Text(1))?;
    text(alloc, &mut pool, b"(JI)J")?;
    pool.push(PoolItem::NameAndKind { name: 1, desc: 14 })?;
    pool.push(PoolItem::Method { class: 6, pair: 15 })?;
    Ok(pool)
}

/// The code of an instruction at the address `AT`, with four nops before it and eight behind it.
pub(crate) fn code_of(alloc: Global, instruction: &str) -> Result<Code, CodeErr>
    ensures { IfOk result (λ code. IsRising code.ops) }
{
    let mut code = List::new(alloc);
    code.append(&[0; 4])?;
    push_bytes(&mut code, instruction)?;
    code.append(&[0; 8])?;
    let item = CodeItem {
        max_stack: 0,
        max_locals: 0,
        code,
        table: List::new(alloc),
    };
    let pool = pool(alloc)?;
    let decoded = decode_code(alloc, &item, &pool)?;
    one_cover(item.code.as_slice(), &pool);
    Ok(decoded)
}
