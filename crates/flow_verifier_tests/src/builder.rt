//! Class files by short texts. A program is its classes with `|` between them, and a class is its
//! parts with `,` between them. The first part is the class's name with its flags, if they aren't
//! those of a public class; its superclass is Object. The other parts are
//!
//! - `super NAME`;
//! - `field FLAGS NAME DESC`;
//! - `method FLAGS NAME DESC STACK.LOCALS CODE`, where a method has code unless it is abstract. Words of
//!   the code are bytes, or the name of an instruction and what it names, as `new:A` and
//!   `getfield:A.x.I`. `catch:0.1.2.A` is an entry of the exception table.
//!
//! Numbers are hexadecimal.

use class_format::{ABSTRACT, ClassFile, FieldItem, MethodItem, has_flag};
use jvm_base::{CodeItem, List, NoMemory, Pool, PoolItem, TableItem, Units};
use std::alloc::Global;
use std::str::SplitWhitespace;

/// The flags of a public class.
const CLASS: u16 = 0x0021;

fn digit(byte: u8) -> u8 {
    match byte {
        b'0'..=b'9' => byte.wrapping_sub(b'0'),
        b'a'..=b'f' => byte.wrapping_sub(b'a').wrapping_add(10),
        _ => 0,
    }
}

/// A number of hexadecimal digits.
fn hex(text: &str) -> u16 {
    let mut number = 0u16;
    for byte in text.as_bytes() {
        number = number.wrapping_mul(16).wrapping_add(digit(*byte) as u16);
    }
    number
}

/// Adds an item to the pool, and answers its index.
fn item(pool: &mut Pool, item: PoolItem) -> Result<u16, NoMemory> {
    let index = u16::try_from(pool.len()).unwrap_or(0);
    pool.push(item)?;
    Ok(index)
}

/// The units of a text of ASCII.
pub(crate) fn units(alloc: Global, text: &str) -> Result<Units, NoMemory> {
    let mut units = Units::new(alloc);
    for byte in text.as_bytes() {
        units.push(*byte as u16)?;
    }
    Ok(units)
}

fn text_item(alloc: Global, pool: &mut Pool, text: &str) -> Result<u16, NoMemory> {
    let text = units(alloc, text)?;
    item(pool, PoolItem::Utf8(text))
}

fn class_item(alloc: Global, pool: &mut Pool, name: &str) -> Result<u16, NoMemory> {
    let name = text_item(alloc, pool, name)?;
    item(pool, PoolItem::Class(name))
}

fn string_item(alloc: Global, pool: &mut Pool, text: &str) -> Result<u16, NoMemory> {
    let text = text_item(alloc, pool, text)?;
    item(pool, PoolItem::Text(text))
}

fn long_item(pool: &mut Pool, text: &str) -> Result<u16, NoMemory> {
    let long = item(pool, PoolItem::Long(text.parse::<i64>().unwrap_or(0)))?;
    item(pool, PoolItem::Gap)?;
    Ok(long)
}

/// The item of a member that is written as its class, its name and its descriptor with points
/// between them, by the opcode of an instruction that takes it.
fn member_item(alloc: Global, pool: &mut Pool, op: u8, text: &str) -> Result<u16, NoMemory> {
    let (class, key) = text.split_once('.').unwrap_or((text, ""));
    let (name, desc) = key.split_once('.').unwrap_or((key, ""));
    let class = class_item(alloc, pool, class)?;
    let name = text_item(alloc, pool, name)?;
    let desc = text_item(alloc, pool, desc)?;
    let pair = item(pool, PoolItem::NameAndKind { name, desc })?;
    match op {
        178..=181 => item(pool, PoolItem::Field { class, pair }),
        182..=184 => item(pool, PoolItem::Method { class, pair }),
        _ => item(pool, PoolItem::InterfaceMethod { class, pair }),
    }
}

/// The opcode of an instruction with an item, and 0 for other words.
fn opcode(name: &str) -> u8 {
    match name {
        "string" => 19,
        "long" => 20,
        "getstatic" => 178,
        "putstatic" => 179,
        "getfield" => 180,
        "putfield" => 181,
        "invokevirtual" => 182,
        "invokespecial" => 183,
        "invokestatic" => 184,
        "invokeinterface" => 185,
        "new" => 187,
        "anewarray" => 189,
        "checkcast" => 192,
        "instanceof" => 193,
        "multianewarray" => 197,
        _ => 0,
    }
}

/// The item that such an instruction takes.
fn operand(alloc: Global, pool: &mut Pool, name: &str, text: &str) -> Result<u16, NoMemory> {
    match opcode(name) {
        19 => string_item(alloc, pool, text),
        20 => long_item(pool, text),
        op @ 178..=185 => member_item(alloc, pool, op, text),
        _ => class_item(alloc, pool, text),
    }
}

/// An entry of an exception table: start, end, handler and class, or `any`.
fn entry(alloc: Global, pool: &mut Pool, text: &str) -> Result<TableItem, NoMemory> {
    let mut parts = text.split('.');
    let start = hex(parts.next().unwrap_or(""));
    let end = hex(parts.next().unwrap_or(""));
    let handler = hex(parts.next().unwrap_or(""));
    let class = match parts.next() {
        Some("any") | None => 0,
        Some(name) => class_item(alloc, pool, name)?,
    };
    Ok(TableItem {
        start,
        end,
        handler,
        class,
    })
}

/// Adds the bytes of hexadecimal digits.
fn push_bytes(code: &mut List<u8>, word: &str) -> Result<(), NoMemory> {
    let mut high: Option<u8> = None;
    for byte in word.as_bytes() {
        high = push_digit(code, high, digit(*byte))?;
    }
    Ok(())
}

/// Adds a byte with its second digit; what is left over is a first digit.
fn push_digit(code: &mut List<u8>, high: Option<u8>, low: u8) -> Result<Option<u8>, NoMemory> {
    let Some(first) = high else {
        return Ok(Some(low));
    };
    code.push(first.wrapping_mul(16).wrapping_add(low))?;
    Ok(None)
}

/// Adds a word to a code.
fn push_word(
    alloc: Global,
    pool: &mut Pool,
    code: &mut CodeItem,
    word: &str,
) -> Result<(), NoMemory> {
    let Some((name, text)) = word.split_once(':') else {
        return push_bytes(&mut code.code, word);
    };
    if name == "catch" {
        return code.table.push(entry(alloc, pool, text)?);
    }
    code.code.push(opcode(name))?;
    let index = operand(alloc, pool, name, text)?;
    code.code.append(&index.to_be_bytes())
}

/// A field of its flags, name and descriptor.
fn field(alloc: Global, pool: &mut Pool, text: &str) -> Result<FieldItem, NoMemory> {
    let mut words = text.split_whitespace();
    let flags = hex(words.next().unwrap_or(""));
    let name = text_item(alloc, pool, words.next().unwrap_or(""))?;
    let desc = text_item(alloc, pool, words.next().unwrap_or(""))?;
    Ok(FieldItem {
        flags,
        name,
        desc,
        constant: None,
    })
}

/// The code of some words, of which the first is the room of its stack and of its locals.
fn code(
    alloc: Global,
    pool: &mut Pool,
    mut words: SplitWhitespace<'_>,
) -> Result<CodeItem, NoMemory> {
    let (stack, locals) = words
        .next()
        .and_then(|room| room.split_once('.'))
        .unwrap_or(("", ""));
    let mut code = CodeItem {
        max_stack: hex(stack),
        max_locals: hex(locals),
        code: List::new(alloc),
        table: List::new(alloc),
    };
    for word in words {
        push_word(alloc, pool, &mut code, word)?;
    }
    Ok(code)
}

/// A method of its flags, name, descriptor and code.
fn method(alloc: Global, pool: &mut Pool, text: &str) -> Result<MethodItem, NoMemory> {
    let mut words = text.split_whitespace();
    let flags = hex(words.next().unwrap_or(""));
    let name = text_item(alloc, pool, words.next().unwrap_or(""))?;
    let desc = text_item(alloc, pool, words.next().unwrap_or(""))?;
    let code = if has_flag(flags, ABSTRACT) {
        None
    } else {
        Some(code(alloc, pool, words)?)
    };
    Ok(MethodItem {
        flags,
        name,
        desc,
        code,
    })
}

/// The class of a name and flags.
fn bare_class(alloc: Global, head: &str) -> Result<ClassFile, NoMemory> {
    let mut pool = Pool::new(alloc)?;
    text_item(alloc, &mut pool, "Code")?;
    let mut words = head.split_whitespace();
    let this_class = class_item(alloc, &mut pool, words.next().unwrap_or(""))?;
    let flags = words.next().map_or(CLASS, hex);
    let super_class = class_item(alloc, &mut pool, "java/lang/Object")?;
    Ok(ClassFile {
        minor: 0,
        major: 46,
        pool,
        flags,
        this_class,
        super_class,
        interfaces: List::new(alloc),
        fields: List::new(alloc),
        methods: List::new(alloc),
    })
}

/// Adds a part to a class. One of another kind leaves no class file.
fn push_part(alloc: Global, class: &mut ClassFile, part: &str) -> Result<(), NoMemory> {
    let (kind, text) = part.split_once(' ').unwrap_or((part, ""));
    let pool = &mut class.pool;
    match kind {
        "super" => class.super_class = class_item(alloc, pool, text)?,
        "field" => class.fields.push(field(alloc, pool, text)?)?,
        "method" => class.methods.push(method(alloc, pool, text)?)?,
        _ => class.this_class = 0,
    }
    Ok(())
}

fn class(alloc: Global, text: &str) -> Result<ClassFile, NoMemory> {
    let mut parts = text.split(',');
    let mut class = bare_class(alloc, parts.next().unwrap_or(""))?;
    for part in parts {
        push_part(alloc, &mut class, part.trim())?;
    }
    Ok(class)
}

/// Adds the classes of a text to a program.
pub(crate) fn push_classes(
    alloc: Global,
    files: &mut List<ClassFile>,
    text: &str,
) -> Result<(), NoMemory> {
    for part in text.split('|') {
        files.push(class(alloc, part)?)?;
    }
    Ok(())
}
