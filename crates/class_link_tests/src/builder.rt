//! Class files by short texts. A program is its classes with `|` between them, and a class is its
//! parts with `,` between them. The first part is the class's name with its flags, if they aren't
//! those of a public class; its superclass is Object. The other parts are
//!
//! - `super NAME` and `super none`, and `of NAME` for a listed interface;
//! - `unused NAME` for an item of a class that no code uses;
//! - `field FLAGS NAME DESC`, behind which the value of a constant may stand;
//! - `method FLAGS NAME DESC CODE`. Words of the code are bytes, or the name of an instruction and
//!   what it names, as `new:A` and `getfield:A.x.I`; `return` stands behind them. `catch:0.1.2.A`
//!   is an entry of the exception table.

use class_format::{ABSTRACT, ClassFile, FieldItem, MethodItem, NATIVE, has_flag};
use jvm_base::{CodeItem, List, NoMemory, Pool, PoolItem, TableItem, Units};
use std::alloc::Global;
use std::str::SplitWhitespace;

/// The flags of a public class.
const CLASS: u16 = 0x0021;

const RETURN: u8 = 177;

/// A number of hexadecimal digits.
fn hex(text: &str) -> u16 {
    let mut number = 0u16;
    for byte in text.as_bytes() {
        let digit = match *byte {
            b'a'..=b'f' => byte.wrapping_sub(87),
            _ => byte.wrapping_sub(48),
        };
        number = number.wrapping_mul(16).wrapping_add(digit as u16);
    }
    number
}

/// Adds an item to the pool, and answers its index.
fn item(pool: &mut Pool, item: PoolItem) -> Result<u16, NoMemory> {
    let index = u16::try_from(pool.len()).unwrap_or(0);
    pool.push(item)?;
    Ok(index)
}

/// The units of a text of ASCII.
pub(crate) fn units(alloc: Global, text: &str) -> Result<Units, NoMemory> {
    let mut units = Units::new(alloc);
    for byte in text.as_bytes() {
        units.push(*byte as u16)?;
    }
    Ok(units)
}

/// The text of units of ASCII.
pub(crate) fn ascii(alloc: Global, units: &Units) -> Result<String, NoMemory> {
    let mut text = String::new(alloc);
    for unit in units.as_slice() {
        text.push(char::from_u32(*unit as u32).unwrap_or('?'))?;
    }
    Ok(text)
}

fn text_item(alloc: Global, pool: &mut Pool, text: &str) -> Result<u16, NoMemory> {
    let text = units(alloc, text)?;
    item(pool, PoolItem::Utf8(text))
}

fn class_item(alloc: Global, pool: &mut Pool, name: &str) -> Result<u16, NoMemory> {
    let name = text_item(alloc, pool, name)?;
    item(pool, PoolItem::Class(name))
}

/// The item of a member that is written as its class, its name and its descriptor with points
/// between them, by the opcode of an instruction that takes it.
fn member_item(alloc: Global, pool: &mut Pool, op: u8, text: &str) -> Result<u16, NoMemory> {
    let (class, key) = text.split_once('.').unwrap_or((text, ""));
    let (name, desc) = key.split_once('.').unwrap_or((key, ""));
    let class = class_item(alloc, pool, class)?;
    let name = text_item(alloc, pool, name)?;
    let desc = text_item(alloc, pool, desc)?;
    let pair = item(pool, PoolItem::NameAndKind { name, desc })?;
    match op {
        178..=181 => item(pool, PoolItem::Field { class, pair }),
        182..=184 => item(pool, PoolItem::Method { class, pair }),
        _ => item(pool, PoolItem::InterfaceMethod { class, pair }),
    }
}

/// The opcode of an instruction with an item.
fn opcode(name: &str) -> u8 {
    match name {
        "int" | "string" => 19,
        "long" => 20,
        "getstatic" => 178,
        "putstatic" => 179,
        "getfield" => 180,
        "putfield" => 181,
        "invokevirtual" => 182,
        "invokespecial" => 183,
        "invokestatic" => 184,
        "invokeinterface" => 185,
        "new" => 187,
        "anewarray" => 189,
        "checkcast" => 192,
        "instanceof" => 193,
        "multianewarray" => 197,
        _ => 0,
    }
}

/// The item that such an instruction takes, or the constant of a field of that descriptor.
fn operand(alloc: Global, pool: &mut Pool, name: &str, text: &str) -> Result<u16, NoMemory> {
    match name {
        "int" | "I" | "B" => item(pool, PoolItem::Integer(text.parse::<i32>().unwrap_or(0))),
        "long" | "J" => {
            let long = item(pool, PoolItem::Long(text.parse::<i64>().unwrap_or(0)))?;
            item(pool, PoolItem::Gap)?;
            Ok(long)
        }
        "string" | "Ljava/lang/String;" => {
            let text = text_item(alloc, pool, text)?;
            item(pool, PoolItem::Text(text))
        }
        "new" | "anewarray" | "checkcast" | "instanceof" | "multianewarray" => {
            class_item(alloc, pool, text)
        }
        _ => member_item(alloc, pool, opcode(name), text),
    }
}

/// An entry of an exception table: start, end, handler and class, or `any`.
fn entry(alloc: Global, pool: &mut Pool, text: &str) -> Result<TableItem, NoMemory> {
    let mut parts = text.split('.');
    let start = hex(parts.next().unwrap_or(""));
    let end = hex(parts.next().unwrap_or(""));
    let handler = hex(parts.next().unwrap_or(""));
    let class = match parts.next() {
        Some("any") | None => 0,
        Some(name) => class_item(alloc, pool, name)?,
    };
    Ok(TableItem {
        start,
        end,
        handler,
        class,
    })
}

/// Adds a word to a code.
fn push_word(
    alloc: Global,
    pool: &mut Pool,
    code: &mut CodeItem,
    word: &str,
) -> Result<(), NoMemory> {
    match word.split_once(':') {
        None => code.code.push(hex(word).to_be_bytes()[1]),
        Some(("catch", text)) => code.table.push(entry(alloc, pool, text)?),
        Some((name, text)) => {
            let index = operand(alloc, pool, name, text)?;
            code.code.push(opcode(name))?;
            code.code.append(&index.to_be_bytes())
        }
    }
}

/// A field of its flags, name, descriptor and constant.
fn field(alloc: Global, pool: &mut Pool, text: &str) -> Result<FieldItem, NoMemory> {
    let mut words = text.split_whitespace();
    let flags = hex(words.next().unwrap_or(""));
    let name = text_item(alloc, pool, words.next().unwrap_or(""))?;
    let kind = words.next().unwrap_or("");
    let desc = text_item(alloc, pool, kind)?;
    let constant = match words.next() {
        Some(value) => Some(operand(alloc, pool, kind, value)?),
        None => None,
    };
    Ok(FieldItem {
        flags,
        name,
        desc,
        constant,
    })
}

/// The code of some words.
fn code(alloc: Global, pool: &mut Pool, words: SplitWhitespace<'_>) -> Result<CodeItem, NoMemory> {
    let mut code = CodeItem {
        max_stack: 9,
        max_locals: 9,
        code: List::new(alloc),
        table: List::new(alloc),
    };
    for word in words {
        push_word(alloc, pool, &mut code, word)?;
    }
    code.code.push(RETURN)?;
    Ok(code)
}

/// A method of its flags, name, descriptor and code.
fn method(alloc: Global, pool: &mut Pool, text: &str) -> Result<MethodItem, NoMemory> {
    let mut words = text.split_whitespace();
    let flags = hex(words.next().unwrap_or(""));
    let name = text_item(alloc, pool, words.next().unwrap_or(""))?;
    let desc = text_item(alloc, pool, words.next().unwrap_or(""))?;
    let code = if has_flag(flags, ABSTRACT) || has_flag(flags, NATIVE) {
        None
    } else {
        Some(code(alloc, pool, words)?)
    };
    Ok(MethodItem {
        flags,
        name,
        desc,
        code,
    })
}

/// The class of a name and flags.
fn bare_class(alloc: Global, head: &str) -> Result<ClassFile, NoMemory> {
    let mut pool = Pool::new(alloc)?;
    text_item(alloc, &mut pool, "Code")?;
    text_item(alloc, &mut pool, "ConstantValue")?;
    let mut words = head.split_whitespace();
    let this_class = class_item(alloc, &mut pool, words.next().unwrap_or(""))?;
    let flags = match words.next() {
        Some(flags) => hex(flags),
        None => CLASS,
    };
    let super_class = class_item(alloc, &mut pool, "java/lang/Object")?;
    Ok(ClassFile {
        minor: 0,
        major: 46,
        pool,
        flags,
        this_class,
        super_class,
        interfaces: List::new(alloc),
        fields: List::new(alloc),
        methods: List::new(alloc),
    })
}

/// Adds a part to a class. One of another kind leaves no class file.
fn push_part(alloc: Global, class: &mut ClassFile, part: &str) -> Result<(), NoMemory> {
    let (kind, text) = part.split_once(' ').unwrap_or((part, ""));
    let pool = &mut class.pool;
    match kind {
        "super" if text == "none" => class.super_class = 0,
        "super" => class.super_class = class_item(alloc, pool, text)?,
        "of" => class.interfaces.push(class_item(alloc, pool, text)?)?,
        "field" => class.fields.push(field(alloc, pool, text)?)?,
        "method" => class.methods.push(method(alloc, pool, text)?)?,
        "unused" => {
            class_item(alloc, pool, text)?;
        }
        _ => class.this_class = 0,
    }
    Ok(())
}

/// The class of a text.
fn class(alloc: Global, text: &str) -> Result<ClassFile, NoMemory> {
    let mut parts = text.split(',');
    let mut class = bare_class(alloc, parts.next().unwrap_or(""))?;
    for part in parts {
        push_part(alloc, &mut class, part.trim())?;
    }
    Ok(class)
}

/// The classes of a program.
pub(crate) fn program(alloc: Global, text: &str) -> Result<List<ClassFile>, NoMemory> {
    let mut files = List::new(alloc);
    for part in text.split('|') {
        files.push(class(alloc, part)?)?;
    }
    Ok(files)
}
