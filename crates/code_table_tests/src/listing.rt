//! Decoded code as a text, and tables of code in hex with the text that is due.

use crate::fixture::{decoded, pool};
use code_table::Op;
use std::alloc::Global;
use std::fmt::Write;
use std::test::Fail;

fn name(op: &Op) -> &'static str {
    match op {
        Op::Nop => "Nop",
        Op::AconstNull => "AconstNull",
        Op::Iconst(_) => "Iconst",
        Op::Lconst(_) => "Lconst",
        Op::Push(_) => "Push",
        Op::Ldc(_) => "Ldc",
        Op::Ldc2(_) => "Ldc2",
        Op::Load { .. } => "Load",
        Op::ArrayLoad(_) => "ArrayLoad",
        Op::Store { .. } => "Store",
        Op::ArrayStore(_) => "ArrayStore",
        Op::Pop(_) => "Pop",
        Op::Dup(_) => "Dup",
        Op::Swap => "Swap",
        Op::Arith(_) => "Arith",
        Op::Divide(_) => "Divide",
        Op::Negate(_) => "Negate",
        Op::Shift(_) => "Shift",
        Op::Bits(_) => "Bits",
        Op::Iinc { .. } => "Iinc",
        Op::Resize(_) => "Resize",
        Op::Lcmp => "Lcmp",
        Op::IfZero { .. } => "IfZero",
        Op::IfInts { .. } => "IfInts",
        Op::IfRefs { .. } => "IfRefs",
        Op::IfNull { .. } => "IfNull",
        Op::Goto(_) => "Goto",
        Op::TableSwitch { .. } => "TableSwitch",
        Op::LookupSwitch { .. } => "LookupSwitch",
        Op::Return(_) => "Return",
        Op::Static { .. } => "Static",
        Op::Field { .. } => "Field",
        Op::Invoke { .. } => "Invoke",
        Op::New(_) => "New",
        Op::NewArray(_) => "NewArray",
        Op::AnewArray(_) => "AnewArray",
        Op::ArrayLength => "ArrayLength",
        Op::Athrow => "Athrow",
        Op::Cast { .. } => "Cast",
        Op::Monitor(_) => "Monitor",
        Op::MultiNewArray { .. } => "MultiNewArray",
    }
}

fn one<N: Into<i64>>(a: N) -> [Option<i64>; 3] {
    [Some(a.into()), None, None]
}

fn two<M: Into<i64>, N: Into<i64>>(a: M, b: N) -> [Option<i64>; 3] {
    [Some(a.into()), Some(b.into()), None]
}

/// The numbers of an instruction. Of a field's descriptor the dimensions are told, and of a
/// method's how many arguments there are.
fn numbers(op: &Op) -> [Option<i64>; 3] {
    match op {
        Op::Iconst(n) | Op::Push(n) => one(*n),
        Op::Lconst(n) => one(*n),
        Op::Ldc(item) | Op::Ldc2(item) | Op::New(item) | Op::AnewArray(item) => one(*item),
        Op::Load { op, local } | Op::Store { op, local } => two(*op, *local),
        Op::ArrayLoad(op) | Op::ArrayStore(op) | Op::Pop(op) | Op::Dup(op) => one(*op),
        Op::Arith(op) | Op::Divide(op) | Op::Negate(op) | Op::Shift(op) => one(*op),
        Op::Bits(op) | Op::Resize(op) | Op::Return(op) | Op::Monitor(op) => one(*op),
        Op::NewArray(kind) => one(*kind),
        Op::Iinc { local, by } => two(*local, *by),
        Op::IfZero { op, to } | Op::IfInts { op, to } => two(*op, *to),
        Op::IfRefs { op, to } | Op::IfNull { op, to } => two(*op, *to),
        Op::Goto(to) => one(*to),
        Op::TableSwitch {
            other,
            low,
            high,
            ..
        } => [
            Some(i64::from(*other)),
            Some(i64::from(*low)),
            Some(i64::from(*high)),
        ],
        Op::LookupSwitch { other, .. } => one(*other),
        Op::Static { op, item, desc } | Op::Field { op, item, desc } => [
            Some(i64::from(*op)),
            Some(i64::from(*item)),
            Some(i64::from(desc.get().dims)),
        ],
        Op::Invoke { op, item, desc } => [
            Some(i64::from(*op)),
            Some(i64::from(*item)),
            i64::try_from(desc.get().args.len()).ok(),
        ],
        Op::Cast { op, item } => two(*op, *item),
        Op::MultiNewArray { item, dims } => two(*item, *dims),
        _ => [None, None, None],
    }
}

fn show(text: &mut String, op: &Op) -> Result<(), Fail> {
    write!(text, " {}", name(op))?;
    for number in numbers(op) {
        if let Some(number) = number {
            write!(text, " {number}")?;
        }
    }
    match op {
        Op::TableSwitch { to, .. } => {
            for to in to.as_slice() {
                write!(text, " {to}")?;
            }
        }
        Op::LookupSwitch { pairs, .. } => {
            for (key, to) in pairs.as_slice() {
                write!(text, " {key}:{to}")?;
            }
        }
        _ => {}
    }
    Ok(())
}

/// The instructions of code in hex, or its refusal.
fn listing(alloc: Global, hex: &str) -> Result<String, Fail> {
    let mut code = Vec::new(alloc);
    for byte in hex.split_whitespace() {
        code.push(u8::from_str_radix(byte, 16)?)?;
    }
    let mut text = String::new(alloc);
    match decoded(alloc, &pool(alloc)?, code.as_slice(), &[]) {
        Ok(code) => {
            for placed in code.ops.as_slice() {
                show(&mut text, &placed.op)?;
            }
        }
        Err(why) => write!(text, " {why}")?,
    }
    Ok(text)
}

/// The first row, of those with `mnemonics: code in hex = what is due` up to a `;`, that isn't so.
pub(crate) fn first_wrong(alloc: Global, rows: &str) -> Result<Option<String>, Fail> {
    for row in rows.split(';') {
        let Some((front, due)) = row.split_once('=') else {
            continue;
        };
        let (_, hex) = front.split_once(':').unwrap_or(("", front));
        let text = listing(alloc, hex)?;
        if !text.split_whitespace().eq(due.split_whitespace()) {
            return Ok(Some(format!(in alloc; "{front}:{text}")?));
        }
    }
    Ok(None)
}
