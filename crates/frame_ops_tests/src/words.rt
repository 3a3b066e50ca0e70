//! Values and answers as words. An int is `5`, a long `5L`, a reference `@5` or `null`.

use frame_ops::{Fault, Pure};
use jvm_base::{List, Name, NoMemory, Value};
use std::alloc::Global;

/// The object of that number.
fn object(index: u32) -> Value {
    Value::Ref(Name {
        node: 1,
        class: 34,
        index,
    })
}

/// The value of a word; `None` where it is the word of none.
pub(crate) fn value_of(word: &str) -> Option<Value> {
    if word == "null" {
        return Some(Value::Null);
    }
    if let Some(index) = word.strip_prefix('@') {
        return Some(object(index.parse::<u32>().ok()?));
    }
    if let Some(number) = word.strip_suffix('L') {
        return Some(Value::Long(number.parse::<i64>().ok()?));
    }
    Some(Value::Int(word.parse::<i32>().ok()?))
}

/// Adds the word of a value.
pub(crate) fn push_value(alloc: Global, text: &mut String, value: Value) -> Result<(), NoMemory> {
    let word = match value {
        Value::Int(number) => format!(in alloc; "{number} ")?,
        Value::Long(number) => format!(in alloc; "{number}L ")?,
        Value::Ref(name) => format!(in alloc; "@{} ", name.index)?,
        Value::Null => String::from_str(alloc, "null ")?,
    };
    text.push_str(word.as_str())?;
    Ok(())
}

/// The words of values.
pub(crate) fn values(alloc: Global, values: &List<Value>) -> Result<String, NoMemory> {
    let mut text = String::new(alloc);
    for value in values.as_slice() {
        push_value(alloc, &mut text, *value)?;
    }
    Ok(text)
}

fn fault(fault: Fault) -> &'static str {
    match fault {
        Fault::Arithmetic => "Arithmetic",
        Fault::NullPointer => "NullPointer",
        Fault::ClassCast => "ClassCast",
        Fault::NegativeSize => "NegativeSize",
    }
}

/// What an instruction comes to that doesn't go on by itself.
pub(crate) fn answer(alloc: Global, answer: Pure) -> Result<String, NoMemory> {
    let mut text = String::new(alloc);
    match answer {
        Pure::Next => {}
        Pure::Raise(raised) => text.push_str(fault(raised))?,
        Pure::Heap => text.push_str("asks")?,
        Pure::Call => text.push_str("calls")?,
        Pure::Leave(None) => text.push_str("leaves")?,
        Pure::Leave(Some(value)) => {
            text.push_str("leaves ")?;
            push_value(alloc, &mut text, value)?;
        }
        Pure::Throw(name) => {
            text.push_str("throws ")?;
            push_value(alloc, &mut text, Value::Ref(name))?;
        }
    }
    Ok(text)
}
