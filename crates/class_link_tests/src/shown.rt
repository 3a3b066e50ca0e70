//! Images as texts: a line for the program, then one for each class behind the boot classes with
//! those of its fields, one for each method of theirs with those of its targets, and one for each
//! literal.

ghost use Rattle.std.specs.Prelude.{◌<◌, length};

use crate::builder::ascii;
use jvm_base::{Elem, MethodDesc, NoMemory, Units};
use program_image::{Body, ClassInfo, FieldInfo, Image, MethodInfo};
use std::alloc::Global;

/// The numbers of the first class and of the first method behind those of the boot classes.
const FIRST_CLASS: u32 = 34;

const FIRST_METHOD: u32 = 92;

/// Adds a descriptor.
fn push_desc(alloc: Global, words: &mut String, dims: u8, elem: &Elem) -> Result<(), NoMemory> {
    for _ in 0..dims {
        words.push('[')?;
    }
    let letter = match elem {
        Elem::Byte => 'B',
        Elem::Char => 'C',
        Elem::Double => 'D',
        Elem::Float => 'F',
        Elem::Int => 'I',
        Elem::Long => 'J',
        Elem::Short => 'S',
        Elem::Boolean => 'Z',
        Elem::Object(name) => {
            let name = ascii(alloc, name)?;
            let name = format!(in alloc; "L{name}")?;
            words.push_str(name.as_str())?;
            ';'
        }
    };
    words.push(letter)?;
    Ok(())
}

fn push_method_desc(alloc: Global, words: &mut String, desc: &MethodDesc) -> Result<(), NoMemory> {
    words.push('(')?;
    for arg in desc.args.as_slice() {
        push_desc(alloc, words, arg.dims, &arg.elem)?;
    }
    words.push(')')?;
    match &desc.ret {
        Some(result) => push_desc(alloc, words, result.dims, &result.elem),
        None => Ok(words.push('V')?),
    }
}

/// Owner, name, descriptor, flags, place and constant.
fn push_field(alloc: Global, words: &mut String, field: &FieldInfo) -> Result<(), NoMemory> {
    let name = ascii(alloc, field.name.get())?;
    let (mut desc, parsed) = (String::new(alloc), field.desc.get());
    push_desc(alloc, &mut desc, parsed.dims, &parsed.elem)?;
    let (owner, flags, place, constant) = (field.owner, field.flags, field.place, field.constant);
    let line = format!(in alloc; "field {owner} {name} {desc} {flags:x} {place} {constant:?}\n")?;
    words.push_str(line.as_str())?;
    Ok(())
}

/// Number, name, flags, what is above it, its methods and its initialiser; what an array is of, and
/// the class of its parts.
fn push_class(
    alloc: Global,
    words: &mut String,
    number: u32,
    class: &ClassInfo,
) -> Result<(), NoMemory> {
    let name = Units::from_slice(alloc, class.name.as_slice())?;
    let name = ascii(alloc, &name)?;
    let (flags, over, clinit) = (class.flags, class.super_class, class.clinit);
    let (above, methods) = (class.interfaces.as_slice(), class.methods.as_slice());
    let line = format!(in alloc;
        "class {number} {name} {flags:x} {over:?} {above:?} {methods:?} {clinit:?}\n"
    )?;
    words.push_str(line.as_str())?;
    if let Some(array) = &class.array {
        let part = array.part;
        let line = format!(in alloc; "array {part:?} ")?;
        words.push_str(line.as_str())?;
        push_desc(alloc, words, array.dims, array.elem.get())?;
        words.push('\n')?;
    }
    Ok(())
}

/// Number, owner, name and descriptor, flags, and how many instructions and entries of the
/// exception table it has.
fn push_method(
    alloc: Global,
    words: &mut String,
    number: u32,
    method: &MethodInfo,
) -> Result<(), NoMemory> {
    let name = ascii(alloc, method.name.get())?;
    let mut desc = String::new(alloc);
    push_method_desc(alloc, &mut desc, method.desc.get())?;
    let (ops, entries) = match &method.body {
        Body::Code(code) => (code.ops.len(), code.table.len()),
        Body::Intrinsic(_) | Body::Abstract => (0, 0),
    };
    let (owner, flags) = (method.owner, method.flags);
    let line = format!(in alloc;
        "method {number} {owner} {name}{desc} {flags:x} {ops} {entries}\n"
    )?;
    words.push_str(line.as_str())?;
    Ok(())
}

/// What stands at some addresses of a method.
fn push_targets(
    alloc: Global,
    words: &mut String,
    image: &Image,
    method: u32,
    from: u32,
) -> Result<(), NoMemory>
    requires method { method < length image.now.methods }
    requires from { from < 100000 }
{
    for at in from..from + 40 {
        if let Some(target) = image.target(method, at) {
            let line = format!(in alloc; "at {at} {target:?}\n")?;
            words.push_str(line.as_str())?;
        }
    }
    Ok(())
}

/// The image as a text.
pub(crate) fn shown(alloc: Global, image: &Image) -> Result<String, NoMemory> {
    let (classes, methods, main) = (image.classes(), image.methods(), image.main());
    let mut words = format!(in alloc; "classes {classes} methods {methods} main {main}\n")?;
    for number in FIRST_CLASS..classes {
        let class = image.class(number);
        push_class(alloc, &mut words, number, class)?;
        for field in class.fields.as_slice() {
            push_field(alloc, &mut words, field)?;
        }
    }
    for number in FIRST_METHOD..methods {
        push_method(alloc, &mut words, number, image.method(number))?;
        push_targets(alloc, &mut words, image, number, 0)?;
        push_targets(alloc, &mut words, image, number, 65536)?;
    }
    for literal in image.literals().as_slice() {
        let literal = ascii(alloc, literal)?;
        let line = format!(in alloc; "literal {literal}\n")?;
        words.push_str(line.as_str())?;
    }
    Ok(words)
}
