//! What a report tells of a method without a typing, and the line of accepted files.

ghost use Rattle.std.specs.Prelude.{◌≡◌, ◌+◌, ◌≤◌, ◌++◌, length, slice_get, Some, All, IfOk, OnOk, MatchResult};
ghost use Rattle.std.specs.List.{flat_map};
ghost use Rattle.class_format.specs.Meaning.{IsClass};
ghost use Rattle.one_jvm.specs.Outcomes.{coded_methods, flow_text, accepted_text, method_texts, numbered_text, whole_text};

use crate::link_text::push_whole;
use boot_table::boot_classes;
use class_format::{ClassFile, MethodItem};
use flow_verifier::FlowErr;
use jvm_base::NoMemory;
use std::alloc::Global;

/// The method of a number, counted through the methods of these classes, with its class; where there
/// are no more than so many, the number that it has behind them.
fn method_of(classes: &[ClassFile], number: usize) -> Result<(&ClassFile, &MethodItem), usize>
    ensures { MatchResult result
        (λ r. slice_get (flat_map method_texts classes.now) number ≡ Some (whole_text r.0.now r.1.now))
        (λ rest. number ≡ length (flat_map method_texts classes.now) + rest) }
{
    let mut rest = number;
    for class in classes {
        match class.methods.get(rest) {
            Some(method) => return Ok((class, method)),
            None => rest -= class.methods.len(),
        }
    }
    Err(rest)
}

/// The same through two lists of classes, one behind the other.
fn method_of_both<'a>(
    first: &'a [ClassFile],
    second: &'a [ClassFile],
    number: usize,
) -> Result<(&'a ClassFile, &'a MethodItem), usize>
    ensures { MatchResult result
        (λ r. slice_get (flat_map method_texts (first.now ++ second.now)) number
        ≡ Some (whole_text r.0.now r.1.now))
        (λ rest. number ≡ length (flat_map method_texts (first.now ++ second.now)) + rest) }
{
    match method_of(first, number) {
        Ok(found) => Ok(found),
        Err(rest) => method_of(second, rest),
    }
}

/// Adds the text of the method of a number: those of the boot classes come first.
fn push_numbered(
    alloc: Global,
    bytes: &mut Vec<u8>,
    classes: &[ClassFile],
    number: u32,
) -> Result<(), NoMemory>
    ensures { OnOk result (bytes.new.items ≡ bytes.old.items ++ numbered_text classes.now number) }
{
    let boot = boot_classes(alloc)?;
    match method_of_both(boot.as_slice(), classes, number as usize) {
        Ok((class, method)) => push_whole(alloc, bytes, class, method),
        Err(_) => Ok(()),
    }
}

/// What is told of a method without a typing.
pub(crate) fn flow_text(
    alloc: Global,
    classes: &[ClassFile],
    why: FlowErr,
) -> Result<Vec<u8>, NoMemory>
    ensures { IfOk result (λ v. v.items ≡ flow_text classes.now why) }
{
    let mut bytes = Vec::new(alloc);
    push_numbered(alloc, &mut bytes, classes, why.method)?;
    bytes.extend_from_slice(b" ")?;
    let reason = format!(in alloc; "{why}")?;
    bytes.extend_from_slice(reason.as_bytes())?;
    Ok(bytes)
}

/// How many methods of a class have code.
fn coded_methods(class: &ClassFile) -> usize
    ensures { result ≡ coded_methods class.now }
{
    let methods = class.methods.as_slice();
    methods.iter().filter(|m| m.code.is_some()).count()
}

/// The line that says that class files are accepted.
pub(crate) fn accepted_text(alloc: Global, classes: &[ClassFile]) -> Result<Vec<u8>, NoMemory>
    requires few { length classes.now ≤ 1024 }
    requires formed { All IsClass classes.now }
    ensures { IfOk result (λ v. v.items ≡ accepted_text classes.now) }
{
    let mut methods: u64 = 0;
    for class in classes {
        methods += coded_methods(class) as u64;
    }
    let line = format!(in alloc; "accepted {} classes {methods} methods\n", classes.len())?;
    let mut bytes = Vec::new(alloc);
    bytes.extend_from_slice(line.as_bytes())?;
    Ok(bytes)
}
