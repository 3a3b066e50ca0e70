//! Rows of tables. A row is a program, ` -> ` and what linking it answers: `ok`, or the class that
//! is refused, why, and for what. Code that isn't decoded is told as `code`, the places of its file
//! and of its method, and why. Lines without an arrow are comments.

ghost use Rattle.std.specs.Prelude.{◌↔◌, IsTrue, All};
ghost use Rattle.class_format.specs.Meaning.{IsClass};

use crate::builder::{ascii, program, units};
use crate::{access, classes, members, order, uses};
use class_format::{ClassFile, well_formed};
use class_link::link;
use jvm_base::{List, NoMemory};
use link_rules::LinkErr;
use program_image::Image;
use std::alloc::Global;
use std::test::Fail;

/// A main class, behind the classes of a row.
const MAIN: &str = "Main, method 9 main ([Ljava/lang/String;)V";

/// Whether all of them are class files.
pub(crate) fn are_formed(files: &[ClassFile]) -> bool
    ensures { IsTrue result ↔ All IsClass files.now }
{
    for class in files {
        if !well_formed(class) {
            return false;
        }
    }
    true
}

/// What linking the files answers, with the main class `Main`.
pub(crate) fn linked(alloc: Global, files: &List<ClassFile>) -> Result<Option<Image>, LinkErr> {
    if files.len() > 1024 || !are_formed(files.as_slice()) {
        return Ok(None);
    }
    Ok(Some(link(alloc, files, &units(alloc, "Main")?)?))
}

/// What a refusal tells.
fn told(alloc: Global, refusal: &LinkErr) -> Result<String, NoMemory> {
    match refusal {
        LinkErr::NoMemory => Err(NoMemory),
        LinkErr::Code { class, method, why } => {
            Ok(format!(in alloc; "code {class} {method} {why}")?)
        }
        LinkErr::Bad { why, class, other } => {
            let (class, other) = (ascii(alloc, class)?, ascii(alloc, other)?);
            Ok(format!(in alloc; "{class} {why} {other}")?)
        }
    }
}

/// What linking the files answers, in words.
fn answer(alloc: Global, files: &List<ClassFile>) -> Result<String, NoMemory> {
    match linked(alloc, files) {
        Ok(Some(_image)) => Ok(String::from_str(alloc, "ok")?),
        Ok(None) => Ok(String::from_str(alloc, "no class files")?),
        Err(refusal) => told(alloc, &refusal),
    }
}

/// What linking the program of a text answers, with a main class behind it.
pub(crate) fn answer_of(alloc: Global, given: &str) -> Result<String, NoMemory> {
    let text = format!(in alloc; "{given}|{MAIN}")?;
    answer(alloc, &program(alloc, text.as_str())?)
}

/// The first row of the table that isn't answered as it says, with its answer, where this class
/// stands behind each program.
fn wrong_row(alloc: Global, table: &str, last: &str) -> Result<Option<String>, NoMemory> {
    for row in table.lines() {
        if let Some((given, want)) = row.split_once(" -> ") {
            let text = format!(in alloc; "{given}|{last}")?;
            let got = answer(alloc, &program(alloc, text.as_str())?)?;
            if got.trim() != want {
                return Ok(Some(format!(in alloc; "{row} (got: {got})")?));
            }
        }
    }
    Ok(None)
}

/// The first such row of some tables, where a main class stands behind each program.
fn wrong_link(alloc: Global, tables: &[&str]) -> Result<Option<String>, NoMemory> {
    for table in tables {
        if let Some(row) = wrong_row(alloc, table, MAIN)? {
            return Ok(Some(row));
        }
    }
    Ok(None)
}

#[test]
fn names(rt: HostRuntime) -> Result<(), Fail> {
    let tables = [
        classes::CODE,
        classes::SAME,
        classes::MISSING,
        classes::MISSING_FIRST,
    ];
    assert_eq!(rt; wrong_link(rt.alloc(), &tables)?, None);
    Ok(())
}

#[test]
fn declared(rt: HostRuntime) -> Result<(), Fail> {
    let tables = [
        classes::ABOVE,
        classes::LOOPS,
        members::LEFT_OUT,
        members::KINDS,
    ];
    assert_eq!(rt; wrong_link(rt.alloc(), &tables)?, None);
    Ok(())
}

#[test]
fn overriding(rt: HostRuntime) -> Result<(), Fail> {
    let tables = [members::OVERRIDES, members::MORE_OVERRIDES];
    assert_eq!(rt; wrong_link(rt.alloc(), &tables)?, None);
    Ok(())
}

#[test]
fn look_ups(rt: HostRuntime) -> Result<(), Fail> {
    let tables = [uses::FIELDS, uses::METHODS, uses::FIELD_USES];
    assert_eq!(rt; wrong_link(rt.alloc(), &tables)?, None);
    Ok(())
}

#[test]
fn calls(rt: HostRuntime) -> Result<(), Fail> {
    let tables = [uses::CALLS, uses::MAKES, order::RULES];
    assert_eq!(rt; wrong_link(rt.alloc(), &tables)?, None);
    Ok(())
}

#[test]
fn accessible(rt: HostRuntime) -> Result<(), Fail> {
    let tables = [access::CLASSES, access::MEMBERS, access::FINALS];
    assert_eq!(rt; wrong_link(rt.alloc(), &tables)?, None);
    Ok(())
}

#[test]
fn main_classes(rt: HostRuntime) -> Result<(), Fail> {
    assert_eq!(rt; wrong_row(rt.alloc(), order::MAINS, "Z")?, None);
    let told = wrong_row(rt.alloc(), "A -> ok\n# B\nA, super B -> ok\n", MAIN)?;
    assert!(rt; told.is_some());
    Ok(())
}
