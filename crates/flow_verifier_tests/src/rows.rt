//! Rows of tables. A row is a method, ` -> ` and what is found of it: `ok`, or the rule that it breaks
//! and where. The method is the last one of the class T. Lines without an arrow are comments.

use crate::builder::{push_classes, units};
use crate::judged::judge;
use jvm_base::{List, NoMemory};
use std::alloc::Global;
use std::test::Fail;

/// The classes before T: A with members, T and C below it, and an interface.
pub(crate) const BEFORE: &str = "\
Main, method 9 main ([Ljava/lang/String;)V 0.1 b1
| I 601, method 401 i ()V
| A, field 1 x I, field 1 a LA;, field 9 o LA;, field 9 r LI;,
    method 1 <init> ()V 1.1 2a invokespecial:java/lang/Object.<init>.()V b1,
    method 1 f ()V 0.1 b1, method 9 s (LA;)V 0.1 b1, method 9 t ([LA;)V 0.1 b1,
    method 9 u ([Ljava/lang/Object;)V 0.1 b1, method 9 v (JI)V 0.3 b1, method 9 w ([LI;)V 0.1 b1,
    method 9 k ()J 2.0 09 ad
| C, super A
| T, super A, field 1 y I,
    method ";

/// What is found of a method of T.
fn found(alloc: Global, method: &str) -> Result<String, NoMemory> {
    let mut text = String::from_str(alloc, BEFORE)?;
    text.push_str(method)?;
    let mut files = List::new(alloc);
    push_classes(alloc, &mut files, text.as_str())?;
    judge(alloc, &files, &units(alloc, "Main")?)
}

/// The first row of the table that isn't answered as it says, with its answer.
pub(crate) fn wrong_row(alloc: Global, table: &str) -> Result<Option<String>, NoMemory> {
    for row in table.lines() {
        if let Some((method, want)) = row.split_once(" -> ") {
            let got = found(alloc, method)?;
            if got.as_str() != want {
                return Ok(Some(format!(in alloc; "{row} (got: {got})")?));
            }
        }
    }
    Ok(None)
}

#[test]
fn wrong_rows_are_told(rt: HostRuntime) -> Result<(), Fail> {
    let table = "9 m ()V 0.0 b1 -> ok\n# b1\n9 m ()V 0.0 57 b1 -> ok\n";
    let told = wrong_row(rt.alloc(), table)?;
    let told = told.as_ref().map(|row| row.as_str());
    let want = "9 m ()V 0.0 57 b1 -> ok (got: rule 3 at 0)";
    assert_eq!(rt; told, Some(want));
    Ok(())
}
