//! The program `decode_run`: it reads class files and decodes the code of their methods, and prints
//! for each file how much that was. With it bench/decoding.py measures decoding, which the program
//! `cjvm` doesn't do yet.
#![tactic(auto)]

mod counts;

use crate::counts::{Counts, Refused, count_all};
use class_file::{ClassFile, MethodItem, read_class};
use code_table::Descs;
use std::process::ExitCode;
use std::{env, fs, io};

/// Prints a line for a file.
fn show(rt: &HostRuntime, name: &str) -> io::Result<()> {
    let bytes = fs::read(rt, name)?;
    match read_class(rt.alloc(), bytes.as_slice()) {
        Err(error) => println!(rt; "{name}: refused, {error}"),
        Ok(class) => show_code(rt, name, &class),
    }
}

fn show_code(rt: &HostRuntime, name: &str, class: &ClassFile) -> io::Result<()> {
    match Descs::of(rt.alloc(), &class.pool) {
        Err(error) => println!(rt; "{name}: refused, {error}"),
        Ok(descs) => show_counts(rt, name, class.methods.as_slice(), &descs),
    }
}

fn show_counts(
    rt: &HostRuntime,
    name: &str,
    methods: &[MethodItem],
    descs: &Descs<'_>,
) -> io::Result<()> {
    match count_all(rt.alloc(), methods, descs) {
        Err(Refused { method, why }) => println!(rt; "{name}: method {method} refused, {why}"),
        Ok(
            Counts {
                methods,
                instructions,
            },
        ) => println!(rt; "{name}: {methods} methods, {instructions} instructions"),
    }
}

fn show_all(rt: &HostRuntime) -> io::Result<()> {
    for name in env::args(rt)?.skip(1) {
        show(rt, &name)?;
    }
    Ok(())
}

fn main(rt: HostRuntime) -> ExitCode {
    match show_all(&rt) {
        Ok(()) => ExitCode::SUCCESS,
        Err(_) => ExitCode::FAILURE,
    }
}
