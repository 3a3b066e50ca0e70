//! Programs of examples/rows: what each prints, what is reported, and the status. What they print is what
//! `java` prints, where it ends.

use crate::classes::*;
use cjvm_io::{MemShelf, VecSink};
use one_jvm::cjvm;
use std::alloc::Global;
use std::test::Fail;

/// Files with their names, the main class's first; what is printed and reported, and the status.
#[derive(Clone, Copy)]
struct Row<'a> {
    files: &'a [(&'a str, &'a [u8])],
    out: &'a [u8],
    err: &'a [u8],
    status: u8,
}

/// What a call left, and how many steps its order has.
#[derive(Drop)]
struct Left {
    status: u8,
    steps: u64,
    out: Vec<u8>,
    err: Vec<u8>,
}

/// Runs the program of these files, with options before them.
fn run(alloc: Global, options: &[&str], files: &[(&str, &[u8])]) -> Result<Left, Fail> {
    let mut words = Vec::new(alloc);
    words.push(String::from_str(alloc, "run")?)?;
    for option in options {
        words.push(String::from_str(alloc, option)?)?;
    }
    let mut held = Vec::new(alloc);
    for (name, bytes) in files {
        words.push(String::from_str(alloc, name)?)?;
        held.push((
            String::from_str(alloc, name)?,
            Vec::from_slice(alloc, bytes)?,
        ))?;
    }
    let mut shelf = MemShelf::new(held, Vec::new(alloc));
    let mut out = VecSink::new(alloc, 1000, 7, Vec::new(alloc))?;
    let mut err = VecSink::new(alloc, 1000, 5, Vec::new(alloc))?;
    let outcome = cjvm(alloc, words.as_slice(), &mut shelf, &mut out, &mut err);
    Ok(Left {
        status: outcome.status,
        steps: outcome.order.len(),
        out: Vec::from_slice(alloc, out.bytes())?,
        err: Vec::from_slice(alloc, err.bytes())?,
    })
}

#[test]
fn runs_programs(rt: HostRuntime) -> Result<(), Fail> {
    let alloc = rt.alloc();
    let rows: [Row<'_>; 24] = [
        Row {
            files: &[("Edges.class", EDGES.as_slice())],
            out: b"-2147483648\n0\n-56\n",
            err: b"",
            status: 0,
        },
        Row {
            files: &[("Stores.class", STORES.as_slice())],
            out: b"-56\n65533\n-31072\n-128\n65\n32767\n-1\n",
            err: b"",
            status: 0,
        },
        Row {
            files: &[("Divides.class", DIVIDES.as_slice())],
            out: b"",
            err: b"uncaught 0 java/lang/ArithmeticException\n",
            status: 1,
        },
        Row {
            files: &[("Texts.class", TEXTS.as_slice())],
            out: b"n=7\nn=7\n",
            err: b"",
            status: 0,
        },
        Row {
            files: &[("Counts.class", COUNTS.as_slice())],
            out: b"2000\n",
            err: b"",
            status: 0,
        },
        Row {
            files: &[("Adds.class", ADDS.as_slice())],
            out: b"3\n6\n",
            err: b"",
            status: 0,
        },
        Row {
            files: &[("Unowned.class", UNOWNED.as_slice())],
            out: b"",
            err: b"uncaught 0 java/lang/IllegalMonitorStateException\n",
            status: 1,
        },
        Row {
            files: &[("Crossed.class", CROSSED.as_slice())],
            out: b"",
            err: b"cjvm: deadlock\n",
            status: 9,
        },
        Row {
            files: &[
                ("Fails.class", FAILS.as_slice()),
                ("Fails$Bad.class", FAILS_BAD.as_slice()),
            ],
            out: b"1\n2\n",
            err: b"",
            status: 0,
        },
        Row {
            files: &[("Passes.class", PASSES.as_slice())],
            out: b"5050\n",
            err: b"",
            status: 0,
        },
        Row {
            files: &[("Starts63.class", STARTS63.as_slice())],
            out: b"",
            err: b"",
            status: 0,
        },
        Row {
            files: &[("Starts64.class", STARTS64.as_slice())],
            out: b"",
            err: b"cjvm: threads full\n",
            status: 10,
        },
        Row {
            files: &[("Recurses.class", RECURSES.as_slice())],
            out: b"1\n",
            err: b"",
            status: 0,
        },
        Row {
            files: &[("Waits.class", WAITS.as_slice())],
            out: b"",
            err: b"cjvm: deadlock\n",
            status: 9,
        },
        Row {
            files: &[("Sleepers.class", SLEEPERS.as_slice())],
            out: b"",
            err: b"cjvm: deadlock\n",
            status: 9,
        },
        Row {
            files: &[
                ("Needed.class", NEEDED.as_slice()),
                ("Needed$Needs.class", NEEDED_NEEDS.as_slice()),
            ],
            out: b"",
            err: b"cjvm: deadlock\n",
            status: 9,
        },
        Row {
            files: &[("Twice.class", TWICE.as_slice())],
            out: b"1\n2\n",
            err: b"",
            status: 0,
        },
        Row {
            files: &[("Casts.class", CASTS.as_slice())],
            out: b"0 10\n1 11\n2 12\n3 13\n4 14\n5 15\n6 7\n",
            err: b"",
            status: 0,
        },
        Row {
            files: &[("Loops.class", LOOPS.as_slice())],
            out: b"1\n",
            err: b"cjvm: step limit thread 0\n",
            status: 8,
        },
        Row {
            files: &[("Missing.class", MISSING.as_slice())],
            out: b"0\n",
            err: b"uncaught 0 java/lang/ArrayIndexOutOfBoundsException\n",
            status: 1,
        },
        Row {
            files: &[("Remains.class", REMAINS.as_slice())],
            out: b"2\n1\n0\nleft\n",
            err: b"uncaught 0 java/lang/ArithmeticException\n",
            status: 1,
        },
        Row {
            files: &[("Descends.class", DESCENDS.as_slice())],
            out: b"1\n",
            err: b"uncaught 0 java/lang/StackOverflowError\n",
            status: 1,
        },
        Row {
            files: &[("Wraps.class", WRAPS.as_slice())],
            out: b"900\n",
            err: b"uncaught 0 Wraps\n",
            status: 1,
        },
        Row {
            files: &[("Lacks.class", LACKS.as_slice())],
            out: b"1\n",
            err: b"cjvm: want of memory\n",
            status: 20,
        },
    ];
    for row in rows {
        let left = run(alloc, &[], row.files)?;
        assert_eq!(rt; left.status, row.status);
        assert_eq!(rt; left.out.as_slice(), row.out);
        assert_eq!(rt; left.err.as_slice(), row.err);
    }
    Ok(())
}

/// A thread that may take no more steps ends the run in its own turn, though others could go on.
#[test]
fn stops_in_its_turn(rt: HostRuntime) -> Result<(), Fail> {
    let alloc = rt.alloc();
    let files: [(&str, &[u8]); 1] = [("Starts63.class", STARTS63.as_slice())];
    for (limit, steps) in [("40", 40), ("60", 60)] {
        let left = run(alloc, &["--steps", limit], &files)?;
        assert_eq!(rt; left.status, 8);
        assert_eq!(rt; left.steps, steps);
        assert_eq!(rt;
            left.err.as_slice(),
            b"cjvm: step limit thread 0\n".as_slice()
        );
    }
    Ok(())
}
