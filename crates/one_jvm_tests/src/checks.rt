//! Calls that check files: they are accepted, or refused as a run refuses them.

use crate::files::{Fails, NO_FAILS, Small, TAIL, call, file_of, small_file};
use std::test::Fail;

/// On one path to the instruction at 11 the second local is an int, on the other it is null.
const JOINED: Small<'_> = Small {
    name: b"J",
    desc: b"(I)V",
    items: b"",
    count: 0,
    max_stack: 1,
    max_locals: 2,
    // iload_0, ifeq 9, iconst_0, istore_1, goto 11, 9: aconst_null, astore_1, 11: iload_1, pop, return
    code: b"\x1a\x99\x00\x08\x03\x3c\xa7\x00\x05\x01\x4c\x1b\x57\xb1",
};

/// The same without the use of that local.
const UNUSED: Small<'_> = Small {
    name: b"J",
    desc: b"(I)V",
    items: b"",
    count: 0,
    max_stack: 1,
    max_locals: 2,
    code: b"\x1a\x99\x00\x08\x03\x3c\xa7\x00\x05\x01\x4c\xb1",
};

/// A backward jump while an object is on the stack whose constructor wasn't called yet.
const UNINITIALISED: Small<'_> = Small {
    name: b"U",
    desc: b"()V",
    // 10: `<init>`, 11: its name and descriptor, 12: the constructor of Object
    items: b"\x01\x00\x06<init>\x0c\x00\x0a\x00\x09\x0a\x00\x04\x00\x0b",
    count: 3,
    max_stack: 2,
    max_locals: 0,
    // new 4, 3: nop, iconst_0, ifne 3, invokespecial 12, return
    code: b"\xbb\x00\x04\x00\x03\x9a\xff\xfe\xb7\x00\x0c\xb1",
};

#[test]
fn accepts_files(rt: HostRuntime) -> Result<(), Fail> {
    let alloc = rt.alloc();
    let rows: [(&[&str], &[u8]); 4] = [
        (&["check", "A.class"], b"accepted 1 classes 1 methods\n"),
        (
            &["check", "A.class", "B.class"],
            b"accepted 2 classes 2 methods\n",
        ),
        (
            &["check", "--main", "B", "A.class", "B.class"],
            b"accepted 2 classes 2 methods\n",
        ),
        (
            &["check", "A.class", "--main", "A"],
            b"accepted 1 classes 1 methods\n",
        ),
    ];
    for (words, out) in rows {
        let left = call(alloc, words, file_of(alloc, TAIL.as_slice())?, NO_FAILS)?;
        assert_eq!(rt; left.outcome.status, 0);
        assert_eq!(rt; left.outcome.stop, None);
        assert_eq!(rt; left.outcome.order.len(), 0);
        assert_eq!(rt; left.out.as_slice(), out);
        assert_eq!(rt; left.err.len(), 0);
    }
    Ok(())
}

/// A class, and status, output and report of `check` and of `run`.
type Row<'a> = (Small<'a>, (u8, &'a [u8], &'a [u8]), (u8, &'a [u8]));

#[test]
fn verifies_methods(rt: HostRuntime) -> Result<(), Fail> {
    let alloc = rt.alloc();
    let done: (u8, &[u8]) = (0, b"");
    let rows: [Row<'_>; 3] = [
        (
            JOINED,
            (3, b"", b"cjvm: refused J m(I)V rule 6 at 11\n"),
            (3, b"cjvm: refused J m(I)V rule 6 at 11\n"),
        ),
        (UNUSED, (0, b"accepted 1 classes 2 methods\n", b""), done),
        (
            UNINITIALISED,
            (0, b"accepted 1 classes 2 methods\n", b""),
            done,
        ),
    ];
    for (class, (status, out, err), (run_status, run_err)) in rows {
        let file = small_file(alloc, class)?;
        let left = call(alloc, &["check", "A.class"], file.clone()?, NO_FAILS)?;
        assert_eq!(rt; left.outcome.status, status);
        assert_eq!(rt; left.out.as_slice(), out);
        assert_eq!(rt; left.err.as_slice(), err);
        let left = call(alloc, &["run", "A.class"], file, NO_FAILS)?;
        assert_eq!(rt; left.outcome.status, run_status);
        assert_eq!(rt; left.out.len(), 0);
        assert_eq!(rt; left.err.as_slice(), run_err);
    }
    Ok(())
}

#[test]
fn tells_faults_of_output(rt: HostRuntime) -> Result<(), Fail> {
    let alloc = rt.alloc();
    // Output comes in pieces of 3 bytes at most.
    let rows: [(u64, &[u8]); 3] = [(1, b""), (2, b"acc"), (10, b"accepted 1 classes 1 method")];
    for (call_number, out) in rows {
        let fails = Fails {
            shelf: 0,
            out: call_number,
            err: 0,
        };
        let file = file_of(alloc, TAIL.as_slice())?;
        let left = call(alloc, &["check", "A.class"], file, fails)?;
        assert_eq!(rt; left.outcome.status, 6);
        assert_eq!(rt; left.outcome.stop, None);
        assert_eq!(rt; left.out.as_slice(), out);
        assert_eq!(rt; left.err.as_slice(), b"cjvm: write fault\n".as_slice());
    }
    Ok(())
}
