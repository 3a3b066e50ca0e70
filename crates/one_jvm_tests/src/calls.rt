//! Calls over memory: what they answer, and what the streams hold.

use crate::files::{Fails, NO_FAILS, TAIL, call, changed_file, file_of};
use cjvm_io::VecSink;
use one_jvm::{Stop, without_words};
use std::alloc::{AllocError, Global};
use std::test::Fail;

/// Words, another byte at a place of A.class, and the status and the report.
type Row<'a> = (&'a [&'a str], usize, u8, u8, &'a [u8]);

/// The place and the byte that leave A.class as it is.
const AS_IT_IS: (usize, u8) = (0, 0xca);

#[test]
fn refuses_words_and_files(rt: HostRuntime) -> Result<(), Fail> {
    let alloc = rt.alloc();
    let (at, byte) = AS_IT_IS;
    let rows: [Row<'_>; 18] = [
        (&[], at, byte, 2, b"cjvm: usage\n"),
        (&["run"], at, byte, 2, b"cjvm: usage\n"),
        (&["check"], at, byte, 2, b"cjvm: usage\n"),
        (&["verify", "A.class"], at, byte, 2, b"cjvm: usage\n"),
        (&["Run", "A.class"], at, byte, 2, b"cjvm: usage\n"),
        (&["run", "-x", "A.class"], at, byte, 2, b"cjvm: usage\n"),
        (&["run", "--main"], at, byte, 2, b"cjvm: usage\n"),
        (&["run", "--main", "A"], at, byte, 2, b"cjvm: usage\n"),
        (
            &["run", "A.class", "--main", "-A"],
            at,
            byte,
            2,
            b"cjvm: usage\n",
        ),
        (
            &["run", "--main", "A", "--main", "A", "A.class"],
            at,
            byte,
            2,
            b"cjvm: usage\n",
        ),
        (&["run", "-"], at, byte, 4, b"cjvm: no file -\n"),
        (&["run", ""], at, byte, 4, b"cjvm: no file \n"),
        (
            &["run", "A.class", "X.class"],
            at,
            byte,
            4,
            b"cjvm: no file X.class\n",
        ),
        (
            &["run", "A.class", "A.class"],
            at,
            byte,
            3,
            b"cjvm: refused A link same-class A\n",
        ),
        (
            &["run", "--main", "Q", "A.class"],
            at,
            byte,
            3,
            b"cjvm: refused Q link no-main main\n",
        ),
        (
            &["run", "B.class", "--main", "q.Q"],
            at,
            byte,
            3,
            b"cjvm: refused q/Q link no-main main\n",
        ),
        (
            &["run", "--main", "\u{dc}", "A.class"],
            at,
            byte,
            3,
            b"cjvm: refused \xc3\x9c link no-main main\n",
        ),
        (
            &["run", "B.class", "A.class"],
            7,
            0x31,
            3,
            b"cjvm: refused A.class version 49.0\n",
        ),
    ];
    for (words, at, byte, status, report) in rows {
        let file = changed_file(alloc, at, byte)?;
        let left = call(alloc, words, file, NO_FAILS)?;
        assert_eq!(rt; left.outcome.status, status, "words {words:?}");
        assert_eq!(rt; left.err.as_slice(), report);
        assert_eq!(rt; left.out.len(), 0);
    }
    Ok(())
}

#[test]
fn refuses_changed_bytes(rt: HostRuntime) -> Result<(), Fail> {
    let alloc = rt.alloc();
    let rows: [(usize, u8, &[u8]); 17] = [
        (0, 0, b"cjvm: refused A.class magic\n"),
        (10, 2, b"cjvm: refused A.class pool tag 1\n"),
        (13, 0, b"cjvm: refused A.class pool text 1\n"),
        (16, 2, b"cjvm: refused A.class pool link 2\n"),
        (193, 0x23, b"cjvm: refused A.class flags 192\n"),
        (195, 1, b"cjvm: refused A.class item link 194\n"),
        (197, 2, b"cjvm: refused A link super-loop A\n"),
        (197, 0, b"cjvm: refused A link wrong-kind\n"),
        (
            192,
            2,
            b"cjvm: refused A link wrong-kind main([Ljava/lang/String;)V\n",
        ),
        (
            221,
            0,
            b"cjvm: refused A main([Ljava/lang/String;)V rule 5 at 0\n",
        ),
        (213, 5, b"cjvm: refused A.class code count 0\n"),
        (217, 0x15, b"cjvm: refused A.class attribute length 214\n"),
        (225, 0, b"cjvm: refused A.class code length 0\n"),
        (
            231,
            0xca,
            b"cjvm: refused A main([Ljava/lang/String;)V code unknown-op 5\n",
        ),
        (
            231,
            0x62,
            b"cjvm: refused A main([Ljava/lang/String;)V code left-out-op 5\n",
        ),
        (
            228,
            19,
            b"cjvm: refused A main([Ljava/lang/String;)V code bad-index 0\n",
        ),
        (241, 1, b"cjvm: refused A.class cut 242\n"),
    ];
    for (at, byte, report) in rows {
        let file = changed_file(alloc, at, byte)?;
        for command in ["run", "check"] {
            let left = call(alloc, &[command, "A.class"], file.clone()?, NO_FAILS)?;
            assert_eq!(rt; left.outcome.status, 3);
            assert_eq!(rt; left.err.as_slice(), report);
            assert_eq!(rt; left.out.len(), 0);
        }
    }
    Ok(())
}

#[test]
fn runs_the_first_file(rt: HostRuntime) -> Result<(), Fail> {
    let alloc = rt.alloc();
    // The byte at 231 is the arithmetic: isub in place of iadd.
    let rows: [(&[&str], u8, &[u8]); 4] = [
        (&["run", "A.class"], 0x60, b"5\n"),
        (&["run", "A.class"], 0x64, b"-1\n"),
        (&["run", "--main", "A", "A.class"], 0x60, b"5\n"),
        (&["run", "A.class", "--main", "A"], 0x60, b"5\n"),
    ];
    for (words, byte, out) in rows {
        let file = changed_file(alloc, 231, byte)?;
        let left = call(alloc, words, file, NO_FAILS)?;
        assert_eq!(rt; left.outcome.status, 0);
        assert_eq!(rt; left.outcome.order.len(), 10);
        assert_eq!(rt; left.out.as_slice(), out);
        assert_eq!(rt; left.err.len(), 0);
    }
    Ok(())
}

#[test]
fn tells_what_nothing_caught(rt: HostRuntime) -> Result<(), Fail> {
    let alloc = rt.alloc();
    // iconst_0 and idiv in place of iconst_3 and iadd
    let divides = b"\x00\x00\x00\x16\x00\x03\x00\x01\x00\x00\x00\x0a\xb2\x00\x0d\x05\x03l\xb6\
    \x00\x13\xb1\x00\x00\x00\x00\x00\x00";
    let rows: [(u64, u8, &[u8]); 2] = [
        (0, 1, b"uncaught 0 java/lang/ArithmeticException\n"),
        (3, 6, b"uncaught 0"),
    ];
    for (err, status, report) in rows {
        let fails = Fails {
            shelf: 0,
            out: 0,
            err,
        };
        let file = file_of(alloc, divides.as_slice())?;
        let left = call(alloc, &["run", "A.class"], file, fails)?;
        assert_eq!(rt; left.outcome.status, status);
        assert_eq!(rt; left.outcome.stop, Some(Stop::Uncaught));
        assert_eq!(rt; left.out.len(), 0);
        assert_eq!(rt; left.err.as_slice(), report);
    }
    Ok(())
}

#[test]
fn refuses_long_files(rt: HostRuntime) -> Result<(), Fail> {
    let alloc = rt.alloc();
    let rows: [(usize, u8, &[u8]); 2] = [
        (1_048_577, 11, b"cjvm: file too long A.class\n"),
        (1_048_576, 3, b"cjvm: refused A.class magic\n"),
    ];
    for (len, status, report) in rows {
        let zeros = vec![in alloc; 0u8; len]?;
        let left = call(alloc, &["run", "A.class"], zeros, NO_FAILS)?;
        assert_eq!(rt; left.outcome.status, status);
        assert_eq!(rt; left.err.as_slice(), report);
    }
    Ok(())
}

#[test]
fn takes_1024_files(rt: HostRuntime) -> Result<(), Fail> {
    let alloc = rt.alloc();
    let rows: [(usize, u8, &[u8]); 2] = [
        (1024, 3, b"cjvm: refused A link same-class A\n"),
        (1025, 2, b"cjvm: usage\n"),
    ];
    for (count, status, report) in rows {
        let mut words = Vec::new(alloc);
        words.push("run")?;
        for _ in 0..count {
            words.push("A.class")?;
        }
        let file = file_of(alloc, TAIL.as_slice())?;
        let left = call(alloc, words.as_slice(), file, NO_FAILS)?;
        assert_eq!(rt; left.outcome.status, status);
        assert_eq!(rt; left.err.as_slice(), report);
    }
    Ok(())
}

/// The first bytes of A.class.
fn cut_file(alloc: Global, len: usize) -> Result<Vec<u8>, AllocError> {
    let mut file = file_of(alloc, TAIL.as_slice())?;
    file.truncate(len);
    Ok(file)
}

#[test]
fn refuses_cuts(rt: HostRuntime) -> Result<(), Fail> {
    let alloc = rt.alloc();
    for len in 0..242u32 {
        let file = cut_file(alloc, len as usize)?;
        let left = call(alloc, &["run", "A.class"], file, NO_FAILS)?;
        let report = format!(in alloc; "cjvm: refused A.class cut {len}\n")?;
        assert_eq!(rt; left.outcome.status, 3);
        assert_eq!(rt; left.err.as_slice(), report.as_bytes());
    }
    let mut longer = file_of(alloc, TAIL.as_slice())?;
    longer.push(0)?;
    let left = call(alloc, &["run", "A.class"], longer, NO_FAILS)?;
    assert_eq!(rt;
        left.err.as_slice(),
        b"cjvm: refused A.class extra 242\n".as_slice()
    );
    Ok(())
}

#[test]
fn tells_faults(rt: HostRuntime) -> Result<(), Fail> {
    let alloc = rt.alloc();
    // Output comes in pieces of 3 bytes at most, reports in pieces of 5.
    let faults: [(Fails, u8, &[u8], &[u8]); 4] = [
        (
            Fails {
                shelf: 1,
                out: 0,
                err: 0,
            },
            5,
            b"",
            b"cjvm: read fault A.class\n",
        ),
        (
            Fails {
                shelf: 0,
                out: 1,
                err: 0,
            },
            6,
            b"",
            b"cjvm: write fault\n",
        ),
        (
            Fails {
                shelf: 1,
                out: 0,
                err: 1,
            },
            6,
            b"",
            b"",
        ),
        (
            Fails {
                shelf: 0,
                out: 1,
                err: 3,
            },
            6,
            b"",
            b"cjvm: writ",
        ),
    ];
    for (fails, status, out, err) in faults {
        let file = file_of(alloc, TAIL.as_slice())?;
        let left = call(alloc, &["run", "A.class"], file, fails)?;
        assert_eq!(rt; left.outcome.status, status);
        assert_eq!(rt; left.out.as_slice(), out);
        assert_eq!(rt; left.err.as_slice(), err);
    }
    Ok(())
}

#[test]
fn reports_want_of_memory_for_words(rt: HostRuntime) -> Result<(), Fail> {
    let alloc = rt.alloc();
    let mut err = VecSink::new(alloc, 100, 100, Vec::new(alloc))?;
    let outcome = without_words(alloc, &mut err);
    assert_eq!(rt; outcome.status, 20);
    assert_eq!(rt; err.bytes(), b"cjvm: want of memory\n".as_slice());
    Ok(())
}

/// A file whose code has 65,535 bytes: it adds 1 as often as fits, and prints the sum.
fn longest_file(alloc: Global) -> Result<Vec<u8>, AllocError> {
    let mut file = file_of(alloc, &[0, 1, 0, 11, 0, 3, 0, 1, 0, 0, 0xff, 0xff])?;
    file.extend_from_slice(&[0xb2, 0, 0x0d, 16, 0])?;
    for _ in 0..32763 {
        file.extend_from_slice(&[4, 0x60])?;
    }
    file.extend_from_slice(&[0xb6, 0, 0x13, 0xb1, 0, 0, 0, 0, 0, 0])?;
    Ok(file)
}

#[test]
fn runs_the_longest_code(rt: HostRuntime) -> Result<(), Fail> {
    let alloc = rt.alloc();
    let left = call(alloc, &["run", "A.class"], longest_file(alloc)?, NO_FAILS)?;
    assert_eq!(rt; left.outcome.status, 0);
    assert_eq!(rt; left.outcome.order.len(), 65534);
    assert_eq!(rt; left.out.as_slice(), b"32763\n".as_slice());

    // Output in pieces of 3 bytes: its second write fails.
    let second = Fails {
        shelf: 0,
        out: 2,
        err: 0,
    };
    let left = call(alloc, &["run", "A.class"], longest_file(alloc)?, second)?;
    assert_eq!(rt; left.outcome.status, 6);
    assert_eq!(rt; left.outcome.stop, Some(Stop::WriteFault));
    assert_eq!(rt; left.out.as_slice(), b"327".as_slice());
    Ok(())
}
