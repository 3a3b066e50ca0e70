//! Calls with options: arguments, limits on steps, and words that are none's.

use crate::files::{NO_FAILS, TAIL, call, file_of};
use one_jvm::Stop;
use std::test::Fail;

/// The class Echo of the examples: it prints each of its arguments, and then how many characters
/// they have together.
const ECHO: &[u8; 533] =
    b"\xca\xfe\xba\xbe\x00\x00\x00.\x00'\x0a\x00\x02\x00\x03\x07\x00\x04\x0c\x00\x05\x00\x06\
    \x01\x00\x10java/lang/Object\x01\x00\x06<init>\x01\x00\x03()V\x07\x00\x08\x01\x00\x16jav\
    a/lang/StringBuffer\x0a\x00\x07\x00\x03\x09\x00\x0b\x00\x0c\x07\x00\x0d\x0c\x00\x0e\x00\
    \x0f\x01\x00\x10java/lang/System\x01\x00\x03out\x01\x00\x15Ljava/io/PrintStream;\x0a\x00\
    \x11\x00\x12\x07\x00\x13\x0c\x00\x14\x00\x15\x01\x00\x13java/io/PrintStream\x01\x00\x07p\
    rintln\x01\x00\x15(Ljava/lang/String;)V\x0a\x00\x07\x00\x17\x0c\x00\x18\x00\x19\x01\x00\
    \x06append\x01\x00,(Ljava/lang/String;)Ljava/lang/StringBuffer;\x0a\x00\x07\x00\x1b\x0c\
    \x00\x1c\x00\x1d\x01\x00\x06length\x01\x00\x03()I\x0a\x00\x11\x00\x1f\x0c\x00\x14\x00 \
    \x01\x00\x04(I)V\x07\x00\"\x01\x00\x04Echo\x01\x00\x04Code\x01\x00\x04main\x01\x00\x16([\
    Ljava/lang/String;)V\x01\x00\x0dStackMapTable\x00!\x00!\x00\x02\x00\x00\x00\x00\x00\x02\
    \x00\x01\x00\x05\x00\x06\x00\x01\x00#\x00\x00\x00\x11\x00\x01\x00\x01\x00\x00\x00\x05*\
    \xb7\x00\x01\xb1\x00\x00\x00\x00\x00\x09\x00$\x00%\x00\x01\x00#\x00\x00\x00P\x00\x03\x00\
    \x03\x00\x00\x002\xbb\x00\x07Y\xb7\x00\x09L\x03=\x1c*\xbe\xa2\x00\x1a\xb2\x00\x0a*\x1c2\
    \xb6\x00\x10+*\x1c2\xb6\x00\x16W\x84\x02\x01\xa7\xff\xe6\xb2\x00\x0a+\xb6\x00\x1a\xb6\
    \x00\x1e\xb1\x00\x00\x00\x01\x00&\x00\x00\x00\x0c\x00\x02\xfd\x00\x0a\x07\x00\x07\x01\
    \xfa\x00\x1c\x00\x00";

/// In place of the code of A: goto 0.
const LOOP: &[u8; 21] =
    b"\x00\x00\x00\x0f\x00\x03\x00\x01\x00\x00\x00\x03\xa7\x00\x00\x00\x00\x00\x00\x00\x00";

#[test]
fn hands_on_arguments(rt: HostRuntime) -> Result<(), Fail> {
    let alloc = rt.alloc();
    let rows: [(&[&str], &[u8]); 6] = [
        (&["run", "A.class"], b"0\n"),
        (&["run", "--args", "one,two", "A.class"], b"one\ntwo\n6\n"),
        (&["run", "A.class", "--args=one,two"], b"one\ntwo\n6\n"),
        (&["run", "--args", "one", "A.class"], b"one\n3\n"),
        (&["run", "--args=", "A.class"], b"\n0\n"),
        (&["run", "--args", ",a,", "A.class"], b"\na\n\n1\n"),
    ];
    for (words, out) in rows {
        let file = Vec::from_slice(alloc, ECHO.as_slice())?;
        let left = call(alloc, words, file, NO_FAILS)?;
        assert_eq!(rt; left.outcome.status, 0, "words {words:?}");
        assert_eq!(rt; left.out.as_slice(), out);
        assert_eq!(rt; left.err.len(), 0);
    }
    Ok(())
}

#[test]
fn stops_at_the_limit(rt: HostRuntime) -> Result<(), Fail> {
    let alloc = rt.alloc();
    for (steps, count) in [("1", 1), ("10", 10), ("1000", 1000)] {
        let file = file_of(alloc, LOOP.as_slice())?;
        let left = call(alloc, &["run", "--steps", steps, "A.class"], file, NO_FAILS)?;
        assert_eq!(rt; left.outcome.status, 8);
        assert_eq!(rt; left.outcome.stop, Some(Stop::StepLimit { thread: 0 }));
        assert_eq!(rt; left.outcome.order.len(), count);
        assert_eq!(rt; left.out.len(), 0);
        assert_eq!(rt;
            left.err.as_slice(),
            b"cjvm: step limit thread 0\n".as_slice()
        );
    }
    Ok(())
}

/// A.class has ten steps, of which the eighth prints.
#[test]
fn ends_at_the_limit(rt: HostRuntime) -> Result<(), Fail> {
    let alloc = rt.alloc();
    let rows: [(&str, u8, &[u8], &[u8]); 4] = [
        ("10", 0, b"5\n", b""),
        ("9", 8, b"5\n", b"cjvm: step limit thread 0\n"),
        ("8", 8, b"5\n", b"cjvm: step limit thread 0\n"),
        ("7", 8, b"", b"cjvm: step limit thread 0\n"),
    ];
    for (steps, status, out, err) in rows {
        let file = file_of(alloc, TAIL.as_slice())?;
        let left = call(alloc, &["run", "--steps", steps, "A.class"], file, NO_FAILS)?;
        assert_eq!(rt; left.outcome.status, status, "steps {steps}");
        assert_eq!(rt; left.out.as_slice(), out);
        assert_eq!(rt; left.err.as_slice(), err);
    }
    Ok(())
}

#[test]
fn runs_below_the_limit(rt: HostRuntime) -> Result<(), Fail> {
    let alloc = rt.alloc();
    let rows: [&[&str]; 5] = [
        &["run", "--steps", "50000000", "A.class"],
        &["run", "--steps=000000100", "A.class"],
        &[
            "run", "A.class", "--steps", "100", "--main=A", "--args", "a",
        ],
        &["run", "--", "A.class"],
        &["run", "--main", "A", "--", "A.class"],
    ];
    for words in rows {
        let file = file_of(alloc, TAIL.as_slice())?;
        let left = call(alloc, words, file, NO_FAILS)?;
        assert_eq!(rt; left.outcome.status, 0, "words {words:?}");
        assert_eq!(rt; left.out.as_slice(), b"5\n".as_slice());
        assert_eq!(rt; left.err.len(), 0);
    }
    Ok(())
}

#[test]
fn takes_files_behind_dashes(rt: HostRuntime) -> Result<(), Fail> {
    let alloc = rt.alloc();
    let file = file_of(alloc, TAIL.as_slice())?;
    let left = call(alloc, &["run", "--", "--steps"], file, NO_FAILS)?;
    assert_eq!(rt; left.outcome.status, 4);
    assert_eq!(rt; left.err.as_slice(), b"cjvm: no file --steps\n".as_slice());
    Ok(())
}

#[test]
fn refuses_options(rt: HostRuntime) -> Result<(), Fail> {
    let alloc = rt.alloc();
    let rows: [&[&str]; 16] = [
        &["run", "--steps", "5", "--steps", "5", "A.class"],
        &["run", "--args", "a", "A.class", "--args", "b"],
        &["run", "--main=A", "--main=A", "A.class"],
        &["run", "--steps", "0", "A.class"],
        &["run", "--steps", "50000001", "A.class"],
        &["run", "--steps", "0000000001", "A.class"],
        &["run", "--steps", "+5", "A.class"],
        &["run", "--steps", "", "A.class"],
        &["run", "A.class", "--args"],
        &["check", "--args", "a", "A.class"],
        &["check", "--steps", "5", "A.class"],
        &["run", "--help", "A.class"],
        &["run", "--show", "steps", "A.class"],
        &["check", "--show", "order", "A.class"],
        &["replay", "A.class"],
        &["replay", "--steps", "5", "A.class", "A.class"],
    ];
    for words in rows {
        let file = file_of(alloc, TAIL.as_slice())?;
        let left = call(alloc, words, file, NO_FAILS)?;
        assert_eq!(rt; left.outcome.status, 2, "words {words:?}");
        assert_eq!(rt; left.err.as_slice(), b"cjvm: usage\n".as_slice());
        assert_eq!(rt; left.out.len(), 0);
    }
    Ok(())
}
