//! Orders that are shown, and orders that are taken again.

use crate::files::{Fails, Left, NO_FAILS, TAIL, call, call_on, file_of};
use std::alloc::{AllocError, Global};
use std::test::Fail;

/// In place of the code of A: bipush 100, newarray int, pop, return.
const ARRAY: &[u8; 24] =
    b"\x00\x00\x00\x12\x00\x03\x00\x01\x00\x00\x00\x06\x10d\xbc\x0aW\xb1\x00\x00\x00\x00\x00\
    \x00";

/// A step of thread 0 that picks nobody and makes nothing.
const STEP: &[u8] = b"0 0 0.0.0\n";

/// The one that makes the array.
const MAKES: &[u8] = b"0 0 0.36.0\n";

/// A text of these lines, after its first line and before its last one.
fn text_of(alloc: Global, head: &[u8], steps: &[&[u8]], end: &[u8]) -> Result<Vec<u8>, AllocError> {
    let mut text = Vec::from_slice(alloc, head)?;
    for step in steps {
        text.extend_from_slice(step)?;
    }
    text.extend_from_slice(end)?;
    Ok(text)
}

/// The text of an order.
fn order_of(alloc: Global, steps: &[&[u8]]) -> Result<Vec<u8>, AllocError> {
    text_of(alloc, b"cjvm-order 1\n", steps, b"end\n")
}

/// Takes an order again, where the code is this.
fn replay(alloc: Global, text: Vec<u8>, tail: &[u8]) -> Result<Left, Fail> {
    let mut files = Vec::new(alloc);
    files.push((String::from_str(alloc, "order")?, text))?;
    files.push((String::from_str(alloc, "A.class")?, file_of(alloc, tail)?))?;
    call_on(alloc, &["replay", "order", "A.class"], files, NO_FAILS)
}

#[test]
fn shows_orders(rt: HostRuntime) -> Result<(), Fail> {
    let alloc = rt.alloc();
    let rows: [(&[u8], &[&[u8]], &[u8]); 2] = [
        (TAIL.as_slice(), &[STEP; 10], b"5\n"),
        (
            ARRAY.as_slice(),
            &[STEP, STEP, STEP, STEP, MAKES, STEP, STEP, STEP],
            b"",
        ),
    ];
    for (tail, steps, out) in rows {
        let text = order_of(alloc, steps)?;
        let words = ["run", "--show", "order", "A.class"];
        let left = call(alloc, &words, file_of(alloc, tail)?, NO_FAILS)?;
        assert_eq!(rt; left.outcome.status, 0);
        assert_eq!(rt; left.out.as_slice(), out);
        assert_eq!(rt; left.err.as_slice(), text.as_slice());
        let left = replay(alloc, text, tail)?;
        assert_eq!(rt; left.outcome.status, 0);
        assert_eq!(rt; left.outcome.order.len(), 0);
        assert_eq!(rt; left.outcome.stop, None);
        assert_eq!(rt; left.out.as_slice(), out);
        assert_eq!(rt; left.err.len(), 0);
    }
    Ok(())
}

#[test]
fn shows_a_front(rt: HostRuntime) -> Result<(), Fail> {
    let alloc = rt.alloc();
    let fails = Fails {
        shelf: 0,
        out: 0,
        err: 3,
    };
    let words = ["run", "--show", "order", "A.class"];
    let left = call(alloc, &words, file_of(alloc, TAIL.as_slice())?, fails)?;
    assert_eq!(rt; left.outcome.status, 6);
    assert_eq!(rt; left.outcome.order.len(), 10);
    assert_eq!(rt; left.err.as_slice(), b"cjvm-order".as_slice());
    Ok(())
}

#[test]
fn refuses_steps(rt: HostRuntime) -> Result<(), Fail> {
    let alloc = rt.alloc();
    let rows: [(&[&[u8]], &[u8], &[u8], &[u8]); 7] = [
        (&[b"1 0 0.0.0\n"], TAIL.as_slice(), b"", b"1"),
        (&[STEP, b"0 1 0.0.0\n"], TAIL.as_slice(), b"", b"2"),
        (&[STEP, STEP, b"0 0 255.0.0\n"], TAIL.as_slice(), b"", b"3"),
        (
            &[STEP, STEP, STEP, STEP, b"0 0 0.35.0\n"],
            ARRAY.as_slice(),
            b"",
            b"5",
        ),
        (&[STEP; 10], ARRAY.as_slice(), b"", b"5"),
        (
            &[STEP, STEP, STEP, STEP, MAKES, MAKES, STEP, STEP, STEP],
            ARRAY.as_slice(),
            b"",
            b"6",
        ),
        (&[STEP; 11], TAIL.as_slice(), b"5\n", b"11"),
    ];
    for (steps, tail, out, step) in rows {
        let report = text_of(alloc, b"cjvm: step ", &[step], b" not enabled\n")?;
        let left = replay(alloc, order_of(alloc, steps)?, tail)?;
        assert_eq!(rt; left.outcome.status, 12);
        assert_eq!(rt; left.outcome.stop, None);
        assert_eq!(rt; left.out.as_slice(), out);
        assert_eq!(rt; left.err.as_slice(), report.as_slice());
    }
    Ok(())
}

#[test]
fn refuses_orders(rt: HostRuntime) -> Result<(), Fail> {
    let alloc = rt.alloc();
    let rows: [(&[u8], &[&[u8]], &[u8], u8, &[u8], &[u8]); 3] = [
        (
            b"cjvm-order 1\n",
            &[STEP; 9],
            b"end\n",
            13,
            b"5\n",
            b"cjvm: order ended early\n",
        ),
        (
            b"order\n",
            &[STEP; 10],
            b"end\n",
            12,
            b"",
            b"cjvm: bad order line 1\n",
        ),
        (
            b"cjvm-order 1\n",
            &[STEP; 10],
            b"",
            12,
            b"",
            b"cjvm: bad order line 12\n",
        ),
    ];
    for (head, steps, end, status, out, report) in rows {
        let left = replay(alloc, text_of(alloc, head, steps, end)?, TAIL.as_slice())?;
        assert_eq!(rt; left.outcome.status, status);
        assert_eq!(rt; left.outcome.stop, None);
        assert_eq!(rt; left.out.as_slice(), out);
        assert_eq!(rt; left.err.as_slice(), report);
    }
    Ok(())
}

#[test]
fn lacks_orders(rt: HostRuntime) -> Result<(), Fail> {
    let alloc = rt.alloc();
    let file = file_of(alloc, TAIL.as_slice())?;
    let left = call(alloc, &["replay", "order", "A.class"], file, NO_FAILS)?;
    assert_eq!(rt; left.outcome.status, 4);
    assert_eq!(rt; left.err.as_slice(), b"cjvm: no file order\n".as_slice());
    Ok(())
}
