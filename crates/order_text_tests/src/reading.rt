//! Which texts are an order's, and at which line others stop to be.

use order_text::{OrderErr, read_order};
use std::test::Fail;

/// A text, and how many choices are read of it or the line of its first fault.
const ROWS: [(&[u8], Result<u64, u64>); 64] = [
    // the first line
    (b"", Err(1)),
    (b"\n", Err(1)),
    (b"end\n", Err(1)),
    (b"cjvm-order 1", Err(1)),
    (b"cjvm-order 1\r\nend\n", Err(1)),
    (b"cjvm-order 2\nend\n", Err(1)),
    (b"cjvm-order 1 \nend\n", Err(1)),
    (b" cjvm-order 1\nend\n", Err(1)),
    (b"CJVM-ORDER 1\nend\n", Err(1)),
    (b"\xef\xbb\xbfcjvm-order 1\nend\n", Err(1)),
    // the last line
    (b"cjvm-order 1\n", Err(2)),
    (b"cjvm-order 1\nend\n", Ok(0)),
    (b"cjvm-order 1\nend", Err(2)),
    (b"cjvm-order 1\nen", Err(2)),
    (b"cjvm-order 1\nend\r\n", Err(2)),
    (b"cjvm-order 1\nend \n", Err(2)),
    (b"cjvm-order 1\n end\n", Err(2)),
    (b"cjvm-order 1\nEND\n", Err(2)),
    (b"cjvm-order 1\n\nend\n", Err(2)),
    (b"cjvm-order 1\ncjvm-order 1\nend\n", Err(2)),
    // what follows it
    (b"cjvm-order 1\nend\nend\n", Err(3)),
    (b"cjvm-order 1\nend\nend", Err(3)),
    (b"cjvm-order 1\nend\n\n", Err(3)),
    (b"cjvm-order 1\nend\n ", Err(3)),
    (b"cjvm-order 1\nend\n\0", Err(3)),
    (b"cjvm-order 1\nend\n0 0 0.0.0\n", Err(3)),
    (b"cjvm-order 1\n0 0 0.0.0\nend\nend\n", Err(4)),
    // where lines are missing
    (b"cjvm-order 1\n0 0 0.0.0\n", Err(3)),
    (b"cjvm-order 1\n0 0 0.0.0\nend\n", Ok(1)),
    (b"cjvm-order 1\n0 0 0.0.0", Err(2)),
    (b"cjvm-order 1\n0 0 0.0.0end\n", Err(2)),
    (b"cjvm-order 1\n0 0 0.0.0\n1 2 3.4.5\n", Err(4)),
    (b"cjvm-order 1\n0 0 0.0.0\n1 2 3.4.5\nend\n", Ok(2)),
    (b"cjvm-order 1\n0 0 0.0.0\n1 2 3.4\nend\n", Err(3)),
    // the greatest thread and one more
    (b"cjvm-order 1\n4294967295 0 0.0.0\nend\n", Ok(1)),
    (b"cjvm-order 1\n4294967296 0 0.0.0\nend\n", Err(2)),
    (b"cjvm-order 1\n18446744073709551616 0 0.0.0\nend\n", Err(2)),
    // the greatest pick
    (b"cjvm-order 1\n0 4294967295 0.0.0\nend\n", Ok(1)),
    (b"cjvm-order 1\n0 4294967296 0.0.0\nend\n", Err(2)),
    // the greatest node
    (b"cjvm-order 1\n0 0 255.0.0\nend\n", Ok(1)),
    (b"cjvm-order 1\n0 0 256.0.0\nend\n", Err(2)),
    // the greatest class
    (b"cjvm-order 1\n0 0 0.16777215.0\nend\n", Ok(1)),
    (b"cjvm-order 1\n0 0 0.16777216.0\nend\n", Err(2)),
    // the greatest index
    (b"cjvm-order 1\n0 0 0.0.4294967295\nend\n", Ok(1)),
    (b"cjvm-order 1\n0 0 0.0.4294967296\nend\n", Err(2)),
    // leading zeros, signs, other digits
    (b"cjvm-order 1\n10 20 30.40.50\nend\n", Ok(1)),
    (b"cjvm-order 1\n00 0 0.0.0\nend\n", Err(2)),
    (b"cjvm-order 1\n01 0 0.0.0\nend\n", Err(2)),
    (b"cjvm-order 1\n0 00 0.0.0\nend\n", Err(2)),
    (b"cjvm-order 1\n0 0 00.0.0\nend\n", Err(2)),
    (b"cjvm-order 1\n0 0 0.01.0\nend\n", Err(2)),
    (b"cjvm-order 1\n0 0 0.0.00\nend\n", Err(2)),
    (b"cjvm-order 1\n+1 0 0.0.0\nend\n", Err(2)),
    (b"cjvm-order 1\n-1 0 0.0.0\nend\n", Err(2)),
    (b"cjvm-order 1\na 0 0.0.0\nend\n", Err(2)),
    // numbers that are missing, and what stands between them
    (b"cjvm-order 1\n 0 0.0.0\nend\n", Err(2)),
    (b"cjvm-order 1\n0  0 0.0.0\nend\n", Err(2)),
    (b"cjvm-order 1\n0\t0 0.0.0\nend\n", Err(2)),
    (b"cjvm-order 1\n0 0 0.0.0 \nend\n", Err(2)),
    (b"cjvm-order 1\n0 0 0.0.0\r\nend\n", Err(2)),
    (b"cjvm-order 1\n0 0 0.0\nend\n", Err(2)),
    (b"cjvm-order 1\n0 0 0..0\nend\n", Err(2)),
    (b"cjvm-order 1\n0 0 0.0.0.0\nend\n", Err(2)),
    (b"cjvm-order 1\n0 0 0.0.\nend\n", Err(2)),
];

#[test]
fn tells_each_fault(rt: HostRuntime) -> Result<(), Fail> {
    for (text, wanted) in ROWS {
        let seen = match read_order(rt.alloc(), text) {
            Ok(order) => Ok(order.len()),
            Err(OrderErr::BadOrder { line }) => Err(line),
            Err(OrderErr::NoMemory) => Err(0),
        };
        assert_eq!(rt; seen, wanted);
    }
    Ok(())
}

/// A text with a line of a megabyte behind a choice.
fn long_text(rt: &HostRuntime, byte: u8) -> Result<Vec<u8>, Fail> {
    let mut text = Vec::from_slice(rt.alloc(), b"cjvm-order 1\n0 0 0.0.0\n")?;
    for _ in 0..1_048_576 {
        text.push(byte)?;
    }
    text.extend_from_slice(b"\nend\n")?;
    Ok(text)
}

#[test]
fn refuses_a_long_line(rt: HostRuntime) -> Result<(), Fail> {
    for byte in [b'1', b' ', b'.', b'x'] {
        let text = long_text(&rt, byte)?;
        assert!(rt;
            matches!(
                read_order(rt.alloc(), text.as_slice()),
                Err(OrderErr::BadOrder { line: 3 })
            )
        );
    }
    Ok(())
}
