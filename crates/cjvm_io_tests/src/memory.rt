//! The forms in memory.

use cjvm_io::{Failed, Gate, MemShelf, OpenGate, Shelf, ShelfErr, Sink, VecSink, write_all};
use std::test::Fail;

#[test]
fn reads_by_name(rt: HostRuntime) -> Result<(), Fail> {
    let alloc = rt.alloc();
    let mut files = Vec::new(alloc);
    files.push((
        String::from_str(alloc, "A")?,
        Vec::from_slice(alloc, b"one")?,
    ))?;
    files.push((
        String::from_str(alloc, "A")?,
        Vec::from_slice(alloc, b"two")?,
    ))?;
    let mut shelf = MemShelf::new(files, Vec::from_slice(alloc, &[2])?);
    let bytes = shelf.read_file(alloc, "A", 3)?;
    assert_eq!(rt; bytes.as_slice(), b"one".as_slice());
    let failed = shelf.read_file(alloc, "A", 3);
    assert!(rt; matches!(failed, Err(ShelfErr::Failed)));
    let long = shelf.read_file(alloc, "A", 2);
    assert!(rt; matches!(long, Err(ShelfErr::TooLong)));
    let missing = shelf.read_file(alloc, "B", 3);
    assert!(rt; matches!(missing, Err(ShelfErr::NotThere)));
    Ok(())
}

#[test]
fn takes_what_it_may(rt: HostRuntime) -> Result<(), Fail> {
    let alloc = rt.alloc();
    let mut sink = VecSink::new(alloc, 7, 4, Vec::from_slice(alloc, &[3])?)?;
    assert_eq!(rt; sink.write(b"12345"), Ok(4));
    assert_eq!(rt; sink.write(b"5"), Ok(1));
    assert_eq!(rt; sink.write(b"6"), Err(Failed));
    assert_eq!(rt; write_all(&mut sink, b"678"), Err(Failed));
    assert_eq!(rt; sink.write(b""), Ok(0));
    assert_eq!(rt; sink.bytes(), b"1234567".as_slice());
    OpenGate.pass(0, 0);
    Ok(())
}
