//! Writing in pieces.

use cjvm_io::{Failed, Sink, StreamSink, write_all};
use std::alloc::Global;
use std::io::{self, ErrorKind, Write};
use std::test::Fail;

/// A writer that takes at most 3 bytes at a time. Its first write is interrupted, and from its fifth on it
/// takes nothing.
#[derive(Drop)]
struct Threes {
    bytes: Vec<u8>,
    writes: u32,
}

impl Write for Threes {
    fn write(&mut self, piece: &[u8]) -> io::Result<usize> {
        self.writes = self.writes.saturating_add(1);
        if self.writes == 1 {
            return Err(io::Error::from(ErrorKind::Interrupted));
        }
        if self.writes >= 5 {
            return Ok(0);
        }
        let count = piece.len().min(3);
        self.bytes.extend_from_slice(&piece[..count])?;
        Ok(count)
    }

    fn flush(&mut self) -> io::Result<()> {
        Ok(())
    }
}

/// A sink over such a writer.
fn threes_sink(alloc: Global) -> StreamSink<Threes> {
    StreamSink::new(Threes {
        bytes: Vec::new(alloc),
        writes: 0,
    })
}

#[test]
fn writes_past_interruptions(rt: HostRuntime) -> Result<(), Fail> {
    let mut sink = threes_sink(rt.alloc());
    assert_eq!(rt; sink.write(b"12345"), Ok(3));
    assert_eq!(rt; sink.write(b"45"), Ok(2));
    assert_eq!(rt; sink.write(b""), Ok(0));
    assert_eq!(rt; sink.write(b"6"), Err(Failed));
    assert_eq!(rt; sink.write(b""), Ok(0));

    let mut sink = threes_sink(rt.alloc());
    assert_eq!(rt; write_all(&mut sink, b"123456789"), Ok(()));
    assert_eq!(rt; write_all(&mut sink, b"0"), Err(Failed));
    Ok(())
}
