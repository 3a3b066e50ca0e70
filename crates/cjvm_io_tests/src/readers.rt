//! Reading a whole file in pieces.

use cjvm_io::{ShelfErr, read_whole};
use std::io::{self, ErrorKind, Read};
use std::test::Fail;

/// A reader of so many bytes, each 7, in pieces of at most 1,000. Each second read is interrupted, and
/// the read of one number fails.
#[derive(Drop)]
struct Pieces {
    left: usize,
    reads: u32,
    fails: u32,
}

impl Read for Pieces {
    fn read(&mut self, buffer: &mut [u8]) -> io::Result<usize> {
        self.reads = self.reads.saturating_add(1);
        if self.reads == self.fails {
            return Err(io::Error::from(ErrorKind::PermissionDenied));
        }
        if self.reads % 2 == 0 {
            return Err(io::Error::from(ErrorKind::Interrupted));
        }
        let count = buffer.len().min(self.left).min(1000);
        buffer[..count].fill(7);
        self.left -= count;
        Ok(count)
    }
}

/// What reading 20,000 bytes answers, where so many are the limit and this read fails.
fn read_twenty(rt: &HostRuntime, limit: u64, fails: u32) -> Result<Vec<u8>, ShelfErr> {
    let mut reader = Pieces {
        left: 20_000,
        reads: 0,
        fails,
    };
    read_whole(rt.alloc(), &mut reader, limit)
}

#[test]
fn reads_past_interruptions(rt: HostRuntime) -> Result<(), Fail> {
    let bytes = read_twenty(&rt, 20_000, 0)?;
    assert_eq!(rt; bytes.len(), 20_000);
    assert!(rt; bytes.iter().all(|byte| *byte == 7));
    let long = read_twenty(&rt, 19_999, 0);
    assert!(rt; matches!(long, Err(ShelfErr::TooLong)));
    let failed = read_twenty(&rt, 20_000, 5);
    assert!(rt; matches!(failed, Err(ShelfErr::Failed)));
    Ok(())
}
