//! Reading a whole file.

ghost use Rattle.cjvm_io.specs.Readings.{ReadsWhole};

use crate::shelf::ShelfErr;
use std::alloc::Global;
use std::io::{ErrorKind, Read};

/// All bytes that a reader has left, where they are at most so many. At most one byte more is read. Is
/// `Failed` where a read fails otherwise than by an interruption, which is tried again, or for want of
/// memory.
pub fn read_whole<R: Read>(alloc: Global, reader: &mut R, limit: u64) -> Result<Vec<u8>, ShelfErr>
    ensures { ReadsWhole (λ v. v.items) (R.remaining reader.old) limit result }
{
    let mut bytes = Vec::new(alloc);
    let most = limit.saturating_add(1);
    match reader.take(most).read_to_end(&mut bytes) {
        Ok(_) if bytes.len() as u64 > limit => Err(ShelfErr::TooLong),
        Ok(_) => Ok(bytes),
        Err(error) if error.kind() == ErrorKind::OutOfMemory => Err(ShelfErr::NoMemory),
        Err(_) => Err(ShelfErr::Failed),
    }
}
