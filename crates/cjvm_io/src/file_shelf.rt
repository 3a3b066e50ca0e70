//! A shelf over the file system. That a name opens its file is trusted: no clause tells what lies
//! outside the process.

ghost use Rattle.std.specs.Prelude.{◌≡◌, ◌≢◌, ◌↔◌, ◌≤◌, None, IfOk, IfErr, IsErrOf, vec_len};
ghost use Rattle.std.specs.IoError.{error_kind};
ghost use Rattle.cjvm_io.specs.Readings.{ReadsWhole};

use crate::reading::read_whole;
use crate::shelf::{Shelf, ShelfErr};
use std::alloc::Global;
use std::fs;
use std::io::{self, ErrorKind, Read};
use std::rt::Files;

/// The files of a file system, by path.
#[derive(Drop)]
pub struct FileShelf<'a, R> {
    rt: &'a R,
    faults: u64,
}

impl<'a, R> FileShelf<'a, R> {
    /// The files that the runtime reaches.
    pub fn new(rt: &'a R) -> FileShelf<'a, R>
        ensures { result.faults ≡ 0 }
    {
        FileShelf { rt, faults: 0 }
    }
}

/// What was opened under a name, read whole: it isn't there exactly where opening found nothing.
fn read_opened<F: Read + Drop>(
    alloc: Global,
    opened: io::Result<F>,
    limit: u64,
) -> Result<Vec<u8>, ShelfErr>
    ensures bound { IfOk result (λ bytes. vec_len bytes ≤ limit) }
    ensures bytes { IfOk opened (λ file. ReadsWhole (λ v. v.items) (F.remaining file) limit result) }
    ensures not_there { IfErr opened (λ error. IsErrOf result ShelfErr.NotThere
        ↔ (error_kind error ≡ ErrorKind.NotFound)) }
    ensures failed { IfErr opened (λ error. error_kind error ≢ ErrorKind.NotFound
        → IsErrOf result ShelfErr.Failed) }
{
    match opened {
        Ok(mut file) => read_whole(alloc, &mut file, limit),
        Err(error) if error.kind() == ErrorKind::NotFound => Err(ShelfErr::NotThere),
        Err(_) => Err(ShelfErr::Failed),
    }
}

impl<R: Files> Shelf for FileShelf<'_, R> {
    ghost files = { λ _. None };

    ghost faults = { λ s. s.faults };

    fn read_file(&mut self, alloc: Global, name: &str, limit: u64) -> Result<Vec<u8>, ShelfErr> {
        let answer = read_opened(alloc, fs::open(self.rt, name), limit);
        if matches!(answer, Err(ShelfErr::Failed)) {
            self.faults = self.faults.saturating_add(1);
        }
        answer
    }
}
