//! A shelf in memory, for tests.

ghost use Rattle.std.specs.Prelude.{◌≡◌, ◌↔◌, Some, None, MatchOption, IsErrOf};
ghost use Rattle.cjvm_io.specs.declared.shelf.ShelfErr.TheVariants as shelf_err;
ghost use Rattle.cjvm_io.specs.Faults.{next_count};
ghost use Rattle.cjvm_io.specs.Shelves.{bytes_under, ShelfAnswers, HasFaultCause, named_bytes};

use crate::shelf::{Shelf, ShelfErr};
use std::alloc::Global;

/// Files in memory. Of two with one name the first counts. It fails at the calls whose numbers, from
/// 1, were given.
#[derive(Drop)]
pub struct MemShelf {
    files: Vec<(String, Vec<u8>)>,
    fails: Vec<u64>,
    calls: u64,
    faults: u64,
}

impl MemShelf {
    /// A shelf with these files, before its first call.
    pub fn new(files: Vec<(String, Vec<u8>)>, fails: Vec<u64>) -> MemShelf
        ensures { result ≡ record { files = files; fails = fails; calls = 0; faults = 0 } }
    {
        MemShelf {
            files,
            fails,
            calls: 0,
            faults: 0,
        }
    }
}

/// The bytes under a name.
fn look<'a>(files: &'a [(String, Vec<u8>)], name: &str) -> Option<&'a Vec<u8>>
    ensures { MatchOption result (bytes_under (named_bytes files.now) name.now ≡ None)
        (λ v. bytes_under (named_bytes files.now) name.now ≡ Some v.now.items) }
{
    let mut rest = files;
    while let Some((file, tail)) = rest.split_first() {
        if file.0.as_str() == name {
            return Some(&file.1);
        }
        rest = tail;
    }
    None
}

impl Shelf for MemShelf {
    ghost use Rattle.cjvm_io.specs.MemForms.{files_of, IsShelfFault, HasFile};

    ghost files = { λ s. Some (files_of s) };

    ghost faults = { λ s. s.faults };

    fn read_file(&mut self, alloc: Global, name: &str, limit: u64) -> Result<Vec<u8>, ShelfErr>
        ensures answer { ShelfAnswers (λ v. v.items) (Some (files_of self.old)) name.now
            limit result }
        ensures files { Some (files_of self.new) ≡ Some (files_of self.old) }
        ensures cause { HasFaultCause self.old.faults self.new.faults result }

        // It fails at the calls that were given, and wants memory only for the bytes of a file.
        ensures failed { IsErrOf result ShelfErr.Failed ↔ IsShelfFault self.old }
        ensures no_memory { IsErrOf result ShelfErr.NoMemory → HasFile self.old name.now limit }
        ensures fails { self.new.fails ≡ self.old.fails }
        ensures calls { self.new.calls ≡ next_count self.old.calls }
    {
        self.calls = self.calls.saturating_add(1);
        if self.fails.contains(&self.calls) {
            self.faults = self.faults.saturating_add(1);
            return Err(ShelfErr::Failed);
        }
        let Some(bytes) = look(self.files.as_slice(), name) else {
            return Err(ShelfErr::NotThere);
        };
        if bytes.len() as u64 > limit {
            return Err(ShelfErr::TooLong);
        }
        match Vec::from_slice(alloc, bytes.as_slice()) {
            Ok(copy) => Ok(copy),
            Err(_) => Err(ShelfErr::NoMemory),
        }
    }
}
