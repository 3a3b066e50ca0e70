//! Files by name.

ghost use Rattle.std.specs.Prelude.{◌≡◌, ℕ, Option};
ghost use Rattle.cjvm_io.specs.Shelves.{Files, ShelfAnswers, HasFaultCause};

use std::alloc::Global;
use thiserror::Error;

/// Why a file wasn't read.
#[derive(Clone, Copy, Debug, PartialEq, Eq, Error)]
pub enum ShelfErr {
    /// There is no file of this name.
    #[error("no such file")]
    NotThere,
    /// The file is longer than asked.
    #[error("too long")]
    TooLong,
    /// A fault struck, and was counted.
    #[error("read fault")]
    Failed,
    /// No memory was left for the bytes.
    #[error("want of memory")]
    NoMemory,
}

/// Files that are read whole, by name. A shelf may tell its map from names to bytes; one over a real
/// file system tells nothing.
pub trait Shelf {
    /// The files, where it tells them.
    ghost files: { Self → Option Files };
    /// How many faults struck; the count stays at the last value of a u64.
    ghost faults: { Self → ℕ };

    /// The bytes of a file of at most `limit` bytes.
    fn read_file(&mut self, alloc: Global, name: &str, limit: u64) -> Result<Vec<u8>, ShelfErr>
        ensures answer { ShelfAnswers (λ v. v.items) (files self.old) name.now limit result }
        ensures files { files self.new ≡ files self.old }
        ensures cause { HasFaultCause (faults self.old) (faults self.new) result };
}
