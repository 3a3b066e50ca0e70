//! Why array types aren't numbered.

ghost use Rattle.std.specs.Prelude.{◌≡◌};
ghost use Rattle.link_arrays.specs.declared.error.ArraysErr.TheVariants.{NoMemory as OutOfMemory};

use jvm_base::NoMemory;
use thiserror::Error;

/// Why a program's array types aren't numbered.
#[derive(Clone, Copy, Debug, PartialEq, Eq, Error)]
pub enum ArraysErr {
    /// There are more than 16,777,216 classes, counting those of arrays.
    #[error("too many classes")]
    TooMany,
    /// Memory ran out.
    #[error("want of memory")]
    NoMemory,
}

impl From<NoMemory> for ArraysErr {
    ghost from_gives = { λ _ e. e ≡ OutOfMemory };

    fn from(_error: NoMemory) -> ArraysErr {
        ArraysErr::NoMemory
    }
}
