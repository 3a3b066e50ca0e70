//! Why a level isn't pushed.

ghost use Rattle.std.specs.Prelude.{◌≡◌};
ghost use Rattle.thread_stacks.specs.declared.error.StackErr.TheVariants.{NoMemory as OutOfMemory};

use jvm_base::NoMemory;
use thiserror::Error;

/// Why a level isn't pushed: the thread has as many frames as it may have, or memory ran out.
#[derive(Clone, Copy, Debug, PartialEq, Eq, Error)]
pub enum StackErr {
    #[error("too many frames")]
    TooDeep,
    #[error("want of memory")]
    NoMemory,
}

impl From<NoMemory> for StackErr {
    ghost from_gives = { λ _ e. e ≡ OutOfMemory };

    fn from(_error: NoMemory) -> StackErr {
        StackErr::NoMemory
    }
}
