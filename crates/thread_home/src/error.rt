//! Why a thread isn't started.

ghost use Rattle.std.specs.Prelude.{◌≡◌};
ghost use Rattle.thread_home.specs.declared.error.StartErr.TheVariants.{NoMemory as OutOfMemory};

use jvm_base::NoMemory;
use thiserror::Error;

/// Why a thread isn't started: as many were made as there may be, the object was started before, or
/// memory ran out.
#[derive(Clone, Copy, Debug, PartialEq, Eq, Error)]
pub enum StartErr {
    #[error("no further thread can be made")]
    ThreadsFull,
    #[error("the thread was started before")]
    StartedBefore,
    #[error("want of memory")]
    NoMemory,
}

impl From<NoMemory> for StartErr {
    ghost from_gives = { λ _ e. e ≡ OutOfMemory };

    fn from(_error: NoMemory) -> StartErr {
        StartErr::NoMemory
    }
}
