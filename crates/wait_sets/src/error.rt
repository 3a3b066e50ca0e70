//! Why a thread doesn't wait or notify.

ghost use Rattle.std.specs.Prelude.{◌≡◌};
ghost use Rattle.wait_sets.specs.declared.error.WaitErr.TheVariants.{NotOwner as Strange, NoMemory as OutOfMemory};

use cluster_monitor::NotOwner;
use jvm_base::NoMemory;
use thiserror::Error;

/// Why a thread doesn't wait or notify: it doesn't own the monitor, or memory ran out.
#[derive(Clone, Copy, Debug, PartialEq, Eq, Error)]
pub enum WaitErr {
    #[error("not the owner of the monitor")]
    NotOwner,
    #[error("want of memory")]
    NoMemory,
}

impl From<NotOwner> for WaitErr {
    ghost from_gives = { λ _ e. e ≡ Strange };

    fn from(_error: NotOwner) -> WaitErr {
        WaitErr::NotOwner
    }
}

impl From<NoMemory> for WaitErr {
    ghost from_gives = { λ _ e. e ≡ OutOfMemory };

    fn from(_error: NoMemory) -> WaitErr {
        WaitErr::NoMemory
    }
}
