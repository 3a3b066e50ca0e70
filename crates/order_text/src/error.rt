//! Why a text is refused.

ghost use Rattle.std.specs.Prelude.{◌≡◌};
ghost use Rattle.order_text.specs.declared.error.OrderErr.TheVariants.{NoMemory as OutOfMemory};

use jvm_base::NoMemory;
use thiserror::Error;

/// Why no order is read. The line counts from 1: with it the text stops to begin as an order's.
#[derive(Clone, Copy, Debug, PartialEq, Eq, Error)]
pub enum OrderErr {
    /// The text is no order's.
    #[error("bad order at line {line}")]
    BadOrder { line: u64 },
    /// No memory was left.
    #[error("want of memory")]
    NoMemory,
}

impl From<NoMemory> for OrderErr {
    ghost from_gives = { λ _ e. e ≡ OutOfMemory };

    fn from(_error: NoMemory) -> OrderErr {
        OrderErr::NoMemory
    }
}
