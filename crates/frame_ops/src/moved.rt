//! What an instruction came to, as the code tells it.

use crate::answer::Pure;

/// Control goes on behind the instruction or at an address, or something else comes next.
#[derive(Clone, Copy)]
pub(crate) enum Moved {
    Behind,
    At(u32),
    Elsewhere(Pure),
}
