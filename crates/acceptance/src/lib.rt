//! Which programs are accepted: they link, and each method with code has a typing.
#![tactic(auto)]

mod accepting;
mod laws;
mod verified;

pub use accepting::{Rejection, accept};
pub use laws::linked_is_verifiable;
pub use verified::verify_all;
