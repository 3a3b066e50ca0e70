//! Rules of linking on what code uses: look-ups, kinds and access.
#![tactic(auto)]

mod access;
mod flags;
mod items;
mod kinds;
mod lookup;
mod missing;
mod owned;
mod text_numbers;
mod told;
mod walk;

pub use access::check_access;
pub use items::{all_items, field_at, method_at};
pub use lookup::{Found, Resolver};
pub use walk::{check_members, check_uses};
