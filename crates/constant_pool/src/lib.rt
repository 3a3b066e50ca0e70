//! What stands at the indices of a constant pool, and whether each index names what it must.
#![tactic(auto)]

mod links;
mod lookup;
mod ranks;
mod text_facts;
mod texts;

pub use links::bad_link;
pub use lookup::{
    class_at, is_class_at, is_text, is_text_at, is_wide, item_at, pair_desc, pair_text, text_at,
    units_at,
};
pub use ranks::fill_ranks;
pub use text_facts::{TextFacts, fill_kinds};
pub use texts::{TextKind, Texts};
