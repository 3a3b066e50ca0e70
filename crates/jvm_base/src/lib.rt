//! Values, names, texts, descriptors, constant pools and frames: the data that every layer shares.
#![tactic(auto)]

mod code_item;
mod desc;
mod desc_text;
mod frame;
mod list;
mod memory;
mod name;
mod operands;
mod pool;
mod text;
mod units;
mod value;

pub use code_item::{CodeItem, TableItem};
pub use desc::{Desc, Elem, MethodDesc};
pub use desc_text::{desc_has_one_spelling, method_has_one_spelling};
pub use frame::{Frame, Level, Levels, Phase};
pub use list::List;
pub use memory::NoMemory;
pub use name::Name;
pub use operands::Operands;
pub use pool::{Pool, PoolItem};
pub use text::text_has_one_spelling;
pub use units::{NameErr, Units};
pub use value::{ObjectBody, Uncaught, Value};
