//! Rules of linking on what lies above a class, and on the members that it declares.
#![tactic(auto)]

mod declarations;
mod declared;
mod loops;
mod near;
mod overrides;
mod package_numbers;
mod packages;
mod row_table;
mod signs;

pub use declared::check_declared;
pub use loops::check_loops;
pub use overrides::check_overrides;
pub use package_numbers::{OwnPackage, Packages, is_near, own_package};
pub use packages::package;
pub use row_table::{Step, rows};
