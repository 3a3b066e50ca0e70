//! Small programs, run on the one machine by computing.
#![tactic(auto)]

mod boot;
mod calls;
mod initialising;
mod objects;
mod threads;
mod values;

pub use boot::boot_classes_are_the_table;
pub use calls::{calls_run, throwing_runs};
pub use initialising::{failing_runs, statics_run};
pub use objects::{arrays_run, fields_run};
pub use threads::{deadlock_runs, synchronized_runs, waiting_runs};
pub use values::{numbers_run, texts_run};
