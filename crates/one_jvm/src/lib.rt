//! The top call: words, files and sinks of the caller, and a status.
#![tactic(auto)]

mod ending;
mod laws;
mod link_text;
mod loading;
mod main_class;
mod outcome;
mod process;
mod replaying;
mod report;
mod running;
mod top;
mod verify_text;
mod words;

pub use laws::verdict_is_one;
pub use outcome::{Outcome, Refusal, Stop};
pub use process::run_process;
pub use top::{cjvm, without_words};
