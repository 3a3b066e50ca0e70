//! The words of a call: the command, its options and its files.
#![tactic(auto)]

mod builders;
mod number;
mod words;

pub use words::{Command, Words, WordsErr, read_words};
