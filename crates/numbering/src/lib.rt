//! Numbers for names and the like, in order of first sight.
#![tactic(auto)]

mod numbers;

pub use numbers::Numbers;
