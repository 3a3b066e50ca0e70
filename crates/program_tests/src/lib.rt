//! Tests of whole programs: files of a compiler, run by the top call over memory.
#![tactic(auto)]

#[cfg(test)]
mod classes;
#[cfg(test)]
mod runs;
