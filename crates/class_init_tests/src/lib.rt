//! Tests of how far classes are initialised.
#![tactic(auto)]

#[cfg(test)]
mod rows;
#[cfg(test)]
mod tables;
