//! Tests of monitors, and of waiting for them.
#![tactic(auto)]

#[cfg(test)]
mod rows;
#[cfg(test)]
mod tables;
