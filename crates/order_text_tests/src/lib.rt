//! Tests of the text of an order: both sides of each fault, and what is written.
#![tactic(auto)]

#[cfg(test)]
mod reading;
#[cfg(test)]
mod writing;
