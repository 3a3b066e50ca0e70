//! Tests of the verifier, worked out by hand: for each rule methods that break it and their accepted
//! neighbours, which of two rules is told, and joins of all pairs of types.
#![tactic(auto)]

#[cfg(test)]
mod builder;
#[cfg(test)]
mod joins;
#[cfg(test)]
mod judged;
#[cfg(test)]
mod operands;
#[cfg(test)]
mod references;
#[cfg(test)]
mod rows;
