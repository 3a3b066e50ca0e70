//! Tests of the instructions that a frame runs by itself: a table for each family, with the edges of
//! its operands. Values of arithmetic are those of `tools/FrameValues.java`, run by `java`.
#![tactic(auto)]

#[cfg(test)]
mod asked;
#[cfg(test)]
mod branches;
#[cfg(test)]
mod code;
#[cfg(test)]
mod frames;
#[cfg(test)]
mod numbers;
#[cfg(test)]
mod operands;
#[cfg(test)]
mod rows;
#[cfg(test)]
mod steps;
#[cfg(test)]
mod words;
