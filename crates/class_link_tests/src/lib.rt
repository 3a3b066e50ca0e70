//! Tests of linking, worked out by hand: both sides of the edge of each refusal, which of two
//! refusals comes first, and images number by number.
#![tactic(auto)]

#[cfg(test)]
mod access;
#[cfg(test)]
mod boot;
#[cfg(test)]
mod builder;
#[cfg(test)]
mod classes;
#[cfg(test)]
mod deep;
#[cfg(test)]
mod images;
#[cfg(test)]
mod members;
#[cfg(test)]
mod order;
#[cfg(test)]
mod rows;
#[cfg(test)]
mod shown;
#[cfg(test)]
mod uses;
