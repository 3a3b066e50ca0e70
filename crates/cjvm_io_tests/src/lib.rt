//! Tests of shelves and sinks, over a reader and a writer that interrupt and fail.
#![tactic(auto)]

#[cfg(test)]
mod memory;
#[cfg(test)]
mod readers;
#[cfg(test)]
mod writers;
