//! Tests of decoding. Their rows follow JVMS2 chapter 6, whose numbers of opcodes they write out.
#![tactic(auto)]

#[cfg(test)]
mod fixture;
#[cfg(test)]
mod instructions;
#[cfg(test)]
mod lengths;
#[cfg(test)]
mod listing;
#[cfg(test)]
mod tables;
