//! Tests of class files, worked out by hand from JVMS2 chapter 4: both sides of the edge of each
//! refusal, by the words in which it is reported.
#![tactic(auto)]

#[cfg(test)]
mod classes;
#[cfg(test)]
mod codes;
#[cfg(test)]
mod judged;
#[cfg(test)]
mod members;
#[cfg(test)]
mod pools;
#[cfg(test)]
mod rows;
