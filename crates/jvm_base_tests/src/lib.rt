//! Tests of texts and descriptors. Their rows follow JVMS2 4.3 and 4.4.7.
#![tactic(auto)]

#[cfg(test)]
mod descriptors;
#[cfg(test)]
mod texts;
