//! The gate that a node passes before each burst.

/// Is passed once at the start of each burst of a node, so that a test can hold a node up. A pass means
/// nothing to a contract.
pub trait Gate: Sync {
    /// Returns where the node may begin its burst of this round.
    fn pass(&self, node: u32, round: u64);
}

/// A gate that holds no node up.
#[derive(Clone, Copy, Debug, PartialEq, Eq)]
pub struct OpenGate;

impl Gate for OpenGate {
    fn pass(&self, _node: u32, _round: u64) {}
}
