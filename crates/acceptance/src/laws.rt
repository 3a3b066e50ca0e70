//! What linking owes to the verifier, as a law.

ghost use Rattle.acceptance.specs.Linked.{LinkedLaw};

/// The classes of a linked program form one tree, and its methods with code may be verified.
pub fn linked_is_verifiable()
    ensures { LinkedLaw }
{}
