//! From class files that are accepted to orders that have a text.

ghost use Rattle.written_orders.specs.Written.{FewLaw, WrittenLaw};

/// Class files that linking and verifying accept are linked to a program whose numbers of classes
/// have 24 bits.
pub fn accepted_are_few()
    ensures { FewLaw }
{}

/// Each order that such a program can be run in has a text.
pub fn accepted_orders_have_text()
    ensures { WrittenLaw }
{}
