//! From what linking and verifying accept to what runs.

ghost use Rattle.accepted_programs.specs.Kept.{KeptLaw};

/// The typings of an accepted program are frames that instructions, calls and handlers keep to, its
/// classes are of their types, and its numbers lie in range.
pub fn accepted_is_kept()
    ensures { KeptLaw }
{}
