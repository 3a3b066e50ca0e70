//! The lowest rule that is broken.

ghost use Rattle.std.specs.Prelude.{◌≡◌};
ghost use Rattle.instruction_table.specs.LowestRule.{lower};

/// The lower of two rules, where `None` is no rule.
pub fn lower(a: Option<u8>, b: Option<u8>) -> Option<u8>
    ensures { result ≡ lower a b }
{
    match (a, b) {
        (Some(x), Some(y)) => Some(x.min(y)),
        (Some(x), None) => Some(x),
        (None, other) => other,
    }
}
