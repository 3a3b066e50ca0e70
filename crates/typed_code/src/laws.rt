//! Laws of decoded code and of its typing.

ghost use Rattle.typed_code.specs.Decoding.{DecodingLaw};
ghost use Rattle.typed_code.specs.Framing.{FramingLaw};

/// Decoded code has rising addresses, and each instruction is as the pool and its own bytes allow.
pub fn decoded_is_fine()
    ensures { DecodingLaw }
{}

/// Typings of decoded methods are frames that instructions, calls and handlers keep to.
pub fn typings_are_kept()
    ensures { FramingLaw }
{}
