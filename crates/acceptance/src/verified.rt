//! Verifying each method of a program.

ghost use Rattle.std.specs.Prelude.{◌+◌, ◌<◌, length};
ghost use Rattle.flow_types.specs.Tree.{superclasses, IsTree};
ghost use Rattle.acceptance.specs.Accepted.{AreTyped, AreJudged, AreVerifiable};

use flow_verifier::{VerifyErr, verify};
use program_image::{Body, Image};
use std::alloc::Global;

/// Verifies the method of a number where those below it have typings.
fn verify_next(alloc: Global, image: &Image, method: u32) -> Result<(), VerifyErr>
    requires tree { IsTree (superclasses image.now) }
    requires fine { AreVerifiable image.now }
    requires inside { method < length image.now.methods }
    requires before { AreTyped image.now method }
    ensures { AreJudged image.now (method + 1) result }
{
    if let Body::Code(_) = image.method(method).body {
        verify(alloc, image, method)?;
    }
    Ok(())
}

/// Verifies all methods with code, in the order of their numbers: those of the boot classes first, then
/// those of the files. Of several methods without a typing the first is told (JVMS2 4.9).
pub fn verify_all(alloc: Global, image: &Image) -> Result<(), VerifyErr>
    requires tree { IsTree (superclasses image.now) }
    requires fine { AreVerifiable image.now }
    ensures { AreJudged image.now (length image.now.methods) result }
{
    for method in 0..image.methods() {
        verify_next(alloc, image, method)?;
    }
    Ok(())
}
