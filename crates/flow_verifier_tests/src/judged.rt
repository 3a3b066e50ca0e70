//! What is found of a program.

ghost use Rattle.std.specs.Prelude.{◌↔◌, ◌≤◌, length, IsTrue, All, IfOk};
ghost use Rattle.class_format.specs.Meaning.{IsClass};
ghost use Rattle.flow_types.specs.Tree.{superclasses, IsTree};
ghost use Rattle.acceptance.specs.Accepted.{AreVerifiable};

use acceptance::verify_all;
use class_format::{ClassFile, well_formed};
use class_link::link;
use flow_verifier::VerifyErr;
use jvm_base::{List, NoMemory, Units};
use link_rules::LinkErr;
use program_image::Image;
use std::alloc::Global;

/// Whether all of them are class files.
pub(crate) fn are_formed(files: &[ClassFile]) -> bool
    ensures { IsTrue result ↔ All IsClass files.now }
{
    for class in files {
        if !well_formed(class) {
            return false;
        }
    }
    true
}

/// The linked program, which may be verified.
pub(crate) fn linked(alloc: Global, files: &List<ClassFile>, main: &Units) -> Result<Image, LinkErr>
    requires few { length files.now ≤ 1024 }
    requires formed { All IsClass files.now }
    ensures tree { IfOk result (λ image. IsTree (superclasses image)) }
    ensures fine { IfOk result (λ image. AreVerifiable image) }
{
    let image = link(alloc, files, main)?;
    Ok(image)
}

/// What is found of the files' program: `ok`, or the first rule that is broken. A method that breaks
/// one is to be the last of all.
pub(crate) fn judge(
    alloc: Global,
    files: &List<ClassFile>,
    main: &Units,
) -> Result<String, NoMemory> {
    if files.len() > 1024 || !are_formed(files.as_slice()) {
        return Ok(String::from_str(alloc, "no class files")?);
    }
    let image = match linked(alloc, files, main) {
        Ok(image) => image,
        Err(error) => return Ok(format!(in alloc; "not linked, {error}")?),
    };
    match verify_all(alloc, &image) {
        Ok(()) => Ok(String::from_str(alloc, "ok")?),
        Err(VerifyErr::NoMemory) => Err(NoMemory),
        Err(VerifyErr::Flow(e)) if image.methods() - 1 == e.method => {
            Ok(format!(in alloc; "{e}")?)
        }
        Err(VerifyErr::Flow(e)) => Ok(format!(in alloc; "method {}: {e}", e.method)?),
    }
}
