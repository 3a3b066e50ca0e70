//! The class files of a program, linked and verified.

ghost use Rattle.std.specs.Prelude.{◌≡◌, ◌≤◌, [], length, All};
ghost use Rattle.class_format.specs.Meaning.{IsClass};
ghost use Rattle.class_link.specs.Linked.{linked};
ghost use Rattle.class_link.specs.Refusals.{link_refusals};
ghost use Rattle.acceptance.specs.Accepted.{IsAcceptance, AreJudged};

use crate::verified::verify_all;
use class_format::ClassFile;
use class_link::link;
use flow_verifier::{FlowErr, VerifyErr};
use jvm_base::{List, Units};
use link_rules::LinkErr;
use program_image::Image;
use std::alloc::Global;
use thiserror::Error;

/// Why class files aren't accepted: they aren't linked, or a method has no typing.
#[derive(Debug, Drop, Error)]
pub enum Rejection {
    #[error("{0}")]
    Link(LinkErr),
    #[error("{0}")]
    Flow(FlowErr),
    #[error("want of memory")]
    NoMemory,
}

/// Links class files and verifies their methods. The refusals of linking come before those of the
/// verifier, and of methods without a typing the first is told, boot methods counted first.
pub fn accept(alloc: Global, files: &List<ClassFile>, main: &Units) -> Result<Image, Rejection>
    requires few { length files.now ≤ 1024 }
    requires formed { All IsClass files.now }
    ensures { IsAcceptance files.now main.now result }
{
    let image = match link(alloc, files, main) {
        Ok(image) => image,
        Err(LinkErr::NoMemory) => return Err(Rejection::NoMemory),
        Err(why) => return Err(Rejection::Link(why)),
    };
    match verify_all(alloc, &image) {
        Ok(()) => Ok(image),
        Err(VerifyErr::Flow(why)) => Err(Rejection::Flow(why)),
        Err(VerifyErr::NoMemory) => Err(Rejection::NoMemory),
    }
}
