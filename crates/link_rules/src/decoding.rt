//! The code of the files' methods.

ghost use Rattle.std.specs.Prelude.{◌≡◌, ◌<◌, ◌^◌, length, map, All, IfOk};
ghost use Rattle.class_names.specs.Classes.{code_of, codes_of};
ghost use Rattle.link_rules.specs.Answers.{IsAnswer};
ghost use Rattle.link_rules.specs.Numbers.{numbered};
ghost use Rattle.link_rules.specs.Decoding.{undecoded, undecoded_file};
ghost use Rattle.link_rules.specs.Sizes.{HasFewMethods};

use crate::error::LinkErr;
use class_format::{ClassFile, MethodItem};
use code_table::{Code, CodeErr, Descs, decode_code_with};
use jvm_base::List;
use std::alloc::Global;

/// The code of a method, by the places of its file and of the method.
fn decode_method(
    alloc: Global,
    class: u32,
    method: u32,
    descs: &Descs<'_>,
    item: &MethodItem,
) -> Result<Option<Code>, LinkErr>
    ensures answer { IsAnswer (undecoded class method descs.now item.now.code) result }
    ensures code { IfOk result (λ code. code ≡ code_of descs.now item.now) }
{
    let Some(code) = &item.code else {
        return Ok(None);
    };
    match decode_code_with(alloc, code, descs) {
        Ok(code) => Ok(Some(code)),
        Err(CodeErr::NoMemory) => Err(LinkErr::NoMemory),
        Err(why) => Err(LinkErr::Code { class, method, why }),
    }
}

/// The code of each method of a file, by the place of the file.
#[tactic(auto, using(crate::proofs::Firsts::numbered_break))]
fn decode_file(alloc: Global, class: u32, file: &ClassFile) -> Result<List<Option<Code>>, LinkErr>
    requires { HasFewMethods file.now }
    ensures answer { IsAnswer (undecoded_file class file.now) result }
    ensures codes { IfOk result (λ codes. codes ≡ codes_of file.now) }
{
    let descs = Descs::of(alloc, &file.pool)?;
    let mut codes = List::new(alloc);
    let mut number = 0;
    let methods = file.methods.as_slice();
    for method in methods {
        codes.push(decode_method(alloc, class, number, &descs, method)?)?;
        number += 1;
    }
    Ok(codes)
}

/// The code of each method of each file.
#[tactic(auto, using(crate::proofs::Firsts::numbered_break))]
pub fn decode_files(alloc: Global, files: &[ClassFile]) -> Result<List<List<Option<Code>>>, LinkErr>
    requires files { length files.now < 2 ^ 32 }
    requires methods { All HasFewMethods files.now }
    ensures answer { IsAnswer (numbered undecoded_file 0 files.now) result }
    ensures codes { IfOk result (λ codes. codes ≡ map codes_of files.now) }
{
    let mut codes = List::new(alloc);
    let mut number = 0;
    for file in files {
        codes.push(decode_file(alloc, number, file)?)?;
        number += 1;
    }
    Ok(codes)
}
