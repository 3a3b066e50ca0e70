//! The methods of all classes, numbered through.

ghost use Rattle.std.specs.Prelude.{◌≡◌, ◌+◌, ◌++◌, ◌<◌, ◌≤◌, ◌^◌, [], length, map, take, reverse, true, IfOk, OnOk, if◌then◌else◌};
ghost use Rattle.std.specs.List.{sum_by};
ghost use Rattle.class_format.specs.Flags.{is_native};
ghost use Rattle.class_names.specs.Classes.{code_of, codes_of};
ghost use Rattle.class_names.specs.Texts.{text_in};
ghost use Rattle.link_image.specs.Kept.Texts.{method_desc_in, AreMethodTexts};
ghost use Rattle.link_image.specs.Methods.{natives, natives_before, body_of, method_info, class_methods, method_infos};

use crate::backs::{backs, method_descs, method_names};
use crate::reversed::reversed;
use crate::texts::{shared_method_descs, shared_names};
use class_format::{ClassFile, MethodItem, NATIVE, has_flag};
use code_table::Code;
use jvm_base::{List, MethodDesc, NoMemory, Units};
use link_rules::Program;
use program_image::{Body, MethodInfo};
use shared_value::Shared;
use std::alloc::Global;

/// What a method does that has this code, before which there are `natives` native ones.
fn body(natives: u32, method: &MethodItem, code: Option<Code>) -> Body
    requires { natives < 256 }
    ensures { result ≡ body_of natives method.now code }
{
    match code {
        Some(code) => Body::Code(code),
        None if has_flag(method.flags, NATIVE) => Body::Intrinsic(natives as u8),
        None => Body::Abstract,
    }
}

/// The method of a name and a descriptor.
fn method_info(
    file: &ClassFile,
    owner: u32,
    natives: u32,
    method: &MethodItem,
    code: Option<Code>,
    name: &Shared<Units>,
    desc: &Shared<MethodDesc>,
) -> Result<MethodInfo, NoMemory>
    requires code { code ≡ code_of file.now.pool method.now }
    requires few { natives < 256 }
    requires name { name.now ≡ text_in file.now.pool method.now.name }
    requires desc { desc.now ≡ method_desc_in file.now.pool method.now.desc }
    ensures { IfOk result (λ info. info ≡ method_info file.now owner natives method.now) }
{
    Ok(MethodInfo {
        owner,
        name: name.share()?,
        desc: desc.share()?,
        flags: method.flags,
        body: body(natives, method, code),
    })
}

/// The names and the descriptors of a class's methods, by place.
#[derive(Drop)]
struct MethodTexts {
    names: List<Shared<Units>>,
    descs: List<Shared<MethodDesc>>,
}

/// Those of a class.
fn method_texts(alloc: Global, file: &ClassFile) -> Result<MethodTexts, NoMemory>
    ensures { IfOk result (λ texts. AreMethodTexts file.now texts) }
{
    let pool = file.pool.as_slice();
    let in_names = method_names(alloc, file.methods.as_slice())?;
    let in_descs = method_descs(alloc, file.methods.as_slice())?;
    let (in_names, in_descs) = (in_names.as_slice(), in_descs.as_slice());
    let back_names = backs(alloc, pool.len(), in_names)?;
    let back_descs = backs(alloc, pool.len(), in_descs)?;
    Ok(MethodTexts {
        names: shared_names(alloc, pool, in_names, back_names.as_slice())?,
        descs: shared_method_descs(alloc, pool, in_descs, back_descs.as_slice())?,
    })
}

/// One more where the method is native.
fn count(natives: u32, method: &MethodItem) -> u32
    requires { natives < 256 }
    ensures { result ≡ (if is_native method.now.flags then natives + 1 else natives) }
{
    if has_flag(method.flags, NATIVE) {
        natives + 1
    } else {
        natives
    }
}

/// Adds the methods of a class that have this code, before which there are `before` native ones. It
/// answers how many there are behind them.
fn add_methods(
    alloc: Global,
    infos: &mut List<MethodInfo>,
    before: u32,
    owner: u32,
    file: &ClassFile,
    codes: List<Option<Code>>,
) -> Result<u32, NoMemory>
    requires codes { codes ≡ codes_of file.now }
    requires few { before + natives file.now.methods < 256 }
    ensures infos { OnOk result (infos.new ≡ infos.old ++ class_methods before owner file.now) }
    ensures after { IfOk result (λ after. after ≡ before + natives file.now.methods) }
{
    let mut natives = before;
    let texts = method_texts(alloc, file)?;
    let (names, descs) = (texts.names.as_slice(), texts.descs.as_slice());
    let mut codes = reversed(alloc, codes)?;
    let methods = file.methods.as_slice();
    for i in 0..methods.len() {
        let (method, name, desc) = (&methods[i], &names[i], &descs[i]);
        let code = match codes.pop() {
            Some(code) => code,
            None => None,
        };
        infos.push(method_info(file, owner, natives, method, code, name, desc)?)?;
        natives = count(natives, method);
    }
    Ok(natives)
}

/// The methods of all classes, which have this code.
pub(crate) fn method_infos(
    alloc: Global,
    program: &Program,
    codes: List<List<Option<Code>>>,
) -> Result<List<MethodInfo>, NoMemory>
    requires codes { codes ≡ map codes_of program.now }
    requires few { sum_by (λ f. natives f.methods) program.now < 256 }
    requires some { length program.now < 2 ^ 15 }
    ensures { IfOk result (λ infos. infos ≡ method_infos program.now) }
{
    let mut infos = List::new(alloc);
    let mut natives = 0;
    let count = codes.len();
    let mut codes = reversed(alloc, codes)?;
    for owner in 0..count {
        let Some(file) = program.class(owner) else {
            continue;
        };
        let Some(code) = codes.pop() else {
            continue;
        };
        natives = add_methods(alloc, &mut infos, natives, owner as u32, file, code)?;
    }
    Ok(infos)
}
