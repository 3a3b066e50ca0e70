//! The fields of a class and their places.

ghost use Rattle.std.specs.Prelude.{◌≡◌, ◌+◌, ◌<◌, ◌^◌, length, IfOk, if◌then◌else◌};
ghost use Rattle.class_format.specs.Flags.{is_static};
ghost use Rattle.class_names.specs.Texts.{text_in};
ghost use Rattle.link_arrays.specs.Literals.{literal_number};
ghost use Rattle.link_image.specs.Constants.{constant_value};
ghost use Rattle.link_image.specs.Fields.{field_info, field_infos};
ghost use Rattle.link_image.specs.Kept.Texts.{field_desc_in, AreFieldTexts};
ghost use Rattle.link_uses.specs.TextNumbers.{AreOf};

use crate::backs::{backs, field_descs, field_names};
use crate::constants::{Constants, constant, literal_numbers};
use crate::texts::{shared_descs, shared_names};
use class_format::{ClassFile, FieldItem, STATIC, has_flag};
use jvm_base::{Desc, List, NoMemory, Units};
use program_image::FieldInfo;
use shared_value::Shared;
use std::alloc::Global;

/// The names and the types of a class's fields, by place.
#[derive(Drop)]
struct FieldTexts {
    names: List<Shared<Units>>,
    descs: List<Shared<Desc>>,
}

/// The next places of a class's fields.
#[derive(Clone, Copy)]
struct Next {
    instance: u32,
    fixed: u32,
}

/// Gives a field the next place of its kind.
fn take_place(next: &mut Next, field: &FieldItem) -> u32
    requires instance { next.old.instance + 1 < 2 ^ 32 }
    requires fixed { next.old.fixed + 1 < 2 ^ 32 }
    ensures place { result
        ≡ (if is_static field.now.flags then next.old.fixed else next.old.instance) }
    ensures fixed { next.new.fixed
        ≡ (if is_static field.now.flags then next.old.fixed + 1 else next.old.fixed) }
    ensures instance { next.new.instance
        ≡ (if is_static field.now.flags then next.old.instance else next.old.instance + 1) }
{
    if has_flag(field.flags, STATIC) {
        let place = next.fixed;
        next.fixed += 1;
        place
    } else {
        let place = next.instance;
        next.instance += 1;
        place
    }
}

/// The field of a name and a type.
fn field_info(
    constants: &Constants<'_, '_>,
    told: &[Option<usize>],
    file: &ClassFile,
    owner: u32,
    place: u32,
    field: &FieldItem,
    name: &Shared<Units>,
    desc: &Shared<Desc>,
) -> Result<FieldInfo, NoMemory>
    requires room { constants.now.classes + length constants.now.literals.now < 2 ^ 32 }
    requires told { AreOf (literal_number constants.now.literals.now) file.now.pool told.now }
    requires name { name.now ≡ text_in file.now.pool field.now.name }
    requires desc { desc.now ≡ field_desc_in file.now.pool field.now.desc }
    ensures { IfOk result
        (λ info. info ≡ field_info constants.now.classes constants.now.literals.now file.now owner
        place field.now) }
{
    let pool = file.pool.as_slice();
    Ok(FieldInfo {
        owner,
        name: name.share()?,
        desc: desc.share()?,
        flags: field.flags,
        place,
        constant: match field.constant {
            Some(index) => constant(constants, told, pool, index),
            None => None,
        },
    })
}

/// The names and the types of a class's fields.
fn field_texts(alloc: Global, file: &ClassFile) -> Result<FieldTexts, NoMemory>
    ensures { IfOk result (λ texts. AreFieldTexts file.now texts) }
{
    let pool = file.pool.as_slice();
    let in_names = field_names(alloc, file.fields.as_slice())?;
    let in_descs = field_descs(alloc, file.fields.as_slice())?;
    let (in_names, in_descs) = (in_names.as_slice(), in_descs.as_slice());
    let back_names = backs(alloc, pool.len(), in_names)?;
    let back_descs = backs(alloc, pool.len(), in_descs)?;
    Ok(FieldTexts {
        names: shared_names(alloc, pool, in_names, back_names.as_slice())?,
        descs: shared_descs(alloc, pool, in_descs, back_descs.as_slice())?,
    })
}

/// The fields of a class, whose instance fields take places from `base` on.
pub(crate) fn field_infos(
    alloc: Global,
    constants: &Constants<'_, '_>,
    file: &ClassFile,
    owner: u32,
    base: u32,
) -> Result<List<FieldInfo>, NoMemory>
    requires room { constants.now.classes + length constants.now.literals.now < 2 ^ 32 }
    requires places { base + length file.now.fields < 2 ^ 32 }
    ensures { IfOk result
        (λ infos. infos ≡ field_infos constants.now.classes constants.now.literals.now file.now
        owner base) }
{
    let told = literal_numbers(alloc, constants.literals, file.pool.as_slice())?;
    let told = told.as_slice();
    let texts = field_texts(alloc, file)?;
    let (names, descs) = (texts.names.as_slice(), texts.descs.as_slice());
    let mut infos = List::new(alloc);
    let mut next = Next {
        instance: base,
        fixed: 0,
    };
    let fields = file.fields.as_slice();
    for i in 0..fields.len() {
        let (field, name, desc) = (&fields[i], &names[i], &descs[i]);
        let place = take_place(&mut next, field);
        let info = field_info(constants, told, file, owner, place, field, name, desc)?;
        infos.push(info)?;
    }
    Ok(infos)
}
