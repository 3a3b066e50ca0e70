//! The names and descriptors of methods as numbers, each text of a class read once.

ghost use Rattle.std.specs.Prelude.{◌≡◌, ◌++◌, ◌∷◌, [], length, map, position, slice_get, option_map, Some, IfOk, IfSome, OnOk};
ghost use Rattle.std.specs.Prelude.{List as Items};
ghost use Rattle.class_format.specs.declared.class.ClassFile.{ClassFile as File};
ghost use Rattle.link_image.specs.Kept.Backs.{AreBacks};
ghost use Rattle.link_image.specs.Kept.Signs.{AreClassBacks, AreMethodBacks};
ghost use Rattle.link_image.specs.Methods.{method_infos};
ghost use Rattle.numbering.specs.Seen.{with_item};
ghost use Rattle.program_image.specs.Built.Signs.{AreSigns};

use crate::backs::{backs, method_descs, method_names};
use class_format::ClassFile;
use jvm_base::{List, NoMemory};
use link_rules::Program;
use numbering::Numbers;
use program_image::MethodInfo;
use std::alloc::Global;
use std::hash::Hash;

/// For methods how many places before each one of the same name stands, and one of the same
/// descriptor.
#[derive(Drop)]
struct Backs {
    names: List<usize>,
    descs: List<usize>,
}

/// Those of a class.
fn class_backs(alloc: Global, file: &ClassFile) -> Result<Backs, NoMemory>
    ensures { IfOk result (λ backs. AreClassBacks file.now backs) }
{
    let (count, methods) = (file.pool.len(), file.methods.as_slice());
    let names = method_names(alloc, methods)?;
    let descs = method_descs(alloc, methods)?;
    Ok(Backs {
        names: backs(alloc, count, names.as_slice())?,
        descs: backs(alloc, count, descs.as_slice())?,
    })
}

/// Adds those of a class behind those of other classes.
fn add_class(alloc: Global, all: &mut Backs, file: &ClassFile) -> Result<(), NoMemory>
    ensures { OnOk result
        ((fs : Items File) → AreMethodBacks fs all.old
        → AreMethodBacks (fs ++ file.now ∷ []) all.new) }
{
    let class = class_backs(alloc, file)?;
    all.names.append(class.names.as_slice())?;
    all.descs.append(class.descs.as_slice())?;
    Ok(())
}

/// Adds those of some classes.
fn add_classes(alloc: Global, all: &mut Backs, files: &[ClassFile]) -> Result<(), NoMemory>
    ensures { OnOk result
        ((fs : Items File) → AreMethodBacks fs all.old → AreMethodBacks (fs ++ files.now) all.new) }
{
    for file in files {
        add_class(alloc, all, file)?;
    }
    Ok(())
}

/// Those of all classes.
fn method_backs(alloc: Global, program: &Program) -> Result<Backs, NoMemory>
    ensures { IfOk result (λ backs. AreMethodBacks program.now backs) }
{
    let (boot, files) = program.parts();
    let mut all = Backs {
        names: List::new(alloc),
        descs: List::new(alloc),
    };
    add_classes(alloc, &mut all, boot)?;
    add_classes(alloc, &mut all, files)?;
    Ok(all)
}

/// The number of an item, which is known if it was seen.
#[tactic(auto, using(crate::proofs::SignLaws::known_item))]
fn number<'a, T: Eq + Hash>(
    numbers: &mut Numbers<'a, T>,
    known: Option<usize>,
    item: &'a T,
) -> Result<usize, NoMemory>
    requires { IfSome known (λ n. position (T.eq item.now) numbers.old ≡ Some n) }
    ensures items { OnOk result (numbers.new ≡ with_item T.eq numbers.old item.now) }
    ensures number { IfOk result (λ n. position (T.eq item.now) numbers.new ≡ Some n) }
{
    match known {
        Some(number) => Ok(number),
        None => numbers.number(item),
    }
}

/// The number of the name of the method at a place, if it has one yet.
fn name_at(signs: &[(usize, usize)], place: usize) -> Option<usize>
    ensures { result ≡ option_map (λ s. s.0) (slice_get signs.now place) }
{
    let (name, _) = *signs.get(place)?;
    Some(name)
}

fn desc_at(signs: &[(usize, usize)], place: usize) -> Option<usize>
    ensures { result ≡ option_map (λ s. s.1) (slice_get signs.now place) }
{
    let (_, desc) = *signs.get(place)?;
    Some(desc)
}

/// For each method the number of its name and that of its descriptor. Two methods have the same
/// numbers exactly where they have one name and one descriptor.
fn signs(
    alloc: Global,
    methods: &[MethodInfo],
    backs: &Backs,
) -> Result<List<(usize, usize)>, NoMemory>
    requires names { AreBacks (map (λ m. m.name) methods.now) backs.now.names }
    requires descs { AreBacks (map (λ m. m.desc) methods.now) backs.now.descs }
    ensures { IfOk result (λ signs. AreSigns methods.now signs) }
{
    let (name_backs, desc_backs) = (backs.names.as_slice(), backs.descs.as_slice());
    let mut names = Numbers::new(alloc);
    let mut descs = Numbers::new(alloc);
    let mut signs = List::new(alloc);
    for place in 0..methods.len() {
        let method = &methods[place];
        let known_name = name_at(signs.as_slice(), place - name_backs[place]);
        let known_desc = desc_at(signs.as_slice(), place - desc_backs[place]);
        let name = number(&mut names, known_name, method.name.get())?;
        let desc = number(&mut descs, known_desc, method.desc.get())?;
        signs.push((name, desc))?;
    }
    Ok(signs)
}

/// The numbers of the names and the descriptors of a program's methods, for which each text of a
/// class is read once.
pub(crate) fn method_signs(
    alloc: Global,
    program: &Program,
    methods: &[MethodInfo],
) -> Result<List<(usize, usize)>, NoMemory>
    requires { methods.now ≡ method_infos program.now }
    ensures { IfOk result (λ signs. AreSigns methods.now signs) }
{
    let backs = method_backs(alloc, program)?;
    signs(alloc, methods, &backs)
}
