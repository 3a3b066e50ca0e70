//! The instance methods that each class declares, found by name and descriptor.

ghost use Rattle.std.specs.Prelude.{◌≡◌, ℕ, ◌<◌, ◌≤◌, length, slice_get, Some, if◌then◌else◌, None, OnOk, IfOk};
ghost use Rattle.std.specs.List.{All};
ghost use Rattle.std.specs.BTreeMap.{is_at};
ghost use Rattle.hierarchy.specs.Walks.{or_else};
ghost use Rattle.program_image.specs.Selection.{is_instance, methods_of, declared_by};
ghost use Rattle.program_image.specs.Built.Members.{Member, member_cmp, member_at, members_in, AreDeclared, IsMembers, AreMethodsWithin, AreOwnersWithin};
ghost use Rattle.program_image.specs.Built.Signs.{AreSigns};

use crate::info::{ClassInfo, MethodInfo};
use crate::packages::packages;
use class_format::{CLINIT, STATIC, has_flag};
use jvm_base::{List, NoMemory};
use std::alloc::Global;
use std::collections::BTreeMap;

/// Instance methods by their class and by the numbers of their name and descriptor.
type Declared = BTreeMap<(u32, (usize, usize)), u32>;

/// The numbers of methods' names and descriptors, what each class declares, and the numbers of the
/// classes' packages.
#[derive(Drop)]
pub(crate) struct Members {
    pub signs: List<(usize, usize)>,
    pub declared: Declared,
    pub packages: List<usize>,
}

/// Whether a call of the method has a receiver.
fn is_instance(method: &MethodInfo) -> bool
    ensures { result ≡ is_instance method.now }
{
    !(has_flag(method.flags, STATIC) || method.name.get().as_slice() == CLINIT.as_slice())
}

/// Adds a method of a class, where the class has none of its sign yet.
fn add_method(
    declared: &mut Declared,
    class: u32,
    sign: (usize, usize),
    method: u32,
) -> Result<(), NoMemory>
    ensures { OnOk result
        ((key : Member) → member_at declared.new.entries key
        ≡ or_else (member_at declared.old.entries key)
        (if is_at (member_cmp (class, sign)) key then Some method else None)) }
{
    if !declared.contains_key(&(class, sign)) {
        declared.insert((class, sign), method)?;
    }
    Ok(())
}

/// Adds the instance methods that a class declares.
fn add_methods(
    declared: &mut Declared,
    class: u32,
    info: &ClassInfo,
    methods: &[MethodInfo],
    signs: &[(usize, usize)],
) -> Result<(), NoMemory>
    requires within { All (λ m. m < length methods.now) info.now.methods }
    requires signed { length signs.now ≡ length methods.now }
    ensures { OnOk result
        ((key : Member) → member_at declared.new.entries key
        ≡ or_else (member_at declared.old.entries key)
        (members_in methods.now signs.now class key info.now.methods)) }
{
    for m in info.methods.as_slice() {
        if is_instance(&methods[*m as usize]) {
            add_method(declared, class, signs[*m as usize], *m)?;
        }
    }
    Ok(())
}

/// The instance methods that the classes declare.
fn declared(
    alloc: Global,
    classes: &[ClassInfo],
    methods: &[MethodInfo],
    signs: &[(usize, usize)],
) -> Result<Declared, NoMemory>
    requires few { length classes.now ≤ 16777216 }
    requires within { AreMethodsWithin classes.now (length methods.now) }
    requires signed { length signs.now ≡ length methods.now }
    ensures { IfOk result (λ map. AreDeclared classes.now methods.now signs.now map.entries) }
{
    let mut declared = BTreeMap::new(alloc);
    for class in 0..classes.len() {
        add_methods(&mut declared, class as u32, &classes[class], methods, signs)?;
    }
    Ok(declared)
}

impl Members {
    /// What the classes declare, where methods have these signs.
    pub fn new(
        alloc: Global,
        classes: &[ClassInfo],
        methods: &[MethodInfo],
        signs: List<(usize, usize)>,
    ) -> Result<Members, NoMemory>
        requires few { length classes.now ≤ 16777216 }
        requires within { AreMethodsWithin classes.now (length methods.now) }
        requires owned { AreOwnersWithin methods.now (length classes.now) }
        requires signs { AreSigns methods.now signs }
        ensures { IfOk result (λ members. IsMembers classes.now methods.now members) }
    {
        let declared = declared(alloc, classes, methods, signs.as_slice())?;
        let packages = packages(alloc, classes)?;
        Ok(Members {
            signs,
            declared,
            packages,
        })
    }

    /// The instance method of the called one's name and descriptor that a class declares.
    pub fn declared_by(
        &self,
        classes: &[ClassInfo],
        methods: &[MethodInfo],
        called: u32,
        class: u32,
    ) -> Option<u32>
        requires members { IsMembers classes.now methods.now self.now }
        requires called_in { called < length methods.now }
        ensures { result ≡ declared_by classes.now methods.now called class }
    {
        let sign = self.signs.as_slice()[called as usize];
        self.declared.get(&(class, sign)).copied()
    }
}
