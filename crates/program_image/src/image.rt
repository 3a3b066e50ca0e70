//! The linked program as one value.

ghost use Rattle.std.specs.Prelude.{◌≡◌, ◌<◌, ◌↔◌, [], length, slice_get, Some, IfOk, IsTrue};
ghost use Rattle.program_image.specs.Places.{placed};
ghost use Rattle.program_image.specs.Program.{program, target_of};
ghost use Rattle.program_image.specs.Condition.{IsImage};
ghost use Rattle.program_image.specs.Subclass.{IsSub, is_sub_of};
ghost use Rattle.program_image.specs.Selection.{select_of};
ghost use Rattle.program_image.specs.Handlers.{handler_of};
ghost use Rattle.program_image.specs.Buffers.{is_buffer};
ghost use Rattle.program_image.specs.Built.Signs.{AreSigns};
ghost use Rattle.program_image.specs.Named.{first_named};

use crate::alike::{Alike, named, names};
use crate::ancestry::Ancestry;
use crate::handlers::{Targets, handler, target};
use crate::info::{Body, ClassInfo, MethodInfo, Target};
use crate::members::Members;
use crate::select::{Selected, select};
use crate::signs::signs;
use crate::subclass::is_below;
use jvm_base::{List, NoMemory, Units};
use std::alloc::Global;
use std::collections::BTreeMap;
use std::marker::Model;

/// The number of `java/lang/StringBuffer` among the boot classes.
const STRING_BUFFER: u32 = 3;

/// A linked program. Contracts see it as a `Program`. Only `new` takes memory; it also builds the
/// tables by which the other calls find what they ask for without a search through lists and without
/// a comparison of texts.
#[derive(Drop)]
pub struct Image {
    classes: List<ClassInfo>,
    methods: List<MethodInfo>,
    targets: Targets,
    literals: List<Units>,
    main: u32,
    ancestry: Ancestry,
    members: Members,
    names: Alike,
}

impl Model for Image {
    ghost use Rattle.program_image.specs.Program.{Program, program_code};
    ghost use Rattle.program_image.specs.Built.Image.{program_of, IsBuilt};

    ghost Value = { Program };

    ghost coded = { program_code };

    ghost view = { program_of };

    ghost invariant = { IsBuilt };
}

/// The targets by place.
fn place(alloc: Global, targets: &[(u32, u32, Target)]) -> Result<Targets, NoMemory>
    ensures { IfOk result (λ map. map.entries ≡ placed [] targets.now) }
{
    let mut map = BTreeMap::new(alloc);
    for (method, at, target) in targets {
        map.insert((*method, *at), *target)?;
    }
    Ok(map)
}

impl Image {
    /// The program of these lists. A target is a method, an address and what stands there; the
    /// class of entry i of a method's exception table stands at 65,536 + i.
    pub fn new(
        alloc: Global,
        classes: List<ClassInfo>,
        methods: List<MethodInfo>,
        targets: List<(u32, u32, Target)>,
        literals: List<Units>,
        main: u32,
    ) -> Result<Image, NoMemory>
        requires image { IsImage classes methods targets literals main }
        ensures { IfOk result (λ image. image ≡ program classes methods targets literals main) }
    {
        let signs = signs(alloc, methods.as_slice())?;
        Image::with_signs(alloc, classes, methods, signs, targets, literals, main)
    }

    /// The same program, where the methods' names and descriptors are told apart by these numbers, so
    /// that none of their texts is read.
    pub fn with_signs(
        alloc: Global,
        classes: List<ClassInfo>,
        methods: List<MethodInfo>,
        signs: List<(usize, usize)>,
        targets: List<(u32, u32, Target)>,
        literals: List<Units>,
        main: u32,
    ) -> Result<Image, NoMemory>
        requires image { IsImage classes methods targets literals main }
        requires signs { AreSigns methods signs }
        ensures { IfOk result (λ image. image ≡ program classes methods targets literals main) }
    {
        let ancestry = Ancestry::new(alloc, classes.as_slice())?;
        let members = Members::new(alloc, classes.as_slice(), methods.as_slice(), signs)?;
        let targets = place(alloc, targets.as_slice())?;
        let names = names(alloc, classes.as_slice())?;
        Ok(Image {
            classes,
            methods,
            targets,
            literals,
            main,
            ancestry,
            members,
            names,
        })
    }

    /// How many classes there are.
    pub fn classes(&self) -> u32
        ensures { result ≡ length self.now.classes }
    {
        self.classes.len() as u32
    }

    /// How many methods there are.
    pub fn methods(&self) -> u32
        ensures { result ≡ length self.now.methods }
    {
        self.methods.len() as u32
    }

    /// The contents of String literals, in order of first sight.
    pub fn literals(&self) -> &List<Units>
        ensures { result.now ≡ self.now.literals }
    {
        &self.literals
    }

    /// The number of the main method.
    pub fn main(&self) -> u32
        ensures { result ≡ self.now.main }
    {
        self.main
    }

    /// A class by its number.
    pub fn class(&self, class: u32) -> &ClassInfo
        requires { class < length self.now.classes }
        ensures { slice_get self.now.classes class ≡ Some result.now }
    {
        &self.classes.as_slice()[class as usize]
    }

    /// The first class of a name; `None` exactly where there is none. It compares the name with those
    /// alone that look like it at a glance.
    pub fn named(&self, name: &Units) -> Option<u32>
        ensures { result ≡ first_named self.now.classes name.now }
    {
        named(self.classes.as_slice(), &self.names, name)
    }

    /// A method by its number.
    pub fn method(&self, method: u32) -> &MethodInfo
        requires { method < length self.now.methods }
        ensures { slice_get self.now.methods method ≡ Some result.now }
    {
        &self.methods.as_slice()[method as usize]
    }

    /// What the place at an address of a method names; `None` exactly where nothing was given for
    /// it.
    pub fn target(&self, method: u32, at: u32) -> Option<Target>
        requires { method < length self.now.methods }
        ensures { result ≡ target_of self.now method at }
    {
        target(&self.targets, method, at)
    }

    /// Whether the class `low` is `high` or below it, as an array by its parts.
    pub fn is_sub(&self, low: u32, high: u32) -> bool
        requires low_in { low < length self.now.classes }
        requires high_in { high < length self.now.classes }
        ensures value { result ≡ is_sub_of self.now.classes low high }
        ensures relation { IsTrue result ↔ IsSub self.now.classes low high }
    {
        is_below(self.classes.as_slice(), &self.ancestry, low, high)
    }

    /// What a call of a method runs on a receiver of the class; `interface` says that it is called
    /// as an interface's. A search from a direct superclass begins at that class.
    pub fn select(&self, class: u32, method: u32, interface: bool) -> Selected
        requires class_in { class < length self.now.classes }
        requires method_in { method < length self.now.methods }
        ensures { result ≡ select_of self.now.classes self.now.methods class method interface }
    {
        select(
            self.classes.as_slice(),
            self.methods.as_slice(),
            &self.ancestry,
            &self.members,
            class,
            method,
            interface,
        )
    }

    /// The address of the handler of an exception of the class that is raised at an address of a
    /// method.
    pub fn handler(&self, method: u32, at: u32, class: u32) -> Option<u32>
        requires method_in { method < length self.now.methods }
        requires class_in { class < length self.now.classes }
        ensures { result ≡ handler_of self.now method at class }
    {
        match &self.methods.as_slice()[method as usize].body {
            Body::Code(code) => handler(
                self.classes.as_slice(),
                &self.ancestry,
                &self.targets,
                method,
                at,
                class,
                code.table.as_slice(),
            ),
            _ => None,
        }
    }

    /// Whether the class is a buffer of text.
    pub fn is_buffer(&self, class: u32) -> bool
        requires { class < length self.now.classes }
        ensures { result ≡ is_buffer class }
    {
        class == STRING_BUFFER
    }
}
