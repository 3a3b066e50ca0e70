//! What a linked program knows of its classes, fields and methods.

use crate::class_name::ClassName;
use code_table::Code;
use jvm_base::{Desc, Elem, List, MethodDesc, Units, Value};
use shared_value::Shared;

/// A field that a class declares. `place` counts from 0, for an instance field behind those of the
/// superclass, for a static one among the statics of its class. `constant` is what a static field
/// holds at first, where its ConstantValue says so (JVMS2 4.7.2).
#[derive(Drop)]
pub struct FieldInfo {
    pub owner: u32,
    pub name: Shared<Units>,
    pub desc: Shared<Desc>,
    pub flags: u16,
    pub place: u32,
    pub constant: Option<Value>,
}

/// What an array class is of: an element type under 1 to 255 dimensions. `part` is the class of
/// what one of its places holds, where that is a reference.
#[derive(Drop)]
pub struct ArrayInfo {
    pub dims: u8,
    pub elem: Shared<Elem>,
    pub part: Option<u32>,
}

/// A class, an interface or an array class. Classes and methods go by number; `fields` and
/// `methods` are its own, as its file orders them. `clinit` is its `<clinit>` of descriptor `()V`.
#[derive(Drop)]
pub struct ClassInfo {
    pub name: ClassName,
    pub flags: u16,
    pub super_class: Option<u32>,
    pub interfaces: List<u32>,
    pub fields: List<FieldInfo>,
    pub methods: List<u32>,
    pub clinit: Option<u32>,
    pub array: Option<ArrayInfo>,
}

/// What a method does: its code, the built-in step of a number, or nothing.
#[derive(Drop)]
pub enum Body {
    Code(Code),
    Intrinsic(u8),
    Abstract,
}

/// A method that a class declares.
#[derive(Drop)]
pub struct MethodInfo {
    pub owner: u32,
    pub name: Shared<Units>,
    pub desc: Shared<MethodDesc>,
    pub flags: u16,
    pub body: Body,
}

/// What an instruction names: a field by the class that declares it and its place (`fixed` for a
/// static one), a method, a class, or the value that `ldc` and its like push.
#[derive(Clone, Copy, Debug, PartialEq, Eq)]
pub enum Target {
    Field { class: u32, place: u32, fixed: bool },
    Method(u32),
    Class(u32),
    Constant(Value),
}
