//! A method as the verifier sees it.

ghost use Rattle.std.specs.Prelude.{◌≡◌, ◌<◌, ◌^◌, ◌++◌, ◌+◌, length, map, nat_lt, not, ◌&&◌, slice_get, IfOk, OnOk, Some};
ghost use Rattle.program_image.specs.Program.{target_of};
ghost use Rattle.program_image.specs.Handlers.{code_of};
ghost use Rattle.instruction_table.specs.ClassTypes.{desc_type, args_of};
ghost use Rattle.flow_verifier.specs.Methods.{ops_of, Rises, place_of, begins_fresh, receiver, with_half, spread, parameters, fitted, class_caught, handler_class, handlers_from, method_with, IsMethod};

use code_table::{Code, Placed};
use flow_types::FlowType;
use instruction_table::{THROWABLE, desc_type, is_initialiser, is_static, owner_of, plain};
use jvm_base::{Desc, List, NoMemory, TableItem};
use program_image::{Body, Image, Target};
use shared_types::Types;
use std::alloc::Global;

/// An entry of an exception table: the range of addresses, the place of the handler, and the class
/// of what it takes.
#[derive(Clone, Copy)]
pub struct Handler {
    pub start: u32,
    pub until: u32,
    pub to: u32,
    pub class: u32,
}

/// A way from an instruction to the one at a place, or to a handler of a class.
#[derive(Clone, Copy)]
pub enum Edge {
    Next(u32),
    Caught { to: u32, class: u32 },
}

/// A method that is verified: its number in the image, and what holds of all its instructions.
/// `entry` has the types of the locals, `fresh` says that the receiver is uninitialised, and
/// `crowded` that the parameters take more locals than there are.
#[derive(Drop)]
pub struct Method {
    pub number: u32,
    pub max_stack: u32,
    pub entry: Types,
    pub fresh: bool,
    pub crowded: bool,
    pub handlers: List<Handler>,
}

/// The instructions of a method.
pub(crate) fn ops_of(image: &Image, number: u32) -> &[Placed]
    requires { number < length image.now.methods }
    ensures { result.now ≡ ops_of image.now number }
{
    match &image.method(number).body {
        Body::Code(code) => code.ops.as_slice(),
        _ => &[],
    }
}

/// The address of the instruction at a place.
pub(crate) fn address_of(image: &Image, m: &Method, place: usize) -> u32
    requires within { m.now.number < length image.now.methods }
    requires place { place < length (ops_of image.now m.now.number) }
    ensures { (o : Placed) → slice_get (ops_of image.now m.now.number) place ≡ Some o → result
        ≡ o.at }
{
    ops_of(image, m.number)[place].at
}

/// The place of the instruction at an address.
pub(crate) fn place_of(ops: &[Placed], at: u32) -> u32
    requires few { length ops.now < 2 ^ 32 }
    requires rising { Rises ops.now }
    ensures { result ≡ place_of ops.now at }
{
    ops.partition_point(|placed| placed.at < at) as u32
}

fn begins_fresh(image: &Image, number: u32) -> bool
    ensures { result ≡ begins_fresh image.now number }
{
    is_initialiser(image, number) && owner_of(image, number) != 0
}

/// Adds a parameter in its locals.
fn push_parameter(locals: &mut List<FlowType>, t: FlowType) -> Result<(), NoMemory>
    ensures { OnOk result (locals.new ≡ locals.old ++ with_half t) }
{
    locals.push(t)?;
    if let FlowType::Long = t {
        locals.push(FlowType::High)?;
    }
    Ok(())
}

fn push_parameters(
    locals: &mut List<FlowType>,
    image: &Image,
    args: &[Desc],
) -> Result<(), NoMemory>
    ensures { OnOk result (locals.new ≡ locals.old ++ spread (map (desc_type image.now) args.now)) }
{
    for i in 0..args.len() {
        push_parameter(locals, desc_type(image, &args[i]))?;
    }
    Ok(())
}

/// The receiver and the parameters, in their locals.
fn parameters(alloc: Global, image: &Image, number: u32) -> Result<List<FlowType>, NoMemory>
    requires { number < length image.now.methods }
    ensures { IfOk result (λ ts. ts ≡ parameters image.now number) }
{
    let mut locals = List::new(alloc);
    if !is_static(image, number) {
        if begins_fresh(image, number) {
            locals.push(FlowType::FreshThis)?;
        } else {
            locals.push(FlowType::Class(plain(image, owner_of(image, number))))?;
        }
    }
    push_parameters(
        &mut locals,
        image,
        image.method(number).desc.get().args.as_slice(),
    )?;
    Ok(locals)
}

/// So many locals, where what lies past them is left out. Those that no parameter takes cost no
/// time.
#[tactic(auto, using(crate::proofs::Fitting::all_fitted, crate::proofs::Fitting::first_fitted, crate::proofs::Fitting::length_fitted))]
fn fitted(alloc: Global, count: u32, types: &[FlowType]) -> Result<Types, NoMemory>
    ensures { IfOk result (λ ts. ts ≡ fitted count types.now) }
{
    let mut locals = Types::unusable(count as usize);
    for i in 0..types.len().min(count as usize) {
        locals.set(alloc, i, types[i])?;
    }
    Ok(locals)
}

fn class_caught(image: &Image, target: Option<Target>) -> u32
    ensures { result ≡ class_caught image.now target }
{
    match target {
        Some(Target::Class(class)) => plain(image, class),
        _ => 0,
    }
}

/// The class of what an entry of a method's table takes.
fn handler_class(image: &Image, number: u32, i: usize, entry: &TableItem) -> u32
    requires within { number < length image.now.methods }
    requires small { i < 65536 }
    ensures { result ≡ handler_class image.now number i entry.now }
{
    if entry.class == 0 {
        THROWABLE
    } else {
        class_caught(image, image.target(number, 65536 + i as u32))
    }
}

fn handlers(
    alloc: Global,
    image: &Image,
    number: u32,
    code: &Code,
) -> Result<List<Handler>, NoMemory>
    requires within { number < length image.now.methods }
    requires small { length code.now.table < 65536 }
    requires few { length code.now.ops < 2 ^ 32 }
    requires rising { Rises code.now.ops }
    ensures { IfOk result (λ hs. hs
        ≡ handlers_from image.now number code.now.ops 0 code.now.table) }
{
    let mut handlers = List::new(alloc);
    let table = code.table.as_slice();
    for i in 0..table.len() {
        let entry = &table[i];
        handlers.push(Handler {
            start: entry.start as u32,
            until: entry.end as u32,
            to: place_of(code.ops.as_slice(), entry.handler as u32),
            class: handler_class(image, number, i, entry),
        })?;
    }
    Ok(handlers)
}

/// What the verifier knows of a method with code.
pub(crate) fn method_with(
    alloc: Global,
    image: &Image,
    number: u32,
    code: &Code,
) -> Result<Method, NoMemory>
    requires within { number < length image.now.methods }
    requires small { length code.now.table < 65536 }
    requires few { length code.now.ops < 2 ^ 32 }
    requires rising { Rises code.now.ops }
    ensures { IfOk result (λ m. m ≡ method_with image.now number code.now) }
{
    let types = parameters(alloc, image, number)?;
    Ok(Method {
        number,
        max_stack: code.max_stack,
        entry: fitted(alloc, code.max_locals, types.as_slice())?,
        fresh: !is_static(image, number) && begins_fresh(image, number),
        crowded: (code.max_locals as usize) < types.len(),
        handlers: handlers(alloc, image, number, code)?,
    })
}
