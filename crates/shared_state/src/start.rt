//! The state before the first step.

ghost use Rattle.std.specs.Prelude.{◌≡◌, ◌+◌, ◌<◌, [], length, nat_lt, if◌then◌else◌, IfOk, OnOk};
ghost use Rattle.jvm_base.specs.Names.{named};
ghost use Rattle.machine_state.specs.declared.state.ClassState.TheVariants.{Done, Untouched};
ghost use Rattle.program_image.specs.Words.{zero_of};
ghost use Rattle.machine_state.specs.BootClasses.{boot_class_count};
ghost use Rattle.machine_state.specs.PreMade.{holders, texts, text_references, first_statics, behind_literals, stream, main_thread, pre_made};
ghost use Rattle.machine_state.specs.Start.{all_put, first_states, start};
ghost use Rattle.shared_state.specs.First.{first_value, own_statics, IsOpening};
ghost use Rattle.shared_state.specs.Parts.{state_of};

use crate::apply::start_thread;
use crate::heap::Heap;
use crate::owners::Owners;
use crate::shared::Shared;
use crate::thread::Thread;
use class_format::{STATIC, has_flag};
use jvm_base::{Desc, Elem, List, Name, NoMemory, ObjectBody, Units, Value};
use machine_state::ClassState;
use program_image::{FieldInfo, Image};
use std::alloc::Global;

/// The node of names that no step makes.
const NO_NODE: u8 = 255;

/// How many boot classes there are (docs/BOOT.md).
const BOOT_CLASSES: u32 = 34;

/// `java/lang/Class`.
const CLASS: u32 = 1;

/// `java/lang/String`.
const STRING: u32 = 2;

/// `java/lang/System`.
const SYSTEM: u32 = 4;

/// `java/io/PrintStream`.
const PRINT_STREAM: u32 = 5;

/// `java/lang/Thread`.
const THREAD: u32 = 7;

/// A name that no step makes.
fn named(class: u32, index: u32) -> Name
    ensures { result ≡ named 255 class index }
{
    Name {
        node: NO_NODE,
        class,
        index,
    }
}

/// What a field of the type holds at first (JVMS2 2.5.1).
fn zero_of(desc: &Desc) -> Value
    ensures { result ≡ zero_of desc.now }
{
    if desc.dims != 0 {
        return Value::Null;
    }
    match desc.elem {
        Elem::Object(_) => Value::Null,
        Elem::Long => Value::Long(0),
        _ => Value::Int(0),
    }
}

/// What a static field holds at first.
fn first_value(field: &FieldInfo) -> Value
    ensures { result ≡ first_value field.now }
{
    match field.constant {
        Some(value) => value,
        None => zero_of(field.desc.get()),
    }
}

/// What the static fields among these hold at first.
fn own_statics(alloc: Global, fields: &[FieldInfo]) -> Result<List<Value>, NoMemory>
    ensures { IfOk result (λ values. values ≡ own_statics fields.now) }
{
    let mut values = List::new(alloc);
    for field in fields {
        if has_flag(field.flags, STATIC) {
            values.push(first_value(field))?;
        }
    }
    Ok(values)
}

/// What the holder of a class's statics has.
fn first_statics(
    alloc: Global,
    image: &Image,
    class: u32,
    out: Name,
) -> Result<List<Value>, NoMemory>
    requires class_in { class < length image.now.classes }
    requires out { out ≡ stream image.now }
    ensures { IfOk result (λ values. values ≡ first_statics image.now class) }
{
    if class != SYSTEM {
        return own_statics(alloc, image.class(class).fields.as_slice());
    }
    let mut values = List::new(alloc);
    values.push(Value::Ref(out))?;
    Ok(values)
}

/// The holders of all classes are put.
fn put_holders(alloc: Global, heap: &mut Heap, image: &Image, out: Name) -> Result<(), NoMemory>
    requires { out ≡ stream image.now }
    ensures { OnOk result
        (heap.new ≡ all_put (holders image.now 0 image.now.classes) heap.old) }
{
    for class in 0..image.classes() {
        let statics = first_statics(alloc, image, class, out)?;
        heap.make(alloc, named(CLASS, class), ObjectBody::Fields(statics))?;
    }
    Ok(())
}

/// Strings of these contents are put, with indices from one on. One that had no index would be want
/// of memory.
fn put_texts(alloc: Global, heap: &mut Heap, first: u32, contents: &[Units]) -> Result<(), NoMemory>
    ensures { OnOk result (heap.new ≡ all_put (texts first contents.now) heap.old) }
{
    let mut index = first;
    for content in contents {
        heap.make_text(alloc, named(STRING, index), content.as_slice())?;
        index = index.checked_add(1).ok_or(NoMemory)?;
    }
    Ok(())
}

/// References to as many Strings, with indices from one on.
fn references(alloc: Global, first: u32, contents: &[Units]) -> Result<List<Value>, NoMemory>
    ensures { IfOk result (λ values. values ≡ text_references first contents.now) }
{
    let mut values = List::new(alloc);
    let mut index = first;
    for content in contents {
        let _ = content;
        values.push(Value::Ref(named(STRING, index)))?;
        index = index.checked_add(1).ok_or(NoMemory)?;
    }
    Ok(values)
}

/// How far a class is initialised at first.
fn first_state(class: u32) -> ClassState
    ensures { result ≡ (if nat_lt class boot_class_count then Done else Untouched) }
{
    if class < BOOT_CLASSES {
        ClassState::Done
    } else {
        ClassState::Untouched
    }
}

/// How far each class is initialised at first.
fn first_states(alloc: Global, image: &Image) -> Result<Vec<ClassState>, NoMemory>
    ensures { IfOk result (λ states. states.items ≡ first_states 0 image.now.classes) }
{
    let mut states = Vec::new(alloc);
    for class in 0..image.classes() {
        states.push(first_state(class))?;
    }
    Ok(states)
}

/// The index behind the holders and the literals.
fn behind_literals(image: &Image) -> Result<u32, NoMemory>
    ensures { IfOk result (λ index. index ≡ behind_literals image.now) }
{
    let Ok(literals) = u32::try_from(image.literals().len()) else {
        return Err(NoMemory);
    };
    match image.classes().checked_add(literals) {
        Some(index) => Ok(index),
        None => Err(NoMemory),
    }
}

/// What the program says of the objects that are there before the first step: the array that `main`
/// is given, and what the fields of `System.out`'s stream and of thread 0's object hold.
#[derive(Drop)]
pub struct Opening {
    pub array: Name,
    pub stream: List<Value>,
    pub thread: List<Value>,
}

/// The objects that are there before the first step. The texts of the arguments have the indices
/// from `first` on.
fn first_heap(
    alloc: Global,
    image: &Image,
    args: &[Units],
    opening: Opening,
    first: u32,
    thread: Name,
) -> Result<Heap, NoMemory>
    requires opening { IsOpening image.now opening }
    requires first { first ≡ behind_literals image.now + 2 }
    requires thread { thread ≡ main_thread image.now (length args.now) }
    ensures { IfOk result (λ heap. heap ≡ all_put (pre_made image.now args.now) []) }
{
    let out = named(PRINT_STREAM, first - 2);
    let mut heap = Heap::new(alloc);
    put_holders(alloc, &mut heap, image, out)?;
    put_texts(
        alloc,
        &mut heap,
        image.classes(),
        image.literals().as_slice(),
    )?;
    heap.make(alloc, out, ObjectBody::Fields(opening.stream))?;
    let texts = references(alloc, first, args)?;
    heap.make(alloc, opening.array, ObjectBody::Array(texts))?;
    put_texts(alloc, &mut heap, first, args)?;
    heap.make(alloc, thread, ObjectBody::Fields(opening.thread))?;
    Ok(heap)
}

/// An index so far behind another. One that is too large would be want of memory.
fn further(index: u32, more: usize) -> Result<u32, NoMemory>
    ensures { IfOk result (λ far. far ≡ index + more) }
{
    let Ok(more) = u32::try_from(more) else {
        return Err(NoMemory);
    };
    match index.checked_add(more) {
        Some(far) => Ok(far),
        None => Err(NoMemory),
    }
}

impl Shared {
    /// What threads share before the first step, and thread 0, which is about to call `main` with
    /// the arguments. So many literals and arguments that they had no numbers would be want of
    /// memory.
    #[tactic(auto, unfolding(machine_state::specs::Start::start))]
    pub fn new(
        alloc: Global,
        image: &Image,
        args: &[Units],
        opening: Opening,
    ) -> Result<(Shared, Vec<Thread>), NoMemory>
        requires { IsOpening image.now opening }
        ensures { IfOk result (λ r. state_of r.0 r.1.items ≡ start image.now args.now) }
    {
        let first = further(behind_literals(image)?, 2)?;
        let thread = named(THREAD, further(first, args.len())?);
        let heap = first_heap(alloc, image, args, opening, first, thread)?;
        let classes = first_states(alloc, image)?;
        let mut threads = Vec::new(alloc);
        start_thread(alloc, &mut threads, thread)?;
        let shared = Shared {
            heap,
            owners: Owners::new(alloc),
            waiting: Vec::new(alloc),
            classes,
            output: Vec::new(alloc),
            uncaught: Vec::new(alloc),
        };
        Ok((shared, threads))
    }
}
