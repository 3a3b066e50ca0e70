//! The files of a call, read and accepted.

ghost use Rattle.std.specs.Prelude.{◌≡◌, ◌≤◌, length, All, MatchResult};
ghost use Rattle.class_format.specs.Meaning.{IsClass, Spells};
ghost use Rattle.one_jvm.specs.Verdicts.{is_order, limit_of};
ghost use Rattle.one_jvm.specs.Steps.Parts.{asked_by, IsCounted};
ghost use Rattle.one_jvm.specs.Steps.Loading.{first_place, RefusesBytes, ReadsBytes, ReadsFile, ReadsOrder, Loads, IsFine, IsUnfit, IsTask, IsSet, IsTold, Programs};

use crate::link_text::link_text;
use crate::main_class::main_of;
use crate::outcome::Refusal;
use crate::verify_text::{accepted_text, flow_text};
use crate::words::Request;
use acceptance::{Rejection, accept};
use cjvm_io::{Shelf, ShelfErr};
use class_file::{ClassErr, read_class};
use class_format::ClassFile;
use command_words::Command;
use jvm_base::{List, NoMemory};
use program_image::Image;
use std::alloc::Global;

/// The greatest length of a class file, in bytes.
const CLASS_FILE_LIMIT: u64 = 1_048_576;

/// The greatest length of an order's file, in bytes.
const ORDER_FILE_LIMIT: u64 = 67_108_864;

/// What is to be done with accepted files: their program is run, or takes the steps of an order of
/// which this is the text; or a line says that they are accepted.
#[derive(Drop)]
pub(crate) enum Task {
    Run(Image),
    Replay(Image, Vec<u8>),
    Tell(Vec<u8>),
}

/// What the files of a call hold: the text of an order, which is empty where none is asked for, and
/// classes.
#[derive(Drop)]
struct Loaded {
    text: Vec<u8>,
    classes: List<ClassFile>,
}

/// A refusal, and what it tells of class files.
#[derive(Drop)]
pub(crate) struct Refused {
    pub(crate) refusal: Refusal,
    pub(crate) text: Vec<u8>,
}

/// The class file that the bytes of the file at a place are.
fn class_of(alloc: Global, file: u32, bytes: &[u8]) -> Result<ClassFile, Refusal>
    ensures { MatchResult result (λ class. Spells class bytes.now) (RefusesBytes file bytes.now) }
{
    match read_class(alloc, bytes) {
        Ok(class) => Ok(class),
        Err(ClassErr::NoMemory) => Err(Refusal::NoMemory),
        Err(why) => Err(Refusal::File { file, why }),
    }
}

/// The greatest length of a file, by whether it is an order's.
fn limit_of(order: bool) -> u64
    ensures { result ≡ limit_of order }
{
    if order {
        ORDER_FILE_LIMIT
    } else {
        CLASS_FILE_LIMIT
    }
}

/// The bytes of the file of a name, at a place among those of the call.
fn read_bytes<S: Shelf>(
    alloc: Global,
    shelf: &mut S,
    file: u32,
    name: &str,
    order: bool,
) -> Result<Vec<u8>, Refusal>
    ensures files { S.files shelf.new ≡ S.files shelf.old }
    ensures later { S.faults shelf.old ≤ S.faults shelf.new }
    ensures answer { ReadsBytes (S.files shelf.old) name.now order file (S.faults shelf.old)
        (S.faults shelf.new) result }
{
    match shelf.read_file(alloc, name, limit_of(order)) {
        Ok(bytes) => Ok(bytes),
        Err(ShelfErr::NotThere) => Err(Refusal::NoFile(file)),
        Err(ShelfErr::TooLong) => Err(Refusal::TooLong(file)),
        Err(ShelfErr::Failed) => Err(Refusal::ReadFault(file)),
        Err(ShelfErr::NoMemory) => Err(Refusal::NoMemory),
    }
}

/// The class file of a name, at a place among those of the call.
fn read_file<S: Shelf>(
    alloc: Global,
    shelf: &mut S,
    file: u32,
    name: &str,
) -> Result<ClassFile, Refusal>
    ensures files { S.files shelf.new ≡ S.files shelf.old }
    ensures later { S.faults shelf.old ≤ S.faults shelf.new }
    ensures answer { ReadsFile (S.files shelf.old) name.now file (S.faults shelf.old)
        (S.faults shelf.new) result }
{
    let bytes = read_bytes(alloc, shelf, file, name, false)?;
    class_of(alloc, file, bytes.as_slice())
}

/// The place of the first class file.
fn first_place(command: Command) -> usize
    ensures { result ≡ first_place command }
{
    match command {
        Command::Replay => 1,
        Command::Run | Command::Check => 0,
    }
}

/// The text of the order of a replay; it is empty for other commands.
fn read_order<S: Shelf>(
    alloc: Global,
    shelf: &mut S,
    request: &Request<'_>,
) -> Result<Vec<u8>, Refusal>
    requires counted { IsCounted (asked_by request.now) }
    ensures files { S.files shelf.new ≡ S.files shelf.old }
    ensures later { S.faults shelf.old ≤ S.faults shelf.new }
    ensures answer { ReadsOrder (S.files shelf.old) (asked_by request.now) (S.faults shelf.old)
        (S.faults shelf.new) result }
{
    match request.command() {
        Command::Replay => read_bytes(alloc, shelf, 0, request.file(0), true),
        Command::Run | Command::Check => Ok(Vec::new(alloc)),
    }
}

/// The files of a call, in order.
fn load<S: Shelf>(alloc: Global, shelf: &mut S, request: &Request<'_>) -> Result<Loaded, Refusal>
    requires counted { IsCounted (asked_by request.now) }
    ensures files { S.files shelf.new ≡ S.files shelf.old }
    ensures later { S.faults shelf.old ≤ S.faults shelf.new }
    ensures answer { Loads (S.files shelf.old) (asked_by request.now) (S.faults shelf.old)
        (S.faults shelf.new) result }
{
    let text = read_order(alloc, shelf, request)?;
    let mut classes = List::new(alloc);
    for file in first_place(request.command())..request.count() {
        let class = read_file(alloc, shelf, file as u32, request.file(file))?;
        if classes.push(class).is_err() {
            return Err(Refusal::NoMemory);
        }
    }
    Ok(Loaded { text, classes })
}

/// What class files are linked to where they are accepted, and the first refusal that they have
/// otherwise.
fn accept_classes(
    alloc: Global,
    request: &Request<'_>,
    classes: &List<ClassFile>,
) -> Result<Image, Refusal>
    requires few { length classes.now ≤ 1024 }
    requires formed { All IsClass classes.now }
    ensures { MatchResult result (IsFine (asked_by request.now) classes.now)
        (IsUnfit (asked_by request.now) classes.now) }
{
    let Ok(main) = main_of(alloc, request, classes.as_slice()) else {
        return Err(Refusal::NoMemory);
    };
    match accept(alloc, classes, &main) {
        Ok(image) => Ok(image),
        Err(Rejection::Link(why)) => Err(Refusal::Link(why)),
        Err(Rejection::Flow(why)) => Err(Refusal::Flow(why)),
        Err(Rejection::NoMemory) => Err(Refusal::NoMemory),
    }
}

/// What is to be done with accepted files.
fn task_of(
    alloc: Global,
    request: &Request<'_>,
    classes: &List<ClassFile>,
    image: Image,
    text: Vec<u8>,
) -> Result<Task, Refusal>
    requires few { length classes.now ≤ 1024 }
    requires formed { All IsClass classes.now }
    ensures { MatchResult result
        (IsTask (asked_by request.now) text.items classes.now image) (λ e. e ≡ Refusal.NoMemory) }
{
    match request.command() {
        Command::Run => Ok(Task::Run(image)),
        Command::Replay => Ok(Task::Replay(image, text)),
        Command::Check => match accepted_text(alloc, classes.as_slice()) {
            Ok(line) => Ok(Task::Tell(line)),
            Err(_) => Err(Refusal::NoMemory),
        },
    }
}

/// What is to be done with class files, or why it isn't done.
fn accepted_task(
    alloc: Global,
    request: &Request<'_>,
    classes: &List<ClassFile>,
    text: Vec<u8>,
) -> Result<Task, Refusal>
    requires few { length classes.now ≤ 1024 }
    requires formed { All IsClass classes.now }
    ensures { MatchResult result (IsSet (asked_by request.now) text.items classes.now)
        (IsUnfit (asked_by request.now) classes.now) }
{
    let image = accept_classes(alloc, request, classes)?;
    task_of(alloc, request, classes, image, text)
}

/// A refusal that tells nothing of class files.
fn untold(alloc: Global, refusal: Refusal) -> Refused
    ensures { result.refusal ≡ refusal }
{
    Refused {
        refusal,
        text: Vec::new(alloc),
    }
}

/// A refusal with its text, where memory lasted for it.
fn with_text(alloc: Global, refusal: Refusal, text: Result<Vec<u8>, NoMemory>) -> Refused
    ensures { MatchResult text
        (λ t. (result.refusal ≡ refusal) × (result.text.items ≡ t.items))
        (λ _. result.refusal ≡ Refusal.NoMemory) }
{
    match text {
        Ok(text) => Refused { refusal, text },
        Err(_) => untold(alloc, Refusal::NoMemory),
    }
}

/// A refusal of some classes, with what it tells of them.
fn tell(alloc: Global, classes: &[ClassFile], refusal: Refusal) -> Refused
    ensures { IsTold classes.now refusal result }
{
    let text = match &refusal {
        Refusal::Link(why) => link_text(alloc, classes, why),
        Refusal::Flow(why) => flow_text(alloc, classes, *why),
        _ => return untold(alloc, refusal),
    };
    with_text(alloc, refusal, text)
}

/// What is to be done with a call's files, or why it isn't done.
pub(crate) fn find_task<S: Shelf>(
    alloc: Global,
    shelf: &mut S,
    request: &Request<'_>,
) -> Result<Task, Refused>
    requires counted { IsCounted (asked_by request.now) }
    ensures files { S.files shelf.new ≡ S.files shelf.old }
    ensures later { S.faults shelf.old ≤ S.faults shelf.new }
    ensures answer { Programs (S.files shelf.old) (asked_by request.now) (S.faults shelf.old)
        (S.faults shelf.new) result }
{
    let Loaded { text, classes } = match load(alloc, shelf, request) {
        Ok(loaded) => loaded,
        Err(refusal) => return Err(untold(alloc, refusal)),
    };
    match accepted_task(alloc, request, &classes, text) {
        Ok(task) => Ok(task),
        Err(refusal) => Err(tell(alloc, classes.as_slice(), refusal)),
    }
}
