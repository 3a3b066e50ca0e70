//! What a report tells of the end of a run or of a replay.

ghost use Rattle.std.specs.Prelude.{◌≡◌, [], ◌++◌, decimal, OnOk, IfOk};
ghost use Rattle.std.specs.Result.{IsOk};
ghost use Rattle.std.specs.List.{flat_map};
ghost use Rattle.one_jvm.specs.declared.outcome.Stop.TheVariants.{StepLimit};
ghost use Rattle.one_jvm.specs.Outcomes.{class_text, uncaught_text, stop_text, ending_text};

use crate::link_text::push_text;
use crate::outcome::Stop;
use itoa::Buffer;
use jvm_base::{NoMemory, Uncaught};
use program_image::Image;
use std::alloc::Global;

/// Adds a number.
fn push_number(bytes: &mut Vec<u8>, number: u32) -> Result<(), NoMemory>
    ensures { OnOk result (bytes.new.items ≡ bytes.old.items ++ decimal number) }
{
    let mut buffer = Buffer::new();
    bytes.extend_from_slice(buffer.format(number).as_bytes())?;
    Ok(())
}

/// Adds the name of a class.
fn push_class(alloc: Global, bytes: &mut Vec<u8>, image: &Image, class: u32) -> Result<(), NoMemory>
    ensures { OnOk result (bytes.new.items ≡ bytes.old.items ++ class_text image.now class) }
{
    if class < image.classes() {
        push_text(alloc, bytes, image.class(class).name.as_slice())?;
    }
    Ok(())
}

/// Adds the line of an exception that nothing caught.
fn push_uncaught(
    alloc: Global,
    bytes: &mut Vec<u8>,
    image: &Image,
    one: &Uncaught,
) -> Result<(), NoMemory>
    ensures { OnOk result (bytes.new.items ≡ bytes.old.items ++ uncaught_text image.now one.now) }
{
    bytes.extend_from_slice(b"uncaught ")?;
    push_number(bytes, one.thread)?;
    bytes.extend_from_slice(b" ")?;
    push_class(alloc, bytes, image, one.class)?;
    bytes.extend_from_slice(b"\n")?;
    Ok(())
}

/// The lines of exceptions that nothing caught.
fn uncaught_lines(alloc: Global, image: &Image, uncaught: &[Uncaught]) -> Result<Vec<u8>, NoMemory>
    ensures lines { IfOk result (λ v. v.items ≡ flat_map (uncaught_text image.now) uncaught.now) }
    ensures none { uncaught.now ≡ [] → IsOk result }
{
    let mut bytes = Vec::new(alloc);
    for one in uncaught {
        push_uncaught(alloc, &mut bytes, image, one)?;
    }
    Ok(bytes)
}

/// Adds the line of a run that ended at a thread's limit on steps.
fn push_limit(bytes: &mut Vec<u8>, thread: u32) -> Result<(), NoMemory>
    ensures { OnOk result (bytes.new.items ≡ bytes.old.items ++ stop_text (StepLimit thread)) }
{
    bytes.extend_from_slice(b"cjvm: step limit thread ")?;
    push_number(bytes, thread)?;
    bytes.extend_from_slice(b"\n")?;
    Ok(())
}

/// Adds a fixed line.
fn push_line(bytes: &mut Vec<u8>, line: &[u8]) -> Result<(), NoMemory>
    ensures { OnOk result (bytes.new.items ≡ bytes.old.items ++ line.now) }
{
    bytes.extend_from_slice(line)?;
    Ok(())
}

/// Adds the line of a run that ended before its threads did.
fn push_stop(bytes: &mut Vec<u8>, stop: Stop) -> Result<(), NoMemory>
    ensures line { OnOk result (bytes.new.items ≡ bytes.old.items ++ stop_text stop) }
    ensures none { stop ≡ Stop.Done → IsOk result }
{
    match stop {
        Stop::StepLimit { thread } => push_limit(bytes, thread),
        Stop::Deadlock => push_line(bytes, b"cjvm: deadlock\n"),
        Stop::ThreadsFull { .. } => push_line(bytes, b"cjvm: threads full\n"),
        Stop::Done | Stop::Uncaught | Stop::WriteFault | Stop::NoMemory => Ok(()),
    }
}

/// What the end of a run or a replay tells.
pub(crate) fn ending_text(
    alloc: Global,
    image: &Image,
    stop: Stop,
    uncaught: &[Uncaught],
) -> Result<Vec<u8>, NoMemory>
    ensures text { IfOk result (λ v. v.items ≡ ending_text image.now stop uncaught.now) }
    ensures none { stop ≡ Stop.Done → uncaught.now ≡ [] → IsOk result }
{
    let mut bytes = uncaught_lines(alloc, image, uncaught)?;
    push_stop(&mut bytes, stop)?;
    Ok(bytes)
}
