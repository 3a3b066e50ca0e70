//! Reports on standard error.

ghost use Rattle.std.specs.Prelude.{◌++◌, ◌∷◌, [], codes, decimal};
ghost use Rattle.cjvm_io.specs.Faults.{HasCause};
ghost use Rattle.cjvm_io.specs.Sinks.{GainsAll};
ghost use Rattle.class_file.specs.Reasons.{reason};
ghost use Rattle.one_jvm.specs.Outcomes.{report};

use crate::outcome::Refusal;
use cjvm_io::{Failed, Sink, write_all};
use class_file::ClassErr;
use itoa::Buffer;

/// Writes one piece and then another.
fn write_both<E: Sink>(err: &mut E, first: &[u8], second: &[u8]) -> Result<(), Failed>
    ensures bytes { GainsAll (E.held err.old) (E.held err.new) (first.now ++ second.now) result }
    ensures cause { HasCause (E.faults err.old) (E.faults err.new) result }
{
    write_all(err, first)?;
    write_all(err, second)
}

/// Writes a line of a front and a name.
fn write_line<E: Sink>(err: &mut E, front: &[u8], name: &[u8]) -> Result<(), Failed>
    ensures bytes { GainsAll (E.held err.old) (E.held err.new)
        (front.now ++ name.now ++ 10 ∷ []) result }
    ensures cause { HasCause (E.faults err.old) (E.faults err.new) result }
{
    write_both(err, front, name)?;
    write_all(err, b"\n")
}

/// Writes a piece and a number.
fn write_number<E: Sink>(err: &mut E, front: &[u8], number: u64) -> Result<(), Failed>
    ensures bytes { GainsAll (E.held err.old) (E.held err.new)
        (front.now ++ decimal number) result }
    ensures cause { HasCause (E.faults err.old) (E.faults err.new) result }
{
    let mut buffer = Buffer::new();
    write_both(err, front, buffer.format(number).as_bytes())
}

fn write_version<E: Sink>(err: &mut E, major: u64, minor: u64) -> Result<(), Failed>
    ensures bytes { GainsAll (E.held err.old) (E.held err.new)
        (codes "version " ++ decimal major ++ (codes "." ++ decimal minor)) result }
    ensures cause { HasCause (E.faults err.old) (E.faults err.new) result }
{
    write_number(err, b"version ", major)?;
    write_number(err, b".", minor)
}

/// Writes why a file is no class file.
fn write_reason<E: Sink>(err: &mut E, why: ClassErr) -> Result<(), Failed>
    ensures bytes { GainsAll (E.held err.old) (E.held err.new) (reason why) result }
    ensures cause { HasCause (E.faults err.old) (E.faults err.new) result }
{
    match why {
        ClassErr::Magic => write_all(err, b"magic"),
        ClassErr::Version(major, minor) => {
            write_version(err, u64::from(major), u64::from(minor))
        }
        ClassErr::Cut(at) => write_number(err, b"cut ", at),
        ClassErr::PoolTag(index) => write_number(err, b"pool tag ", u64::from(index)),
        ClassErr::PoolText(index) => write_number(err, b"pool text ", u64::from(index)),
        ClassErr::PoolLink(index) => write_number(err, b"pool link ", u64::from(index)),
        ClassErr::ItemLink(at) => write_number(err, b"item link ", at),
        ClassErr::Flags(at) => write_number(err, b"flags ", at),
        ClassErr::AttrLength(at) => write_number(err, b"attribute length ", at),
        ClassErr::CodeLength(method) => write_number(err, b"code length ", u64::from(method)),
        ClassErr::CodeCount(method) => write_number(err, b"code count ", u64::from(method)),
        ClassErr::Twice(at) => write_number(err, b"twice ", at),
        ClassErr::Extra(at) => write_number(err, b"extra ", at),
        ClassErr::NoMemory => write_all(err, b"want of memory"),
    }
}

/// Writes that a file is refused.
fn write_file<E: Sink>(err: &mut E, name: &[u8]) -> Result<(), Failed>
    ensures bytes { GainsAll (E.held err.old) (E.held err.new)
        (codes "cjvm: refused " ++ name.now ++ codes " ") result }
    ensures cause { HasCause (E.faults err.old) (E.faults err.new) result }
{
    write_both(err, b"cjvm: refused ", name)?;
    write_all(err, b" ")
}

/// Writes why a file is refused, and the end of the line.
fn write_why<E: Sink>(err: &mut E, why: ClassErr) -> Result<(), Failed>
    ensures bytes { GainsAll (E.held err.old) (E.held err.new) (reason why ++ 10 ∷ []) result }
    ensures cause { HasCause (E.faults err.old) (E.faults err.new) result }
{
    write_reason(err, why)?;
    write_all(err, b"\n")
}

/// Writes the line of a file that is refused.
fn write_refused<E: Sink>(err: &mut E, name: &[u8], why: ClassErr) -> Result<(), Failed>
    ensures bytes { GainsAll (E.held err.old) (E.held err.new)
        (codes "cjvm: refused " ++ name.now ++ codes " " ++ (reason why ++ 10 ∷ [])) result }
    ensures cause { HasCause (E.faults err.old) (E.faults err.new) result }
{
    write_file(err, name)?;
    write_why(err, why)
}

/// Writes a line of a front, a number and what follows it.
fn write_count<E: Sink>(err: &mut E, front: &[u8], number: u64, behind: &[u8]) -> Result<(), Failed>
    ensures bytes { GainsAll (E.held err.old) (E.held err.new)
        (front.now ++ decimal number ++ behind.now) result }
    ensures cause { HasCause (E.faults err.old) (E.faults err.new) result }
{
    write_number(err, front, number)?;
    write_all(err, behind)
}

/// Writes the report of a refusal, by the name of its file or by what it tells of class files.
pub(crate) fn write_refusal<E: Sink>(
    err: &mut E,
    subject: &[u8],
    refusal: &Refusal,
) -> Result<(), Failed>
    ensures bytes { GainsAll (E.held err.old) (E.held err.new)
        (report subject.now (Some refusal.now)) result }
    ensures cause { HasCause (E.faults err.old) (E.faults err.new) result }
{
    match refusal {
        Refusal::Usage => write_all(err, b"cjvm: usage\n"),
        Refusal::File { why, .. } => write_refused(err, subject, *why),
        Refusal::Link(_) | Refusal::Flow(_) => write_line(err, b"cjvm: refused ", subject),
        Refusal::NoFile(_) => write_line(err, b"cjvm: no file ", subject),
        Refusal::ReadFault(_) => write_line(err, b"cjvm: read fault ", subject),
        Refusal::WriteFault => write_all(err, b"cjvm: write fault\n"),
        Refusal::TooLong(_) => write_line(err, b"cjvm: file too long ", subject),
        Refusal::BadOrder(line) => write_count(err, b"cjvm: bad order line ", *line, b"\n"),
        Refusal::NotEnabled(step) => write_count(err, b"cjvm: step ", *step, b" not enabled\n"),
        Refusal::EarlyOrder => write_all(err, b"cjvm: order ended early\n"),
        Refusal::NoMemory => write_all(err, b"cjvm: want of memory\n"),
    }
}
