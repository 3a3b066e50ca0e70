//! Joins of all pairs of types, in a local and on the stack.

ghost use Rattle.flow_types.specs.Tree.{superclasses, IsTree};
ghost use Rattle.acceptance.specs.Accepted.{AreVerifiable};

use crate::builder::{push_classes, units};
use crate::judged::{are_formed, linked};
use crate::rows::BEFORE;
use flow_types::{FlowFrame, FlowType};
use flow_verifier::{Frames, VerifyErr, verify};
use jvm_base::{List, NoMemory};
use program_image::{Body, Image};
use std::alloc::Global;
use std::test::Fail;

/// A letter for each type, and for its joins with all others in the same order: U for an unusable
/// local, I an int, J a long, H the second local of a long, N null, O, A, T and C objects, of which T
/// and C lie below A, i and j arrays of ints and longs, a, t and l arrays of A, T and C, q arrays of
/// arrays of ints, o arrays of objects, x, y and z arrays of arrays of A, T and C, b, e, h and s arrays
/// of bytes, booleans, chars and shorts, f what was made before the ways part, and F what was made at
/// one of two places; neither is initialised.
const JOINS: [(u8, &[u8; 25]); 25] = [
    (b'U', b"UUUUUUUUUUUUUUUUUUUUUUUUU"),
    (b'I', b"UIUUUUUUUUUUUUUUUUUUUUUUU"),
    (b'J', b"UUJUUUUUUUUUUUUUUUUUUUUUU"),
    (b'H', b"UUUHUUUUUUUUUUUUUUUUUUUUU"),
    (b'N', b"UUUUNOATCijatqolxyzbehsUU"),
    (b'O', b"UUUUOOOOOOOOOOOOOOOOOOOUU"),
    (b'A', b"UUUUAOAAAOOOOOOOOOOOOOOUU"),
    (b'T', b"UUUUTOATAOOOOOOOOOOOOOOUU"),
    (b'C', b"UUUUCOAACOOOOOOOOOOOOOOUU"),
    (b'i', b"UUUUiOOOOiOOOOOOOOOOOOOUU"),
    (b'j', b"UUUUjOOOOOjOOOOOOOOOOOOUU"),
    (b'a', b"UUUUaOOOOOOaaooaoooOOOOUU"),
    (b't', b"UUUUtOOOOOOatooaoooOOOOUU"),
    (b'q', b"UUUUqOOOOOOooqoooooOOOOUU"),
    (b'o', b"UUUUoOOOOOOooooooooOOOOUU"),
    (b'l', b"UUUUlOOOOOOaaooloooOOOOUU"),
    (b'x', b"UUUUxOOOOOOoooooxxxOOOOUU"),
    (b'y', b"UUUUyOOOOOOoooooxyxOOOOUU"),
    (b'z', b"UUUUzOOOOOOoooooxxzOOOOUU"),
    (b'b', b"UUUUbOOOOOOOOOOOOOObOOOUU"),
    (b'e', b"UUUUeOOOOOOOOOOOOOOOeOOUU"),
    (b'h', b"UUUUhOOOOOOOOOOOOOOOOhOUU"),
    (b's', b"UUUUsOOOOOOOOOOOOOOOOOsUU"),
    (b'f', b"UUUUUUUUUUUUUUUUUUUUUUUfU"),
    (b'F', b"UUUUUUUUUUUUUUUUUUUUUUUUU"),
];

/// The parameters behind an int, in the order of the letters from O on: each in the local of its
/// letter's place less 4.
const DESC: &str =
    "(ILjava/lang/Object;LA;LT;LC;[I[J[LA;[LT;[[I[Ljava/lang/Object;[LC;[[LA;[[LT;[[LC;[B[Z[C[S)V";

/// Five bytes that push a value of the type of a letter, or do nothing for U.
fn push(letter: u8) -> &'static str {
    match letter {
        b'I' => "00 00 00 00 03",
        b'J' | b'H' => "00 00 00 00 09",
        b'N' => "00 00 00 00 01",
        b'O' => "00 00 00 19 01",
        b'A' => "00 00 00 19 02",
        b'T' => "00 00 00 19 03",
        b'C' => "00 00 00 19 04",
        b'i' => "00 00 00 19 05",
        b'j' => "00 00 00 19 06",
        b'a' => "00 00 00 19 07",
        b't' => "00 00 00 19 08",
        b'q' => "00 00 00 19 09",
        b'o' => "00 00 00 19 0a",
        b'l' => "00 00 00 19 0b",
        b'x' => "00 00 00 19 0c",
        b'y' => "00 00 00 19 0d",
        b'z' => "00 00 00 19 0e",
        b'b' => "00 00 00 19 0f",
        b'e' => "00 00 00 19 10",
        b'h' => "00 00 00 19 11",
        b's' => "00 00 00 19 12",
        b'f' => "00 00 00 19 16",
        b'F' => "00 00 new:A",
        _ => "00 00 00 00 00",
    }
}

/// Two bytes that store a value of that type in local 20, or a long in the locals 19 and 20.
fn store(letter: u8) -> &'static str {
    match letter {
        b'I' => "36 14",
        b'J' => "37 14",
        b'H' => "37 13",
        b'U' => "00 00",
        _ => "3a 14",
    }
}

/// A method that takes one of two ways: 0 new, astore 22, 5 iload_0, ifeq 19, 9 the first, goto 26,
/// 19 the other, 26 return.
fn method(alloc: Global, name: &str, one: u8, other: u8, kept: bool) -> Result<String, NoMemory> {
    let (first, second) = (push(one), push(other));
    let (last, behind) = if kept {
        ("00 00", "00 00")
    } else {
        (store(one), store(other))
    };
    Ok(format!(in alloc;
        "9 {name} {DESC} 2.17 new:A 3a 16 1a 99 000d {first} {last} a7 000a {second} {behind} b1"
    )?)
}

/// The program with a method for each pair of letters, of which some are left out.
fn program(alloc: Global, kept: bool) -> Result<String, NoMemory> {
    let mut text = String::from_str(alloc, BEFORE)?;
    text.push_str("9 m ()V 0.0 b1")?;
    for (one, _) in JOINS {
        for (other, _) in JOINS {
            let name = format!(in alloc; "{}{}", one as char, other as char)?;
            let method = method(alloc, name.as_str(), one, other, kept)?;
            text.push_str(", method ")?;
            text.push_str(method.as_str())?;
        }
    }
    Ok(text)
}

/// The type of a letter, by the frame in which the methods begin; those of Int and the like apart.
fn type_of(entry: &FlowFrame, letter: u8) -> FlowType {
    let place = match letter {
        b'I' => return FlowType::Int,
        b'J' => return FlowType::Long,
        b'H' => return FlowType::High,
        b'N' => return FlowType::Null,
        b'f' => return FlowType::Fresh(0),
        letter => place_of(letter),
    };
    entry.locals.get(place).copied().unwrap_or(FlowType::Int)
}

/// The local that has the parameter of a letter, or else one that is unusable.
fn place_of(letter: u8) -> usize {
    for place in 5..23 {
        if JOINS[place].0 == letter {
            return place - 4;
        }
    }
    20
}

/// What a local or the stack is to hold where two ways meet.
fn is_joined(entry: &FlowFrame, last: &FlowFrame, letter: u8, kept: bool) -> bool {
    let want = type_of(entry, letter);
    if !kept {
        return last.locals.get(20) == Some(&want) && last.stack.len() == 0;
    }
    last.stack.as_slice() == [want].as_slice() && last.locals.get(20) == Some(&FlowType::Unusable)
}

/// Whether the frames of a method are as said.
fn are_joined(alloc: Global, frames: &Frames, letter: u8, kept: bool) -> Result<bool, NoMemory> {
    match (frames.get(0), frames.get(frames.len().saturating_sub(1))) {
        (Some(Some(entry)), Some(Some(last))) => Ok(is_joined(
            &entry.frame(alloc)?,
            &last.frame(alloc)?,
            letter,
            kept,
        )),
        _ => Ok(false),
    }
}

/// The typing of a method with code.
fn frames_of(alloc: Global, image: &Image, method: u32) -> Result<Option<Frames>, VerifyErr>
    requires tree { IsTree (superclasses image.now) }
    requires fine { AreVerifiable image.now }
{
    if method >= image.methods() {
        return Ok(None);
    }
    match image.method(method).body {
        Body::Code(_) => Ok(Some(verify(alloc, image, method)?)),
        _ => Ok(None),
    }
}

/// Whether the method of a number joins two types to that of a letter. On the stack unlike kinds have no
/// join, and the method has no typing.
fn joins(alloc: Global, image: &Image, method: u32, letter: u8, kept: bool) -> Result<bool, Fail>
    requires tree { IsTree (superclasses image.now) }
    requires fine { AreVerifiable image.now }
{
    match frames_of(alloc, image, method) {
        Ok(Some(frames)) => Ok(are_joined(alloc, &frames, letter, kept)?),
        Ok(None) => Ok(false),
        Err(VerifyErr::Flow(e)) => Ok(kept && letter == b'U' && (e.rule, e.at) == (7, 26)),
        Err(VerifyErr::NoMemory) => Err(NoMemory.into()),
    }
}

/// Whether a type can stand on a stack.
fn is_pushed(letter: u8) -> bool {
    letter != b'U' && letter != b'H'
}

/// The first pair whose join is another than that of the table, which the last methods take.
fn wrong_join(alloc: Global, image: &Image, kept: bool) -> Result<Option<(char, char)>, Fail>
    requires tree { IsTree (superclasses image.now) }
    requires fine { AreVerifiable image.now }
{
    let mut method = image.methods().saturating_sub(625);
    for (one, letters) in JOINS {
        for column in 0..25 {
            let other = JOINS[column].0;
            let pushed = !kept || (is_pushed(one) && is_pushed(other));
            if pushed && !joins(alloc, image, method, letters[column], kept)? {
                return Ok(Some((one as char, other as char)));
            }
            method = method.saturating_add(1);
        }
    }
    Ok(None)
}

fn wrong_pair(alloc: Global, kept: bool) -> Result<Option<(char, char)>, Fail> {
    let mut files = List::new(alloc);
    push_classes(alloc, &mut files, program(alloc, kept)?.as_str())?;
    if files.len() > 1024 || !are_formed(files.as_slice()) {
        return Ok(Some(('?', '?')));
    }
    let image = linked(alloc, &files, &units(alloc, "Main")?)?;
    wrong_join(alloc, &image, kept)
}

#[test]
fn in_locals(rt: HostRuntime) -> Result<(), Fail> {
    assert_eq!(rt; wrong_pair(rt.alloc(), false)?, None);
    Ok(())
}

#[test]
fn on_the_stack(rt: HostRuntime) -> Result<(), Fail> {
    assert_eq!(rt; wrong_pair(rt.alloc(), true)?, None);
    Ok(())
}
