//! Programs that are deep or wide: long chains and loops, diamonds of interfaces, arrays of 255
//! dimensions.

use crate::rows::answer_of;
use jvm_base::NoMemory;
use std::alloc::Global;
use std::test::Fail;

/// Words, and the number that stands behind them: so much more than the number of the turn.
type Piece<'a> = (&'a str, Option<u32>);

/// A program, whose middle stands there again and again, and what linking it answers.
struct Deep<'a> {
    first: &'a str,
    again: &'a [Piece<'a>],
    turns: u32,
    last: &'a str,
    want: &'a str,
}

const CLASSES: &[Piece<'static>] = &[("|C", Some(0)), (", super C", Some(1))];

const INTERFACES: &[Piece<'static>] = &[("|I", Some(0)), (" 601, of I", Some(1))];

/// Two interfaces, each of which extends both of the next level.
const DIAMOND: &[Piece<'static>] = &[
    ("|I", Some(0)),
    (" 601, of I", Some(1)),
    (", of J", Some(1)),
    ("|J", Some(0)),
    (" 601, of I", Some(1)),
    (", of J", Some(1)),
];

const TABLE: &[Deep<'static>] = &[
    // 1,024 classes in one chain, with the main class
    Deep {
        first: "A, super C0, method 9 f ()V invokestatic:A.g.()V",
        again: CLASSES,
        turns: 1021,
        last: "|C1021, method 9 g ()V",
        want: "ok",
    },
    // loops: the class below one doesn't lie on it
    Deep {
        first: "A, super C0",
        again: CLASSES,
        turns: 9,
        last: "|C9, super C0",
        want: "C0 super-loop C0",
    },
    Deep {
        first: "A, of I0",
        again: INTERFACES,
        turns: 9,
        last: "|I9 601, of I4",
        want: "I4 super-loop I4",
    },
    Deep {
        first: "A, super C0, of I0|I0 601, of I1|I1 601, of I2|I2 601, of I3|I3 601, of I0",
        again: CLASSES,
        turns: 5,
        last: "|C5, super C3",
        want: "I0 super-loop I0",
    },
    // what lies above the first level is reached in 2^50 ways
    Deep {
        first: "A 421, of I0, of J0, method 9 f ()V invokevirtual:A.g.()V",
        again: DIAMOND,
        turns: 50,
        last: "|I50 601|J50 601, method 401 g ()V",
        want: "ok",
    },
    Deep {
        first: "A 421, of I0, of J0, method 9 f ()V invokevirtual:A.g.()V",
        again: DIAMOND,
        turns: 50,
        last: "|I50 601|J50 601, method 401 g (I)V",
        want: "A no-method g()V",
    },
    // arrays of 255 dimensions
    Deep {
        first: "A, method 9 f ()V checkcast:",
        again: &[("[", None)],
        turns: 255,
        last: "LA;",
        want: "ok",
    },
    Deep {
        first: "A, method 9 f ()V checkcast:",
        again: &[("[", None)],
        turns: 255,
        last: "LB;",
        want: "A no-class B",
    },
];

/// The text of such a program.
fn text(alloc: Global, deep: &Deep<'_>) -> Result<String, NoMemory> {
    let mut text = String::from_str(alloc, deep.first)?;
    for turn in 0..deep.turns {
        for (words, more) in deep.again {
            text.push_str(words)?;
            if let Some(more) = more {
                let number = turn.wrapping_add(*more);
                let number = format!(in alloc; "{number}")?;
                text.push_str(number.as_str())?;
            }
        }
    }
    text.push_str(deep.last)?;
    Ok(text)
}

#[test]
fn deep_programs(rt: HostRuntime) -> Result<(), Fail> {
    let alloc = rt.alloc();
    for deep in TABLE {
        let given = text(alloc, deep)?;
        let got = answer_of(alloc, given.as_str())?;
        assert_eq!(rt; got.trim(), deep.want);
    }
    Ok(())
}
