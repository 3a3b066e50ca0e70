//! A table of what is done with threads, and what comes of it.

use jvm_base::{Name, NoMemory};
use std::alloc::Global;
use thread_home::{Joined, StartErr, Threads64};

#[derive(Clone, Copy)]
pub(crate) enum Act {
    Start,
    Join,
    End,
    Wake,
    Goes,
}

#[derive(Clone, Copy, Debug, PartialEq, Eq)]
pub(crate) enum Outcome {
    Number(u32),
    StartedBefore,
    Full,
    Joined,
    Queued,
    Ended,
    NotGoing,
    Nobody,
    Thread(u32),
    Truth(bool),
}

/// The act, the index of the thread's object, the number of a thread, and the outcome.
pub(crate) type Row = (Act, u32, u32, Outcome);

/// The Thread object of an index.
fn object(index: u32) -> Name {
    Name {
        node: 2,
        class: 9,
        index,
    }
}

fn start(threads: &mut Threads64, object: Name) -> Result<Outcome, NoMemory> {
    match threads.start(object) {
        Ok(number) => Ok(Outcome::Number(number)),
        Err(StartErr::StartedBefore) => Ok(Outcome::StartedBefore),
        Err(StartErr::ThreadsFull) => Ok(Outcome::Full),
        Err(StartErr::NoMemory) => Err(NoMemory),
    }
}

fn join(threads: &mut Threads64, object: Name, thread: u32) -> Result<Outcome, NoMemory> {
    Ok(match threads.join(object, thread)? {
        Joined::Joined => Outcome::Joined,
        Joined::Queued => Outcome::Queued,
    })
}

fn end(threads: &mut Threads64, thread: u32) -> Outcome {
    if threads.is_going(thread) {
        threads.ended(thread);
        Outcome::Ended
    } else {
        Outcome::NotGoing
    }
}

fn woken(thread: Option<u32>) -> Outcome {
    match thread {
        Some(thread) => Outcome::Thread(thread),
        None => Outcome::Nobody,
    }
}

fn performed(
    threads: &mut Threads64,
    act: Act,
    index: u32,
    thread: u32,
) -> Result<Outcome, NoMemory> {
    match act {
        Act::Start => start(threads, object(index)),
        Act::Join => join(threads, object(index), thread),
        Act::End => Ok(end(threads, thread)),
        Act::Wake => Ok(woken(threads.wake_first(object(index)))),
        Act::Goes => Ok(Outcome::Truth(threads.is_going(thread))),
    }
}

/// The place of the first row with another outcome, where thread 0 goes on and has object 0.
pub(crate) fn first_wrong(alloc: Global, rows: &[Row]) -> Result<Option<usize>, NoMemory> {
    let mut threads = Threads64::new(alloc, object(0))?;
    for place in 0..rows.len() {
        let (act, index, thread, outcome) = rows[place];
        if performed(&mut threads, act, index, thread)? != outcome {
            return Ok(Some(place));
        }
    }
    Ok(None)
}

/// How many threads can be started beside thread 0, and what the next start answers.
pub(crate) fn most(alloc: Global) -> Result<(u32, Outcome), NoMemory> {
    let mut threads = Threads64::new(alloc, object(0))?;
    let mut count = 0;
    for index in 1..100 {
        match start(&mut threads, object(index))? {
            Outcome::Number(number) => count = number,
            other => return Ok((count, other)),
        }
    }
    Ok((count, Outcome::Ended))
}
