//! A table of what threads do with classes, and what comes of it.

use class_init::{Asked, Classes};
use jvm_base::NoMemory;
use machine_state::ClassState;
use std::alloc::Global;

#[derive(Clone, Copy)]
pub(crate) enum Act {
    Ask,
    Done,
    Fail,
    Wake,
    State,
    Runs,
}

#[derive(Clone, Copy, PartialEq, Eq)]
pub(crate) enum Outcome {
    Told(Asked),
    Ended,
    NotRunning,
    Nobody,
    Thread(u32),
    Is(ClassState),
    NoClass,
    Truth(bool),
}

/// The act, the class, the thread, and the outcome.
pub(crate) type Row = (Act, u32, u32, Outcome);

fn ask(classes: &mut Classes, class: u32, thread: u32) -> Result<Outcome, NoMemory> {
    match classes.state(class) {
        Some(_) => Ok(Outcome::Told(classes.ask(class, thread)?)),
        None => Ok(Outcome::NoClass),
    }
}

fn end(classes: &mut Classes, class: u32, well: bool) -> Outcome {
    match classes.state(class) {
        Some(ClassState::Running(_)) if well => classes.done(class),
        Some(ClassState::Running(_)) => classes.fail(class),
        _ => return Outcome::NotRunning,
    }
    Outcome::Ended
}

fn woken(thread: Option<u32>) -> Outcome {
    match thread {
        Some(thread) => Outcome::Thread(thread),
        None => Outcome::Nobody,
    }
}

fn state(classes: &Classes, class: u32) -> Outcome {
    match classes.state(class) {
        Some(state) => Outcome::Is(state),
        None => Outcome::NoClass,
    }
}

fn performed(
    classes: &mut Classes,
    act: Act,
    class: u32,
    thread: u32,
) -> Result<Outcome, NoMemory> {
    match act {
        Act::Ask => ask(classes, class, thread),
        Act::Done => Ok(end(classes, class, true)),
        Act::Fail => Ok(end(classes, class, false)),
        Act::Wake => Ok(woken(classes.wake_first(class))),
        Act::State => Ok(state(classes, class)),
        Act::Runs => Ok(Outcome::Truth(classes.is_running(class, thread))),
    }
}

/// The place of the first row with another outcome, where of six classes the first two are done.
pub(crate) fn first_wrong(alloc: Global, rows: &[Row]) -> Result<Option<usize>, NoMemory> {
    let mut classes = Classes::new(alloc, 6, 2)?;
    for place in 0..rows.len() {
        let (act, class, thread, outcome) = rows[place];
        if performed(&mut classes, act, class, thread)? != outcome {
            return Ok(Some(place));
        }
    }
    Ok(None)
}
