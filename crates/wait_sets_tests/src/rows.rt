//! A table of what threads do, and what comes of it.

use cluster_monitor::{Entered, Monitors};
use jvm_base::{Name, NoMemory};
use std::alloc::Global;
use wait_sets::{WaitErr, WaitSets, notify, notify_all, wait};

#[derive(Clone, Copy)]
pub(crate) enum Act {
    Enter,
    Exit,
    Wake,
    Wait,
    Notify,
    NotifyAll,
    Count,
}

#[derive(Clone, Copy, PartialEq, Eq)]
pub(crate) enum Outcome {
    Done,
    Queued,
    NotOwner,
    Nobody,
    Thread(u32),
    Many(u64),
}

/// The act, the number of the lock, the thread, and the outcome.
pub(crate) type Row = (Act, u32, u32, Outcome);

fn of_wait<T: Copy>(answer: Result<T, WaitErr>, outcome: Outcome) -> Result<Outcome, NoMemory> {
    match answer {
        Ok(_) => Ok(outcome),
        Err(WaitErr::NotOwner) => Ok(Outcome::NotOwner),
        Err(WaitErr::NoMemory) => Err(NoMemory),
    }
}

fn of_thread(thread: Option<u32>) -> Outcome {
    match thread {
        Some(thread) => Outcome::Thread(thread),
        None => Outcome::Nobody,
    }
}

fn performed(
    monitors: &mut Monitors,
    sets: &mut WaitSets,
    act: Act,
    lock: u32,
    thread: u32,
) -> Result<Outcome, NoMemory> {
    let name = Name {
        node: 1,
        class: 5,
        index: lock,
    };
    match act {
        Act::Enter => match monitors.enter(name, thread)? {
            Entered::Entered => Ok(Outcome::Done),
            Entered::Queued => Ok(Outcome::Queued),
        },
        Act::Exit => match monitors.exit(name, thread) {
            Ok(()) => Ok(Outcome::Done),
            Err(_) => Ok(Outcome::NotOwner),
        },
        Act::Wake => Ok(of_thread(monitors.wake_first(name))),
        Act::Wait => of_wait(wait(monitors, sets, name, thread), Outcome::Done),
        Act::Notify => {
            let moved = notify(monitors, sets, name, thread);
            of_wait(moved, of_thread(moved.unwrap_or(None)))
        }
        Act::NotifyAll => {
            let moved = notify_all(monitors, sets, name, thread);
            of_wait(moved, Outcome::Many(u64::from(moved.unwrap_or(0))))
        }
        Act::Count => match monitors.count(name, thread) {
            Ok(count) => Ok(Outcome::Many(count)),
            Err(_) => Ok(Outcome::NotOwner),
        },
    }
}

/// The place of the first row with another outcome, where nobody owns anything before the first.
pub(crate) fn first_wrong(alloc: Global, rows: &[Row]) -> Result<Option<usize>, NoMemory> {
    let mut monitors = Monitors::new(alloc);
    let mut sets = WaitSets::new(alloc);
    for place in 0..rows.len() {
        let (act, lock, thread, outcome) = rows[place];
        if performed(&mut monitors, &mut sets, act, lock, thread)? != outcome {
            return Ok(Some(place));
        }
    }
    Ok(None)
}
