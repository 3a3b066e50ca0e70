//! Initialisation of classes, by the rules of the standard's section on it (JVMS2 2.17.5).

use crate::rows::Act::{Ask, Done, Fail, Runs, State, Wake};
use crate::rows::Outcome::{Ended, Is, NoClass, Nobody, NotRunning, Thread, Told, Truth};
use crate::rows::{Row, first_wrong};
use class_init::Asked::{Failed, Proceed, Queued, Run};
use machine_state::ClassState;
use std::test::Fail as Failure;

/// The first classes are done from the start, the others untouched, and past the last there is none.
const FIRST: [Row; 8] = [
    (State, 0, 0, Is(ClassState::Done)),
    (State, 1, 0, Is(ClassState::Done)),
    (State, 2, 0, Is(ClassState::Untouched)),
    (State, 5, 0, Is(ClassState::Untouched)),
    (State, 6, 0, NoClass),
    (Ask, 1, 7, Told(Proceed)),
    (Done, 1, 0, NotRunning),
    (Fail, 2, 0, NotRunning),
];

/// One thread runs the initialiser, which goes on where it asks again; others are queued in the order
/// in which they came, each for its class, and woken once the initialiser has ended.
const RUN: [Row; 19] = [
    (Ask, 3, 4, Told(Run)),
    (State, 3, 0, Is(ClassState::Running(4))),
    (Runs, 3, 4, Truth(true)),
    (Runs, 3, 5, Truth(false)),
    (Ask, 3, 4, Told(Proceed)),
    (Ask, 3, 5, Told(Queued)),
    (Ask, 4, 6, Told(Run)),
    (Ask, 4, 2, Told(Queued)),
    (Ask, 3, 1, Told(Queued)),
    (Wake, 3, 0, Nobody),
    (Done, 3, 0, Ended),
    (Runs, 3, 4, Truth(false)),
    (Wake, 3, 0, Thread(5)),
    (Ask, 3, 5, Told(Proceed)),
    (Wake, 3, 0, Thread(1)),
    (Wake, 3, 0, Nobody),
    (Wake, 4, 0, Nobody),
    (Done, 4, 0, Ended),
    (Wake, 4, 0, Thread(2)),
];

/// A class whose initialiser failed has failed for all, and isn't run again.
const FAILED: [Row; 9] = [
    (Ask, 5, 0, Told(Run)),
    (Ask, 5, 1, Told(Queued)),
    (Fail, 5, 0, Ended),
    (State, 5, 0, Is(ClassState::Failed)),
    (Ask, 5, 0, Told(Failed)),
    (Wake, 5, 0, Thread(1)),
    (Ask, 5, 1, Told(Failed)),
    (Done, 5, 0, NotRunning),
    (State, 4, 0, Is(ClassState::Untouched)),
];

#[test]
fn initialisation(rt: HostRuntime) -> Result<(), Failure> {
    assert_eq!(rt; first_wrong(rt.alloc(), &FIRST)?, None);
    assert_eq!(rt; first_wrong(rt.alloc(), &RUN)?, None);
    assert_eq!(rt; first_wrong(rt.alloc(), &FAILED)?, None);
    Ok(())
}
