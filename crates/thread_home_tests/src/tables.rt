//! Threads, by the rules of the class Thread: one is started once, and a join waits for its end.

use crate::rows::Act::{End, Goes, Join, Start, Wake};
use crate::rows::Outcome::{
    Ended, Full, Joined, Nobody, NotGoing, Number, Queued, StartedBefore, Thread, Truth,
};
use crate::rows::{Row, first_wrong, most};
use std::test::Fail;

/// Threads are numbered as they are started, each once, also after its end.
const STARTED: [Row; 12] = [
    (Goes, 0, 0, Truth(true)),
    (Goes, 0, 1, Truth(false)),
    (Start, 5, 0, Number(1)),
    (Start, 3, 0, Number(2)),
    (Start, 5, 0, StartedBefore),
    (Start, 0, 0, StartedBefore),
    (Goes, 0, 2, Truth(true)),
    (End, 0, 1, Ended),
    (Goes, 0, 1, Truth(false)),
    (End, 0, 1, NotGoing),
    (End, 0, 3, NotGoing),
    (Start, 5, 0, StartedBefore),
];

/// A join waits while the thread goes on, and not for one that has ended or was never started; those
/// that wait are woken in their order, each by the end of its thread.
const JOINED: [Row; 16] = [
    (Join, 7, 0, Joined),
    (Start, 7, 0, Number(1)),
    (Start, 8, 0, Number(2)),
    (Join, 7, 2, Queued),
    (Join, 8, 1, Queued),
    (Join, 7, 0, Queued),
    (Wake, 7, 0, Nobody),
    (End, 0, 1, Ended),
    (Wake, 8, 0, Nobody),
    (Wake, 7, 0, Thread(2)),
    (Wake, 7, 0, Thread(0)),
    (Wake, 7, 0, Nobody),
    (Join, 7, 2, Joined),
    (End, 0, 2, Ended),
    (Wake, 8, 0, Thread(1)),
    (Wake, 9, 0, Nobody),
];

#[test]
fn threads(rt: HostRuntime) -> Result<(), Fail> {
    assert_eq!(rt; first_wrong(rt.alloc(), &STARTED)?, None);
    assert_eq!(rt; first_wrong(rt.alloc(), &JOINED)?, None);
    Ok(())
}

#[test]
fn sixty_four_at_most(rt: HostRuntime) -> Result<(), Fail> {
    assert_eq!(rt; most(rt.alloc())?, (63, Full));
    Ok(())
}
