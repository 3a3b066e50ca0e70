//! Monitors and waiting, by the rules of the standard's chapter on threads and locks.

use crate::rows::Act::{Count, Enter, Exit, Notify, NotifyAll, Wait, Wake};
use crate::rows::Outcome::{Done, Many, Nobody, NotOwner, Queued, Thread};
use crate::rows::{Row, first_wrong};
use std::test::Fail;

/// One owner, counted; another one gets the monitor after the last exit, in the order of requests.
const OWNERS: [Row; 17] = [
    (Enter, 7, 0, Done),
    (Enter, 7, 0, Done),
    (Enter, 8, 1, Done),
    (Enter, 8, 3, Queued),
    (Enter, 7, 2, Queued),
    (Enter, 7, 1, Queued),
    (Count, 7, 0, Many(2)),
    (Exit, 7, 1, NotOwner),
    (Exit, 7, 0, Done),
    (Wake, 7, 0, Nobody),
    (Exit, 7, 0, Done),
    (Exit, 7, 0, NotOwner),
    (Wake, 7, 0, Thread(2)),
    (Wake, 7, 0, Nobody),
    (Exit, 7, 2, Done),
    (Wake, 7, 0, Thread(1)),
    (Count, 7, 1, Many(1)),
];

/// A wait gives up all entries, and they are retaken once it was notified and the monitor is free.
const RETAKEN: [Row; 14] = [
    (Wait, 7, 0, NotOwner),
    (Notify, 7, 0, NotOwner),
    (NotifyAll, 7, 0, NotOwner),
    (Enter, 7, 0, Done),
    (Enter, 7, 0, Done),
    (Wait, 7, 0, Done),
    (Count, 7, 0, NotOwner),
    (Wake, 7, 0, Nobody),
    (Enter, 7, 1, Done),
    (Notify, 7, 1, Thread(0)),
    (Notify, 7, 1, Nobody),
    (Exit, 7, 1, Done),
    (Wake, 7, 0, Thread(0)),
    (Count, 7, 0, Many(2)),
];

/// All who wait for the monitor are woken, in their order, and nobody who waits for another one.
const ALL: [Row; 13] = [
    (Enter, 7, 4, Done),
    (Wait, 7, 4, Done),
    (Enter, 8, 2, Done),
    (Wait, 8, 2, Done),
    (Enter, 7, 3, Done),
    (Wait, 7, 3, Done),
    (Enter, 7, 5, Done),
    (NotifyAll, 7, 5, Many(2)),
    (NotifyAll, 7, 5, Many(0)),
    (Exit, 7, 5, Done),
    (Wake, 7, 0, Thread(4)),
    (Exit, 7, 4, Done),
    (Wake, 7, 0, Thread(3)),
];

#[test]
fn monitors_and_waiting(rt: HostRuntime) -> Result<(), Fail> {
    assert_eq!(rt; first_wrong(rt.alloc(), &OWNERS)?, None);
    assert_eq!(rt; first_wrong(rt.alloc(), &RETAKEN)?, None);
    assert_eq!(rt; first_wrong(rt.alloc(), &ALL)?, None);
    Ok(())
}
