//! The part that a request addresses, as it is lent.

use jvm_base::Value;
use machine_state::{ClassState, MonitorState, Waiter};

/// An object's body, lent: its fields, its elements, or its text.
#[derive(Clone, Copy)]
pub enum BodyRef<'a> {
    Fields(&'a [Value]),
    Array(&'a [Value]),
    Text(&'a [u16]),
}

/// What a request addresses: nothing, where it makes what is new; a body; a lock's owner, and those who
/// sleep, on this lock or on others; a class's state; whether the thread of the Thread object that is
/// asked for has ended, where there is one; the output.
#[derive(Clone, Copy)]
pub enum Cell<'a> {
    Nowhere,
    Body(Option<BodyRef<'a>>),
    Lock {
        owner: Option<MonitorState>,
        waiting: &'a [Waiter],
    },
    Class(Option<ClassState>),
    Thread(Option<bool>),
    Console,
}
