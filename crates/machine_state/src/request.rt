//! What a step asks of a part of the state that threads share, and what it is answered.

use jvm_base::{List, Name, Units, Value};

/// What a step asks. A field or an element (by its index) is read or written, a byte, char, short or
/// boolean already narrowed; an array is measured; an object of a class, an array of these sizes (the
/// outermost first), a String, or an exception of a class is made; a lock is entered, left (`true`
/// where an exception passes), waited on, or its waiters are woken; a class's initialisation begins,
/// is done, or has failed (`true` where another exception takes the place of one that isn't an
/// Error); a thread is started, waited for, or ends with the exception that nothing caught; the
/// native method of a StringBuffer is called, by its number, with a text; a text is printed.
#[derive(Drop)]
pub enum Request {
    Get(Name, u32),
    Put(Name, u32, Value),
    Load(Name, i32),
    Store(Name, i32, Value),
    Len(Name),
    Make(u32, List<u32>),
    MakeText(Units),
    Fault(u32),
    Enter(Name),
    Exit(Name, bool),
    Wait(Name),
    Notify(Name),
    NotifyAll(Name),
    Begin(u32),
    InitDone(u32),
    InitFail(u32, bool),
    Start(Name),
    Join(Name),
    Finish(Option<Name>),
    Buffer(Name, u8, Units),
    Print(Units),
}

/// What a request is answered: a value or none; an exception; or that the thread sleeps, with the
/// count of its lock.
#[derive(Clone, Copy, Debug, PartialEq, Eq)]
pub enum Answer {
    Gives(Option<Value>),
    Raises(Name),
    Slept(u32),
}
