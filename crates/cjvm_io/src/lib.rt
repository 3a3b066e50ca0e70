//! What a run meets outside: files by name, streams of bytes, and the gate that each burst passes.
#![tactic(auto)]

mod file_shelf;
mod gate;
mod mem_shelf;
mod reading;
mod shelf;
mod sink;
mod streams;
mod vec_sink;

pub use file_shelf::FileShelf;
pub use gate::{Gate, OpenGate};
pub use mem_shelf::MemShelf;
pub use reading::read_whole;
pub use shelf::{Shelf, ShelfErr};
pub use sink::{Failed, Sink, write_all};
pub use streams::{ErrSink, OutSink, StreamSink};
pub use vec_sink::VecSink;
