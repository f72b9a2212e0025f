//! The outside: files by name, and sinks of bytes, each with a count of its failures.
//!
//! `Shelf` and `Sink` say what a call does to files, bytes and counts, where these are told. Shelves
//! and sinks in memory tell all and can be made to fail; steady ones never fail; `FileShelf` and
//! `StdSink` are the real files and streams, of whose content nothing is told.
#![tactic(auto)]

mod fail_list;
mod failed;
mod file_shelf;
mod mem_file;
mod mem_shelf;
mod mem_sink;
mod shelf;
mod sink;
mod std_sink;
mod steady_shelf;
mod steady_sink;
mod trace;
mod whole;

pub use failed::Failed;
pub use file_shelf::FileShelf;
pub use mem_shelf::MemShelf;
pub use mem_sink::MemSink;
pub use shelf::Shelf;
pub use sink::{Sink, WriteFault, write_all};
pub use std_sink::StdSink;
pub use steady_shelf::SteadyShelf;
pub use steady_sink::SteadySink;
pub use whole::{ReadAllFault, read_all};
