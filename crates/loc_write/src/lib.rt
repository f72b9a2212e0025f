//! The index as a file: what a sweep and a legend left is written as the bytes of an index file, row by row, from the tables as they are.
#![tactic(auto)]

mod by_rows;
mod facts;
pub mod laws;
mod parts;
mod rows;
mod writer;

pub use by_rows::write_rows;
pub use loc_io::WriteFault;
pub use writer::write_index;
