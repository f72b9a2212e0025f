//! The index as a file: its bytes are read as exactly the content that they hold, or, want of memory aside, refused by their first fault, and
//! what was read is asked for the places of points. Nobody has to trust the bytes.
#![tactic(auto)]

mod corners;
mod covers;
mod cursor;
mod edges;
mod floors;
mod header;
mod held;
mod ids;
pub mod laws;
mod marks;
mod nodes;
mod parts;
mod rows;
mod search;

pub use held::{Held, read_index, write_held};
pub use loc_spec_index::{IndexFault, NodeRow, Part};
pub use loc_write::{WriteFault, write_index};
