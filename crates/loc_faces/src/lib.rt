//! The faces of a table: which cycles are outer ones, in which faces the others hang, and the text of a face.
#![tactic(auto)]

mod cycles;
mod faces;
mod faults;
mod laws;
mod nesting;
mod texts;

pub use faces::Faces;
pub use faults::FaceFault;
pub use laws::{lines_law, subdivision_law};
pub use texts::{put_position, write_face};
