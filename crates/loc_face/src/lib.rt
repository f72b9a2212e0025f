//! The face of a point, against a layer: its number, its outer cycle, and the cycles that hang in it.
#![tactic(auto)]

mod laws;
mod lines;
mod seeking;

pub use laws::face_law;
pub use seeking::face;
