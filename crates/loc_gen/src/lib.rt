//! Generated layers: rectangles of a kind, a size and a shift, written as a layer text, and the points that are asked of them.
#![tactic(auto)]

mod features;
mod kinds;
mod layers;
mod lines;
mod points;

pub use kinds::Kind;
pub use layers::{GenFault, gen_layer};
pub use points::gen_point;
