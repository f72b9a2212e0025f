//! Which features touch and which cover the points of a text, in any layer that reads.
#![tactic(auto)]

mod answering;
mod asking;
mod gathering;
pub mod laws;
mod placing;
mod whole;

pub use asking::features;
