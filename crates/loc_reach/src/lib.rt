//! The edges that the spans of a file meet, against a layer.
#![tactic(auto)]

mod answering;
mod laws;
mod stabbing;

pub use laws::stab_law;
pub use stabbing::stab;
