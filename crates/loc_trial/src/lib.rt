//! Generated layers as commands: the text of one, and a trial of an index on its points.
#![tactic(auto)]

mod counts;
mod laws;
mod layers;
mod lines;
mod points;
mod trying;

pub use laws::{gen_law, generated_law, trial_law};
pub use layers::generate;
pub use trying::trial;
