//! The groups of a layer's features, against a layer: features with one id are written as the polygons that they cover together.
#![tactic(auto)]

mod dissolving;
mod laws;

pub use dissolving::dissolve;
pub use laws::dissolve_law;
