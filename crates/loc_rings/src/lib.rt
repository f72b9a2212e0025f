//! Features as rings of points, and which points a feature touches and covers, by looking at every segment.
#![tactic(auto)]

mod alone;
mod containment;
mod cut;
mod features;
mod layers;
mod rings;

pub use containment::{covers, touches};
pub use features::Feature;
pub use layers::Layer;
pub use loc_laws_rays::ray_law;
pub use rings::Rings;
