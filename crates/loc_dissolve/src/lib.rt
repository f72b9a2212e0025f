//! The groups of a layer without their inner borders: features with one id are dissolved into the polygons that they cover together.
#![tactic(auto)]

mod chosen;
mod crossing;
mod dissolving;
mod groups;
mod ids;
mod kept;
mod polygons;
mod rows;
mod subdivided;
mod texts;

pub use dissolving::dissolve;
pub use groups::{Dissolved, Group, Polygon, Ring};
pub use texts::write_dissolved;
