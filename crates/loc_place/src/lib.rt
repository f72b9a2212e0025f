//! The places of points in a table, the search among its corners, and the trait of an index that finds places.
#![tactic(auto)]

mod corners;
pub mod laws;
mod locator;

pub use corners::{Standing, search_corners};
pub use loc_spec_plane::Place;
pub use locator::{Deep, Locator};
