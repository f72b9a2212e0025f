//! The trapezoidal map of a set of edges, built edge by edge (de Berg et al., chapter 6): its trapezoids by number, and for each one
//! that an edge cuts the split that tells what took its place.
#![tactic(auto)]

mod map;
mod names;
mod pieces;
mod walk;

pub use loc_spec_plane::Trap;
pub use map::{Split, Splits, Traps};
