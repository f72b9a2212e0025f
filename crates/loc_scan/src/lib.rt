//! The plain locator, which looks at corners and edges one after another, and the index that keeps the list at each corner.
#![tactic(auto)]

mod corners;
mod edges;
mod scan;
mod vec_index;
mod versions;

pub use scan::Scan;
pub use vec_index::VecIndex;
