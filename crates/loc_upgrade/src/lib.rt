//! An index file of either version as one of the second, and the edges of an index with their sources.
#![tactic(auto)]

mod laws;
mod lines;
mod listing;
mod upgrading;

pub use laws::{edges_law, upgrade_law};
pub use listing::edges;
pub use upgrading::upgrade;
