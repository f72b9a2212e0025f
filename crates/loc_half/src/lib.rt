//! The half-edges of a table: the next of each, its origin, and the leader of its cycle.
#![tactic(auto)]

mod half_edges;
mod leaders;
mod nexts;
mod turns;

pub use half_edges::HalfEdges;
