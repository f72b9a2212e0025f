//! The sweep over a table: it finds two edges that conflict, or what lies just below each corner and each edge.
#![tactic(auto)]

mod coming;
mod corners;
mod fault;
mod leaving;
mod neighbours;
mod notes;

pub use corners::sweep;
pub use fault::SweepFault;
