//! What the answers of a table are made of: the ids, the features that touch each corner and each edge, and the lists of the features that
//! cover what lies just above an edge.
#![tactic(auto)]

mod covers;
mod exchange;
mod fault;
pub mod laws;
mod legend;
mod store;
mod touching;

pub use fault::LegendFault;
pub use legend::Legend;
