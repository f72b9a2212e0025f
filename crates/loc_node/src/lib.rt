//! The noded table of a layer: that of the pieces into which its segments are cut at the corners on them. The corners on a segment are found by
//! boxes over runs of corners.
#![tactic(auto)]

mod bounds;
mod curve;
mod fault;
mod finder;
mod guides;
mod noding;
mod pieces;
mod runs;
mod search;
mod ways;

pub use fault::NodeFault;
pub use noding::{node, node_and_repeat};
