//! The order in which a query by trapezoids adds the edges of a layer: that of a file, and why a file is none, or one that is shuffled from a number.
#![tactic(auto)]

mod given;
mod lines;
mod orders;

pub use given::GivenOrder;
pub use orders::read_order_file;
