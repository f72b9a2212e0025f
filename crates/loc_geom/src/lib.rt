//! Exact predicates on points and edges of the grid, and the laws that callers may rely on. Coordinates are whole numbers; a test is
//! made in 128 bits, so nothing is rounded and nothing overflows.
#![tactic(auto)]

mod edges;
mod kinds;
pub mod laws;
mod meetings;
mod points;
mod predicates;
mod steps;

pub use edges::Edge;
pub use kinds::{Meeting, Side};
pub use meetings::{conflict, lower};
pub use points::{Point, is_before};
pub use predicates::{on, side, side_number};
pub use steps::Steps;
