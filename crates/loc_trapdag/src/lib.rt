//! The trapezoidal index (de Berg et al., chapter 6): the edges of a table are added one after another, in any order, and each trapezoid
//! that an edge cuts leads to its pieces.
#![tactic(auto)]

mod index;
mod order;
mod reading;
mod turn;

pub use index::TrapIndex;
pub use order::{Order, OrderFault};
