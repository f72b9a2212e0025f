//! Insertion and removal of a red-black tree, written once over an abstract store of rows, `Links`, so that the same
//! steps serve a tree in place and one that copies nodes. Each pointer change is one call of `change`, and is counted.
//! Source: Cormen, Leiserson, Rivest and Stein, Introduction to Algorithms, chapter 13; `change` and `kept` are for the
//! node copying of Driscoll, Sarnak, Sleator and Tarjan 1989.
#![tactic(auto)]

mod insertion;
mod laws;
mod links;
mod removal;
mod steps;

pub use insertion::insert;
pub use laws::paths_are_short;
pub use links::{Links, Path};
pub use removal::remove;
