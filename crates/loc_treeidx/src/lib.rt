//! The main index: the red-black tree of a sweep, kept in all its versions, one for each corner. A point is looked for in the version
//! of the last corner before it. Source: Sarnak and Tarjan 1986, Planar Point Location Using Persistent Search Trees.
#![tactic(auto)]

pub mod laws;
mod neighbours;
mod node;
mod places;
mod tree_index;
mod version;
mod walk;

pub use tree_index::TreeIndex;
