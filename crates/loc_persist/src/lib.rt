//! Persistent search trees by limited node copying: each node has room for one pointer more, and is copied once that is
//! used. Nodes that no sealed version has are changed in place.
//! Source: Sarnak and Tarjan 1986, Planar Point Location Using Persistent Search Trees.
#![tactic(auto)]

mod copied;
pub mod laws;
mod node_row;
mod present;
mod roots;
mod store;
mod versions;

pub use loc_spec_index::NodeRow;
pub use versions::Versions;
