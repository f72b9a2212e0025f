//! The laws of the vertical order of edges.
#![tactic(auto)]

pub mod laws;
