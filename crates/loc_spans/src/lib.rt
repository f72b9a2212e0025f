//! Segments by their spans of moments: those whose span holds a point, one after the other, and which features of a layer touch and cover it.
#![tactic(auto)]

mod boxes;
mod extents;
mod making;
mod parities;
mod ranges;
mod search;
mod segments;
mod spans;

pub use boxes::{Boxed, Extent};
pub use spans::Spans;
