//! The tables of a layer: its corners and its edges, in order and each once, and the marks and the source of each edge.
#![tactic(auto)]

mod floors;
mod grouped;
mod marks;
mod numbers;
mod ranges;
mod ranks;
mod rows;
mod segments;
mod sorted;
mod table;
mod tables;
mod views;

pub use floors::Floors;
pub use grouped::distinct_edges;
pub use loc_spec_plane::Mark;
pub use numbers::numbered_ends;
pub use ranks::{Placing, Ranks};
pub use rows::Rows;
pub use sorted::sorted_segments;
pub use table::EdgeTable;
pub use tables::{corners_between, edges};
pub use views::Views;
