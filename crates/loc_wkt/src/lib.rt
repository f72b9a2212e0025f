//! Well-known text (OGC 06-103r4): its tokens, its number texts at any scale and grid values in print, and the readers of geometry texts
//! and of point and span lines.
#![tactic(auto)]

mod geometry;
mod grid_numbers;
mod grid_texts;
mod lines;
mod lists;
mod marks;
mod numbers;
mod points;
mod spans;
mod tokens;
mod values;

pub use geometry::read_geometry;
pub use grid_numbers::{GridNumber, grid_number, is_number};
pub use grid_texts::{print_grid, put_grid};
pub use lines::{is_blank, next_line};
pub use loc_spec_text::TextFault;
pub use points::read_point;
pub use spans::read_span;
pub use tokens::{Token, Tokens};
