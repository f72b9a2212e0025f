//! A page of bytes before a sink, and one before a file that a shelf makes.
//!
//! What is written in small pieces is held back until the page is full, so that the sink or the shelf gets it in large ones. No memory is taken.
#![tactic(auto)]

mod file_page;
mod held;

pub use file_page::FilePage;
pub use held::Page;
