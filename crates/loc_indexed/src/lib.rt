//! An index as a file: it is made of a layer, and a file is judged, and asked for the places of points, whoever made it.
#![tactic(auto)]

mod asking;
mod building;
mod flaws;
mod indexes;
mod laws;
mod lines;
mod verifying;

pub use asking::ask;
pub use building::build;
pub use indexes::read_index_file;
pub use laws::{ask_law, build_law, verify_law};
pub use verifying::verify;
