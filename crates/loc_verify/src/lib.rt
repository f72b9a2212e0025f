//! The judge of index files: what was read is a true index, or its first flaw is shown.
#![tactic(auto)]

mod covers;
mod fault;
mod features;
mod judge;
mod kinds;
mod levels;
mod line;
mod lists;
mod marks;
mod nodes;
mod reading;
mod sources;
mod versions;

pub use fault::VerifyFault;
pub use judge::verify;
