//! Whether a feature keeps the rules of validity, and its first breach where it does not.
#![tactic(auto)]

mod breach;
mod fault;
mod hits;
mod homes;
mod judging;
mod least;
mod lists;
mod parts;
mod passes;
mod pinches;
mod points;
mod polygons;
mod sweeping;
mod tables;

pub use breach::Breach;
pub use fault::ValidFault;
pub use judging::judge;
