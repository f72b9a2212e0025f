//! The rules of validity, feature by feature, against a layer: for each feature the first rule that it breaks, or that it breaks none.
#![tactic(auto)]

mod judging;
mod laws;
mod lines;

pub use judging::valid;
pub use laws::valid_law;
