//! The status of a sweep: the edges that the sweep line meets, from the lowest to the highest.
#![tactic(auto)]

mod places;
mod search;
mod status;
mod targets;
mod vec_status;

pub use status::{Beside, InsertFault, Status};
pub use targets::Target;
pub use vec_status::VecStatus;
