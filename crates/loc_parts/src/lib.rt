//! A layer in parts: features that are accepted together, each with its plane, and what is left, in boxes.
#![tactic(auto)]

mod aside;
mod copying;
mod fault;
mod judging;
mod laws;
mod line;
mod parting;
mod parts;
mod placing;
mod related;
mod rest;

pub use fault::PlaneFault;
pub use judging::{judged, judged_layer};
pub use laws::{left_law, part_law};
pub use parts::{Left, Part, PartPlane, Parted};
