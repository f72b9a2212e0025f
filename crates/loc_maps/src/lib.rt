//! The layer of a command: its file, its plane, and why it is refused. The check of a layer.
#![tactic(auto)]

mod checking;
mod laws;
mod lines;
mod maps;
mod plane;
mod statuses;
mod sweeping;

pub use checking::check;
pub use laws::check_law;
pub use lines::{covers_line, layer_stop_of, pieces_line};
pub use maps::{read_features_file, read_layer_file};
pub use plane::{Plane, judge, judge_layer, judge_over};
pub use statuses::FreshStatus;
pub use sweeping::{SweptTable, layer_table, sweep_layer, sweep_table};
