//! The forms of a layer text: a geometry text a line, whose number from 1 is the feature's id, or records in CSV, whose header names the
//! columns of the geometry texts and of the ids.
#![tactic(auto)]

mod csv_form;
mod faults;
mod line_form;
mod reader;
mod records;
mod rows;

pub use faults::LayerFault;
pub use loc_spec_text::Form;
pub use reader::read_layer;
