//! The words of a command line: the command that they are, or that they are none.
//!
//! `command_of` answers by the definition in specs/, over `clap`. Each command is a simple command of
//! `clap` for the words after the first.
#![tactic(auto)]

mod command;
mod fault;
mod parser;
mod row;
mod usage;
mod values;
mod words;

pub use command::{
    Ask, Build, Command, Edges, Face, Features, Gen, LayerFile, Query, Stab, Trial, Upgrade,
    Verify, command_of,
};
pub use fault::WordsFault;
pub use loc_gen::Kind;
pub use loc_spec_asked::{EdgeOrder, Index};
pub use loc_spec_text::Form;
pub use parser::clap_takes_commands;
pub use row::OptionKind;
pub use usage::usage_text;
