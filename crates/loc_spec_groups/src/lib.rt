//! The definitions of dissolved groups and of their text. The crate holds no program.
#![tactic(auto)]
