//! The definitions of the breaches of a feature, and their texts. The crate holds no program.
#![tactic(auto)]
