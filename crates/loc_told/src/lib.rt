//! What a command answers whose files are told: words and laws that the clauses of a run share. The crate holds no program.
#![tactic(auto)]
