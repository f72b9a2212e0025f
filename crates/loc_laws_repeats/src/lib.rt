//! What stands in a list more than once, and the laws of it: of a list in order, by places that follow one another. The proofs stand in `proofs`.
#![tactic(auto)]
