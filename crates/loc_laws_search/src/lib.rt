//! The law of the search in an index. The call does nothing: its contract is the law.
#![tactic(auto)]

ghost use Rattle.loc_spec_index.specs.Laws.{SearchFindsPlace};

/// In a true index the search of a point finds its place. Source: Sarnak and Tarjan 1986, Planar Point Location Using Persistent Search
/// Trees.
pub fn place_law()
    ensures { SearchFindsPlace }
{}
