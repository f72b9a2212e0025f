//! What the features at points are, as a call that does no work: its contract is the law.

ghost use Rattle.loc_features.specs.Queries.{QueryLaw};

/// A query names the same features as stand here.
pub fn query_law()
    ensures { QueryLaw }
{}
