//! Laws of what is written, as calls that do no work: their contracts are the laws.

ghost use Rattle.loc_write.specs.Written.{ContentHoldsParts};

/// A content of a table, a legend and versions holds the table, and says of each edge what the legend says.
pub fn content_holds_parts()
    ensures { ContentHoldsParts }
{}
