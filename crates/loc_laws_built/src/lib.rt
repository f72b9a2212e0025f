//! What is written of a layer is a true index of it. The call does nothing: its contract is the law.
#![tactic(auto)]

ghost use Rattle.loc_laws_built.specs.Built.{BytesOf, ContentIsTrue, LayerFits};

/// A content of the table of a layer, of its true legend and of the versions of the tree that swept it is a true index of the layer. The edges
/// and the marks of a layer of few pieces have room in the format, and what is written of a content whose ids are bytes is bytes.
pub fn built_law()
    ensures is_true { ContentIsTrue }
    ensures fits { LayerFits }
    ensures bytes { BytesOf }
{}
