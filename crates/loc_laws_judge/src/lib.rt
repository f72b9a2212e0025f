//! What a judge finds in an index, computed from what the index holds, and that it is the first flaw of the definitions. The call does nothing: its contract is the law.
#![tactic(auto)]

ghost use Rattle.loc_laws_judge.specs.FirstFlaw.{FilesAreReadable, NoneIsTrue, TrueHasNone, FoundIsFirst, FirstIsFound};

/// The flaw that is computed of a content is its first, and none is computed exactly of a true index. What a file holds can be judged.
pub fn first_flaw_law()
    ensures file { FilesAreReadable }
    ensures none { NoneIsTrue }
    ensures is_true { TrueHasNone }
    ensures found { FoundIsFirst }
    ensures same { FirstIsFound }
{}
