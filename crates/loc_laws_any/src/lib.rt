//! Laws of layers whose edges may conflict: direct containment by the segments of a moment, boxes about features, and parts of a layer. The
//! calls do nothing: their contracts are the laws.
#![tactic(auto)]

ghost use Rattle.loc_laws_any.specs.Boxes.{BoxLaw};
ghost use Rattle.loc_laws_any.specs.Moments.{CoversAtMoment, TouchesAtMoment};
ghost use Rattle.loc_laws_any.specs.Unions.{Joined, PartAnswers, UnionOfParts};

/// Of closed rings direct containment looks at the segments of a point's moment alone.
pub fn moment_law()
    ensures touches { TouchesAtMoment }
    ensures covers { CoversAtMoment }
{}

/// Outside a box about its segments a feature of closed rings neither touches nor covers a point.
pub fn box_law()
    ensures { BoxLaw }
{}

/// The answers of parts that have every feature of a layer between them, and no others, by the numbers of the layer and sorted, are the answer
/// of the layer.
pub fn union_law()
    ensures joined { Joined }
    ensures part { PartAnswers }
    ensures parts { UnionOfParts }
{}
