//! Laws of rays, of parity along an edge, and of cover lists. The calls do nothing: their contracts are the laws.
#![tactic(auto)]

ghost use Rattle.loc_laws_rays.specs.Laws.{RayLawOfSegment, RayLawOfRing, RayLawOfEdges, ParityAlongEdge, CoverLaw, TouchLaw};

/// The ray to the right and the ray straight down from a point agree on segments, closed rings and even lists of edges.
pub fn ray_law()
    ensures segment { RayLawOfSegment }
    ensures ring { RayLawOfRing }
    ensures edges { RayLawOfEdges }
{}

/// The cover list of a point's place is the list of the features that cover it, since the parity at or under an edge stays along it. What
/// touches the place of a point touches the point.
pub fn cover_law()
    ensures parity { ParityAlongEdge }
    ensures covers { CoverLaw }
    ensures touches { TouchLaw }
{}
