//! Laws of validity. The calls do nothing: their contracts are the laws.
#![tactic(auto)]

ghost use Rattle.loc_spec_plane.specs.Points.{Edge};
ghost use Rattle.loc_laws_valid.specs.Laws.{OneRing, InsideByList, CrossingParts, CrossingSides, LowerAtEnds, RingsCalm, PolygonsCalm, TwiceByPieces, ConflictsCross, FewerPieces, BreachesByLists};

/// Where no edge is twice, each edge has one ring, by an odd mark.
pub fn ring_law()
    ensures { OneRing }
{}

/// Where no edge is twice, what lies inside rings is told by the lists above edges.
pub fn inside_law()
    ensures inside { InsideByList }
    ensures breaches { BreachesByLists }
{}

/// Of two lines that cross at a corner, each has one part inside what the other bounds.
pub fn split_law()
    ensures parts { CrossingParts }
    ensures sides { CrossingSides }
    ensures lower { (a b : Edge) → LowerAtEnds a b }
{}

/// Where no two edges of the ring table cross, no two conflict. Where no edge is twice, no ring is pinched, and no hole is outside or in another
/// either, the same is so of the table of one polygon alone.
pub fn calm_law()
    ensures rings { RingsCalm }
    ensures polygons { PolygonsCalm }
    ensures crossing { ConflictsCross }
{}

/// The least edge that is twice is the least that stands more than once among the pieces of all segments.
pub fn twice_law()
    ensures { TwiceByPieces }
{}

/// A polygon alone has no more pieces than all rings of its feature.
pub fn pieces_law()
    ensures { FewerPieces }
{}
