//! Laws of the predicates, as calls that do no work: their contracts are the laws.
//!
//! 1. The derived order of points goes by x, then by y, and that of edges by `lo`, then by `hi`.
//! 2. A point has one side of an edge.
//! 3. Of two edges that begin together, the upper end of one is above the other exactly where the other's is below the first.
//! 4. `conflict` does not depend on the order of the two edges.
//! 5. Of two edges not both are lower than the other.

ghost use Rattle.std.specs.Prelude.{◌≡◌, IsTrue, not, ◌&&◌};
ghost use Rattle.std.specs.Ordering.{MatchOrdering};
ghost use Rattle.loc_spec_plane.specs.Points.{before, same_point, edge_before, is_above, is_on, is_below, touch, cross, conflict};
ghost use Rattle.loc_spec_plane.specs.Places.{lower};

use crate::edges::Edge;
use crate::points::Point;
use std::cmp::Ordering;

/// The derived order of points, which sorting goes by.
pub fn point_order(p: Point, q: Point) -> Ordering
    ensures { MatchOrdering result (IsTrue (before p q)) (p ≡ q) (IsTrue (before q p)) }
{
    p.cmp(&q)
}

/// The derived order of edges, which sorting goes by.
pub fn edge_order(a: Edge, b: Edge) -> Ordering
    ensures { MatchOrdering result (IsTrue (edge_before a b)) (a ≡ b) (IsTrue (edge_before b a)) }
{
    a.cmp(&b)
}

/// A point is on the line of an edge exactly where it is neither above nor below, and never both above and below.
pub fn side_is_one(edge: Edge, p: Point)
    ensures on { is_on edge p ≡ (not (is_above edge p) && not (is_below edge p)) }
    ensures one { IsTrue (not (is_above edge p && is_below edge p)) }
{}

/// The side turns where two edges that begin together change places.
pub fn side_turns(a: Edge, b: Edge)
    requires common { IsTrue (same_point a.lo b.lo) }
    ensures above { is_above a b.hi ≡ is_below b a.hi }
    ensures on { is_on a b.hi ≡ is_on b a.hi }
    ensures below { is_below a b.hi ≡ is_above b a.hi }
{}

/// Two edges meet alike in either order.
pub fn conflict_symmetry(a: Edge, b: Edge)
    ensures both { conflict a b ≡ conflict b a }
    ensures touching { touch a b ≡ touch b a }
    ensures crossing { cross a b ≡ cross b a }
{}

/// No two edges are each lower than the other.
pub fn lower_asymmetry(a: Edge, b: Edge)
    ensures { IsTrue (not (lower a b && lower b a)) }
{}
