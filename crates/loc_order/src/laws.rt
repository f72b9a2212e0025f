//! The laws, as calls that do nothing: their contracts are the laws. Lists are ghost values.

ghost use Rattle.std.specs.Prelude.{◌≡◌, List, IsTrue, not, ◌&&◌, ◌||◌};
ghost use Rattle.std.specs.List.{list_all};
ghost use Rattle.loc_spec_plane.specs.Lists.{exactly_one};
ghost use Rattle.loc_spec_plane.specs.Points.{Edge as EdgeValue, before, up_to, same_point, same_edge, is_above, is_below, conflict};
ghost use Rattle.loc_spec_plane.specs.Places.{alive, lower, is_chain};
ghost use Rattle.loc_order.specs.TwoPlaces.{TwoPlaces, AreInOrder, EachTwo};

use loc_geom::{Edge, Point};

/// Of two different edges alive at p that do not conflict, exactly one is lower.
pub fn total(a: Edge, b: Edge, p: Point)
    requires different { IsTrue (not (same_edge a b)) }
    requires apart { IsTrue (not (conflict a b)) }
    requires a_alive { IsTrue (alive a p) }
    requires b_alive { IsTrue (alive b p) }
    ensures { IsTrue (exactly_one (lower a b) (lower b a)) }
{}

/// Of two edges of a chain at p that do not conflict, the earlier is lower.
pub fn chain(p: Point)
    ghost two: { TwoPlaces }
    requires chain_at_p { IsTrue (is_chain p two.edges) }
    requires places { AreInOrder two }
    requires apart { IsTrue (not (conflict two.a two.b)) }
    ensures { IsTrue (lower two.a two.b) }
{}

/// A chain at p keeps its order at p and at c, a later point that none of its edges ends before: where the point is above or on
/// an edge it is above each earlier one, unless both begin at p or both end at c. Two of its edges that end at c do not conflict.
pub fn monotone(p: Point, c: Point)
    ghost edges: { List EdgeValue }
    requires chain_at_p { IsTrue (is_chain p edges) }
    requires later { IsTrue (before p c) }
    requires reaching { IsTrue (list_all (λ (e : EdgeValue). up_to c e.hi) edges) }
    ensures here { EachTwo edges (λ a b. IsTrue (not (is_below b p)) → IsTrue (is_above a p || (same_point p a.lo && same_point p b.lo))) }
    ensures there { EachTwo edges (λ a b. IsTrue (not (is_below b c)) → IsTrue (is_above a c || (same_point c a.hi && same_point c b.hi))) }
    ensures ends { EachTwo edges (λ a b. IsTrue (same_point c a.hi) → IsTrue (same_point c b.hi) → IsTrue (not (conflict a b))) }
{}
