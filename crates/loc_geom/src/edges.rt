// Edges between points of the grid.

ghost use Rattle.std.specs.Prelude.{◌≡◌, IsTrue, not, IfNone, IfSome, OnSome};
ghost use Rattle.loc_spec_plane.specs.Points.{before, same_point};
ghost use Rattle.loc_spec_plane.specs.Rings.{segment_between};

use crate::points::{Point, is_before};
use std::marker::Model;

/// An edge between two different points: its lower end `lo` comes before its upper end `hi`. Edges are ordered by `lo`, then by `hi`.
#[derive(Clone, Copy, PartialEq, Eq, PartialOrd, Ord, Drop)]
pub struct Edge {
    lo: Point,
    hi: Point,
}

impl Model for Edge {
    ghost use Rattle.std.specs.Prelude.{IsTrue};
    ghost use Rattle.loc_spec_plane.specs.Points.{Edge as EdgeValue, before};

    ghost Value = { EdgeValue };

    ghost view = { λ e. record { lo = e.lo; hi = e.hi } };

    ghost invariant = { λ e. IsTrue (before e.lo e.hi) };

    ghost inverse = { λ v. record { lo = v.lo; hi = v.hi } };
}

impl Edge {
    /// The edge between two points in either order, unless they are one point.
    pub fn new(a: Point, b: Point) -> Option<Edge>
        ensures one_point { IfNone result (IsTrue (same_point a b)) }
        ensures two_points { OnSome result (IsTrue (not (same_point a b))) }
        ensures ends { IfSome result (λ e. e ≡ segment_between a b) }
        ensures goes_up { IfSome result (λ e. IsTrue (before e.lo e.hi)) }
    {
        if is_before(a, b) {
            Some(Edge { lo: a, hi: b })
        } else if is_before(b, a) {
            Some(Edge { lo: b, hi: a })
        } else {
            None
        }
    }

    /// The lower end.
    pub fn lo(&self) -> Point
        ensures { result ≡ self.now.lo }
    {
        self.lo
    }

    /// The upper end.
    pub fn hi(&self) -> Point
        ensures value { result ≡ self.now.hi }
        ensures goes_up { IsTrue (before self.now.lo self.now.hi) }
    {
        self.hi
    }
}
