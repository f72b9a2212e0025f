// Points of the grid, and their order.

ghost use Rattle.std.specs.Prelude.{◌≡◌, IfNone, IfSome};
ghost use Rattle.loc_spec_plane.specs.Points.{before, up_to, same_point, point_at, OnGrid, IsGridPoint};

use std::marker::Model;

/// A point of the grid: both coordinates are within 10^18. Points are ordered by x, then by y.
#[derive(Clone, Copy, PartialEq, Eq, PartialOrd, Ord, Drop)]
pub struct Point {
    x: i64,
    y: i64,
}

impl Model for Point {
    ghost use Rattle.loc_spec_plane.specs.Points.{Point as PointValue, OnGrid, point_at};

    ghost Value = { PointValue };

    ghost view = { λ p. point_at p.x p.y };

    ghost invariant = { λ p. OnGrid p.x × OnGrid p.y };

    ghost inverse = { λ v. record { x = v.x; y = v.y } };
}

// The grid goes from -LIMIT to LIMIT both ways.
const LIMIT: i64 = 1_000_000_000_000_000_000;

impl Point {
    /// The point with these coordinates, unless one of them is off the grid.
    pub fn new(x: i64, y: i64) -> Option<Point>
        ensures off_grid { IfNone result (¬ (IsGridPoint (point_at x y))) }
        ensures made { IfSome result (λ p. p ≡ point_at x y) }
        ensures on_grid { IfSome result IsGridPoint }
    {
        if x < -LIMIT || x > LIMIT || y < -LIMIT || y > LIMIT {
            return None;
        }
        Some(Point { x, y })
    }

    /// The first coordinate.
    pub fn x(&self) -> i64
        ensures value { result ≡ self.now.x }
        ensures on_grid { OnGrid result }
    {
        self.x
    }

    /// The second coordinate.
    pub fn y(&self) -> i64
        ensures value { result ≡ self.now.y }
        ensures on_grid { OnGrid result }
    {
        self.y
    }
}

/// Whether p comes before q: by x, then by y.
pub fn is_before(p: Point, q: Point) -> bool
    ensures { result ≡ before p q }
{
    p.x() < q.x() || (p.x() == q.x() && p.y() < q.y())
}

// Whether p is q or comes before it.
pub(crate) fn is_up_to(p: Point, q: Point) -> bool
    ensures { result ≡ up_to p q }
{
    !is_before(q, p)
}

// Whether p and q are one point.
pub(crate) fn is_same(p: Point, q: Point) -> bool
    ensures { result ≡ same_point p q }
{
    p.x() == q.x() && p.y() == q.y()
}
