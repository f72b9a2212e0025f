// Where a point stands against an edge.

ghost use Rattle.std.specs.Prelude.{◌≡◌, ◌-ℤ◌, ◌*ℤ◌};
ghost use Rattle.loc_spec_plane.specs.Points.{turn, is_above, is_on, is_below, lies_on};
ghost use Rattle.loc_geom.specs.Answers.{IsSide};
ghost use Rattle.loc_geom.specs.Spans.{IsSpan, IsArea};

use crate::edges::Edge;
use crate::kinds::Side;
use crate::points::{Point, is_up_to};

// The product of two differences of coordinates.
fn product(a: i128, b: i128) -> i128
    requires a_small { IsSpan a }
    requires b_small { IsSpan b }
    ensures value { result ≡ a *ℤ b }
    ensures bounded { IsArea result }
{
    a * b
}

// How far q is to the right of p.
fn run(p: Point, q: Point) -> i128
    ensures value { result ≡ q.x -ℤ p.x }
    ensures bounded { IsSpan result }
{
    i128::from(q.x() - p.x())
}

// How far q is above p.
fn rise(p: Point, q: Point) -> i128
    ensures value { result ≡ q.y -ℤ p.y }
    ensures bounded { IsSpan result }
{
    i128::from(q.y() - p.y())
}

// Twice the signed area of the triangle l, h, p: positive where p is to the left of the way from l to h.
fn turn_number(l: Point, h: Point, p: Point) -> i128
    ensures { result ≡ turn l h p }
{
    let up = product(run(l, h), rise(l, p));
    let down = product(rise(l, h), run(l, p));
    up - down
}

/// The turn of p against the edge: how far p is to the left of its way. Its sign is the side.
pub fn side_number(edge: Edge, p: Point) -> i128
    ensures { result ≡ turn edge.lo edge.hi p }
{
    turn_number(edge.lo(), edge.hi(), p)
}

// Whether p is above the edge.
pub(crate) fn stands_above(edge: Edge, p: Point) -> bool
    ensures { result ≡ is_above edge p }
{
    side_number(edge, p) > 0
}

// Whether p is below the edge.
pub(crate) fn stands_below(edge: Edge, p: Point) -> bool
    ensures { result ≡ is_below edge p }
{
    side_number(edge, p) < 0
}

/// The side of p against the line through the edge.
pub fn side(edge: Edge, p: Point) -> Side
    ensures { IsSide edge p result }
{
    let number = side_number(edge, p);
    if number < 0 {
        Side::Below
    } else if number > 0 {
        Side::Above
    } else {
        Side::On
    }
}

// Whether p is on the line through the edge.
fn is_level(edge: Edge, p: Point) -> bool
    ensures { result ≡ is_on edge p }
{
    side_number(edge, p) == 0
}

/// Whether p lies on the edge, ends included.
pub fn on(edge: Edge, p: Point) -> bool
    ensures { result ≡ lies_on edge p }
{
    is_up_to(edge.lo(), p) && is_up_to(p, edge.hi()) && is_level(edge, p)
}
