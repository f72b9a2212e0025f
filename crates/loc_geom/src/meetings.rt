// How two edges meet, and which of them is lower.

ghost use Rattle.std.specs.Prelude.{◌≡◌, ◌&&◌, ◌||◌, int_lt, pos};
ghost use Rattle.loc_spec_plane.specs.Points.{inside, ends_inside, touch, is_on, lies_on, turn as turn_of};
ghost use Rattle.loc_spec_plane.specs.Places.{lower as lower_of};
ghost use Rattle.loc_geom.specs.Answers.{IsMeeting};

use crate::edges::Edge;
use crate::kinds::Meeting;
use crate::points::{Point, is_before, is_same, is_up_to};
use crate::predicates::{side_number, stands_above, stands_below};

// Whether a point is on the line through the edge, by its turn against the edge.
fn is_on_line(edge: Edge, p: Point, turn: i128) -> bool
    requires turn { turn ≡ turn_of edge.lo edge.hi p }
    ensures { result ≡ is_on edge p }
{
    turn == 0
}

// Whether a point lies on the edge, ends included, by its turn against the edge.
fn lies_on_it(edge: Edge, p: Point, turn: i128) -> bool
    requires turn { turn ≡ turn_of edge.lo edge.hi p }
    ensures { result ≡ lies_on edge p }
{
    is_on_line(edge, p, turn) && is_up_to(edge.lo(), p) && is_up_to(p, edge.hi())
}

// Whether a point lies on the edge and is no end of it, by its turn against the edge.
fn lies_inside(edge: Edge, p: Point, turn: i128) -> bool
    requires turn { turn ≡ turn_of edge.lo edge.hi p }
    ensures { result ≡ inside edge p }
{
    lies_on_it(edge, p, turn) && !(is_same(p, edge.lo()) || is_same(p, edge.hi()))
}

// Whether an end of a lies on b and is no end of b, by the turns of the ends.
fn ends_on(a: Edge, b: Edge, turns: (i128, i128)) -> bool
    requires lower { turns.0 ≡ turn_of b.lo b.hi a.lo }
    requires upper { turns.1 ≡ turn_of b.lo b.hi a.hi }
    ensures { result ≡ ends_inside a b }
{
    lies_inside(b, a.lo(), turns.0) || lies_inside(b, a.hi(), turns.1)
}

// Whether two turns have opposite signs.
fn are_opposite(turns: (i128, i128)) -> bool
    ensures { result ≡ ((int_lt (pos 0) turns.0 && int_lt turns.1 (pos 0)) || (int_lt turns.0 (pos 0) && int_lt (pos 0) turns.1)) }
{
    (turns.0 > 0 && turns.1 < 0) || (turns.0 < 0 && turns.1 > 0)
}

// The turns of the ends of a against b.
fn turns_of(a: Edge, b: Edge) -> (i128, i128)
    ensures lower { result.0 ≡ turn_of b.lo b.hi a.lo }
    ensures upper { result.1 ≡ turn_of b.lo b.hi a.hi }
{
    (side_number(b, a.lo()), side_number(b, a.hi()))
}

// Whether two edges touch, by the turns of the ends of each against the other.
fn touches(a: Edge, b: Edge, of_a: (i128, i128), of_b: (i128, i128)) -> bool
    requires lower_of_a { of_a.0 ≡ turn_of b.lo b.hi a.lo }
    requires upper_of_a { of_a.1 ≡ turn_of b.lo b.hi a.hi }
    requires lower_of_b { of_b.0 ≡ turn_of a.lo a.hi b.lo }
    requires upper_of_b { of_b.1 ≡ turn_of a.lo a.hi b.hi }
    ensures { result ≡ touch a b }
{
    ends_on(a, b, of_a) || ends_on(b, a, of_b)
}

/// How two edges meet: they touch where an end of one lies on the other and is no end of it, and they cross where the ends of each lie
/// strictly on opposite sides of the other. Equal edges are apart.
pub fn conflict(a: Edge, b: Edge) -> Meeting
    ensures { IsMeeting a b result }
{
    let of_a = turns_of(a, b);
    let of_b = turns_of(b, a);
    if touches(a, b, of_a, of_b) {
        Meeting::Touch
    } else if are_opposite(of_a) && are_opposite(of_b) {
        Meeting::Cross
    } else {
        Meeting::Apart
    }
}

/// Whether a is lower than b: by the side of the later lower end against the other edge, or where they begin together by that of b's
/// upper end against a. It says which edge is lower where both are alive at one point and do not conflict.
pub fn lower(a: Edge, b: Edge) -> bool
    ensures { result ≡ lower_of a b }
{
    let first = a.lo();
    let second = b.lo();
    if is_before(first, second) {
        stands_above(a, second)
    } else if is_before(second, first) {
        stands_below(b, first)
    } else {
        stands_above(a, b.hi())
    }
}
