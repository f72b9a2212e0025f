// Boxes about segments.

ghost use Rattle.std.specs.Prelude.{◌≡◌, IfNone, IfSome, false, int_le, true};
ghost use Rattle.std.specs.List.{list_all};
ghost use Rattle.loc_spec_plane.specs.Points.{up_to};
ghost use Rattle.loc_laws_any.specs.Boxes.{is_boxed};
ghost use Rattle.loc_spans.specs.Around.{IsWider, is_some};

use crate::making::later;
use loc_geom::{Edge, Point, is_before};

// A box: the edge from its first moment to its last, and a lowest and a highest point of it.
#[derive(Clone, Copy, Drop)]
pub(crate) struct Around {
    pub(crate) span: Edge,
    pub(crate) low: Point,
    pub(crate) high: Point,
}

// The earlier of two moments.
fn earlier(p: Point, q: Point) -> Point
    ensures first { up_to result p ≡ true }
    ensures second { up_to result q ≡ true }
{
    if is_before(p, q) { p } else { q }
}

// The edge from the first moment of two edges to the last.
fn joined(a: Edge, b: Edge) -> Edge
    ensures first { up_to result.lo a.lo ≡ true }
    ensures second { up_to result.lo b.lo ≡ true }
    ensures first_end { up_to a.hi result.hi ≡ true }
    ensures second_end { up_to b.hi result.hi ≡ true }
{
    match Edge::new(earlier(a.lo(), b.lo()), later(a.hi(), b.hi())) {
        Some(edge) => edge,
        None => unreachable!(),
    }
}

// The lower of two points.
fn lower_of(a: Point, b: Point) -> Point
    ensures first { int_le result.y a.y ≡ true }
    ensures second { int_le result.y b.y ≡ true }
{
    if a.y() <= b.y() { a } else { b }
}

// The higher of two points.
fn higher_of(a: Point, b: Point) -> Point
    ensures first { int_le a.y result.y ≡ true }
    ensures second { int_le b.y result.y ≡ true }
{
    if a.y() <= b.y() { b } else { a }
}

// A box about what is in a box, and about a segment.
fn widened(around: Around, s: Edge) -> Around
    ensures wider { IsWider around result }
    ensures holds { is_boxed result.span.lo result.span.hi result.low.y result.high.y s ≡ true }
{
    let (lo, hi) = (s.lo(), s.hi());
    Around {
        span: joined(around.span, s),
        low: lower_of(around.low, lower_of(lo, hi)),
        high: higher_of(around.high, higher_of(lo, hi)),
    }
}

// The box about segments, if there are any.
pub(crate) fn box_about(segments: &[Edge]) -> Option<Around>
    ensures none { IfNone result (is_some segments.now ≡ false) }
    ensures some { IfSome result (λ _. is_some segments.now ≡ true) }
    ensures boxed { IfSome result (λ a. list_all (is_boxed a.span.lo a.span.hi a.low.y a.high.y) segments.now ≡ true) }
{
    let Some(first) = segments.first() else {
        return None;
    };
    let mut around = Around {
        span: *first,
        low: first.lo(),
        high: first.lo(),
    };
    for segment in segments {
        around = widened(around, *segment);
    }
    Some(around)
}
