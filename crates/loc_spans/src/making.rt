// The ranges of rows.

ghost use Rattle.std.specs.Prelude.{◌≡◌, ◌<◌, ◌+◌, length, true, IfOk};
ghost use Rattle.loc_spec_plane.specs.Points.{up_to};
ghost use Rattle.loc_spans.specs.Rows.{AreRanges, AreRangesFrom, IsRange};

use crate::ranges::Range;
use loc_geom::{Edge, Point, is_before};
use std::alloc::{AllocError, Global};

// The later of two moments.
pub(crate) fn later(p: Point, q: Point) -> Point
    ensures first { up_to p result ≡ true }
    ensures second { up_to q result ≡ true }
{
    if is_before(p, q) { q } else { p }
}

// The range that begins at a place and goes on to an end, or past it, by the ranges behind the place.
fn range_from(rows: &[Edge], ranges: &[Range], at: usize, end: usize) -> Range
    requires here { at < length rows.now }
    requires behind { AreRangesFrom rows.now ranges.now (at + 1) }
    ensures { IsRange rows.now at result }
{
    let mut range = Range {
        past: at + 1,
        most: rows[at].hi(),
    };
    while range.past < end && range.past < rows.len() {
        let next = ranges[range.past];
        range = Range {
            past: next.past,
            most: later(range.most, next.most),
        };
    }
    range
}

// Where the range of a place ends at least: as far behind it as the least bit of its number says.
fn end_from(at: usize, count: usize) -> usize {
    if at == 0 {
        return count;
    }
    at.saturating_add(at.saturating_sub(at & (at - 1)))
}

// A range for each row: each is made of the ranges behind it.
pub(crate) fn ranges_of(alloc: Global, rows: &[Edge]) -> Result<Vec<Range>, AllocError>
    ensures { IfOk result (λ ranges. AreRanges rows.now ranges.items) }
{
    let Some(first) = rows.first() else {
        return Ok(Vec::new(alloc));
    };
    let none = Range {
        past: 0,
        most: first.lo(),
    };
    let mut ranges = vec![in alloc; none; rows.len()]?;
    let mut at = rows.len();
    while at > 0 {
        at -= 1;
        ranges[at] = range_from(rows, &ranges, at, end_from(at, rows.len()));
    }
    Ok(ranges)
}
