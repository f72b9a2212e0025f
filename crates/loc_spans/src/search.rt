// The next row whose span holds a point.

ghost use Rattle.loc_spans.specs.Rows.{AreRanges, BeginInOrder, IsNext};

use crate::ranges::Range;
use loc_geom::{Edge, Point, is_before};

// The first row from a place on whose span holds the point. A range that ended before the point is left out as a whole, and no row is looked for
// behind one that begins behind the point.
pub(crate) fn next(rows: &[Edge], ranges: &[Range], from: usize, p: Point) -> Option<usize>
    requires in_order { BeginInOrder rows.now }
    requires ranges { AreRanges rows.now ranges.now }
    ensures { IsNext rows.now p from result }
{
    let mut at = from;
    while at < rows.len() {
        if is_before(ranges[at].most, p) {
            at = ranges[at].past;
        } else if is_before(p, rows[at].lo()) {
            return None;
        } else if is_before(rows[at].hi(), p) {
            at += 1;
        } else {
            return Some(at);
        }
    }
    None
}
