// A range of rows.

use loc_geom::Point;

// The place behind the last row of a range, and a moment that none of its rows ends behind.
#[derive(Clone, Copy, Drop)]
pub(crate) struct Range {
    pub(crate) past: usize,
    pub(crate) most: Point,
}
