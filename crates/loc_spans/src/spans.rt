// Segments in the order in which they begin.

ghost use Rattle.std.specs.Prelude.{◌≡◌, ◌+◌, ◌<◌, ◌≤◌, length, slice_get, Some, IfOk};
ghost use Rattle.std.specs.List.Sorted.{IsPermutation};
ghost use Rattle.loc_spec_plane.specs.Rings.{Rings as RingsOf, segments};
ghost use Rattle.loc_laws_any.specs.Moments.{AreClosed};
ghost use Rattle.loc_spans.specs.Parity.{IsAnswer};
ghost use Rattle.loc_spans.specs.Rows.{BeginInOrder, IsNext};

use crate::making::ranges_of;
use crate::parities::row_parity;
use crate::ranges::Range;
use crate::search::next;
use loc_geom::{Edge, Point, Steps};
use std::alloc::{AllocError, Global};
use std::marker::Model;
use std::sync::ledger::Ledger;

/// Segments, each as often as it was given, in the order in which they begin; kept so that those of a moment are found one after the other.
#[derive(Drop)]
pub struct Spans {
    rows: Vec<Edge>,
    ranges: Vec<Range>,
}

impl Model for Spans {
    ghost use Rattle.std.specs.Prelude.{List};
    ghost use Rattle.loc_spec_plane.specs.Points.{Edge};
    ghost use Rattle.loc_spans.specs.Rows.{AreRanges, BeginInOrder};

    ghost Value = { List Edge };

    ghost view = { λ s. s.rows.items };

    ghost invariant = { λ s. BeginInOrder s.rows.items × AreRanges s.rows.items s.ranges.items };
}

// The segments in the order in which they begin.
fn in_order(mut rows: Vec<Edge>) -> Vec<Edge>
    ensures moved { IsPermutation rows.items result.items }
    ensures in_order { BeginInOrder result.items }
{
    rows.sort_unstable();
    rows
}

impl Spans {
    /// The spans of segments.
    pub fn make(alloc: Global, rows: Vec<Edge>) -> Result<Spans, AllocError>
        ensures { IfOk result (λ spans. IsPermutation rows.items spans) }
    {
        Spans::of_sorted(alloc, in_order(rows))
    }

    // The spans of segments that begin in order.
    pub(crate) fn of_sorted(alloc: Global, rows: Vec<Edge>) -> Result<Spans, AllocError>
        requires { BeginInOrder rows.items }
        ensures { IfOk result (λ spans. spans ≡ rows.items) }
    {
        let ranges = ranges_of(alloc, &rows)?;
        Ok(Spans { rows, ranges })
    }

    /// How many segments there are.
    pub fn len(&self) -> usize
        ensures { result ≡ length self.now }
    {
        self.rows.len()
    }

    /// The first segment from a place on whose span holds the point.
    pub fn next(&self, from: usize, p: Point) -> Option<usize>
        ensures { IsNext self.now p from result }
    {
        next(&self.rows, &self.ranges, from, p)
    }

    /// For the segments of closed rings: None where the rings touch p, else whether they cover it. It takes at most a step for each segment.
    pub fn parity<L: Ledger>(&self, p: Point, steps: &mut Steps<L>) -> Option<bool>
        ensures answer { (rings : RingsOf) → AreClosed rings → IsPermutation (segments rings) self.now → IsAnswer rings p result }
        ensures counted { steps.old ≤ steps.new }
        ensures within { steps.new ≤ steps.old + length self.now }
    {
        row_parity(&self.rows, &self.ranges, p, steps)
    }
}
