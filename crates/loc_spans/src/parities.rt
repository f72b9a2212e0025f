// Whether rows have a point on them, or an odd number of them under it.

ghost use Rattle.std.specs.Prelude.{◌≡◌, ◌+◌, ◌≤◌, length, true};
ghost use Rattle.loc_spec_plane.specs.Lists.{exactly_one};
ghost use Rattle.loc_laws_any.specs.Moments.{at_moment};
ghost use Rattle.loc_spans.specs.Parity.{IsMet, IsParity};
ghost use Rattle.loc_spans.specs.Rows.{AreRanges, BeginInOrder};

use crate::ranges::Range;
use crate::search::next;
use loc_geom::{Edge, Point, Side, Steps, is_before};
use std::sync::ledger::Ledger;

// Whether a row of the moment of p lies under it: None where p lies on the row. It counts one step.
fn is_under<L: Ledger>(row: Edge, p: Point, steps: &mut Steps<L>) -> Option<bool>
    requires { at_moment row p ≡ true }
    ensures met { IsMet row p result }
    ensures counted { steps.new ≡ steps.old + 1 }
{
    match steps.side(row, p) {
        Side::On => None,
        Side::Above => Some(is_before(p, row.hi())),
        Side::Below => Some(false),
    }
}

// The parity after one more row.
fn flipped(odd: bool, under: bool) -> bool
    ensures { result ≡ exactly_one odd under }
{
    odd != under
}

// None where p lies on a row, else whether an odd number of rows lie under p. Only the rows of its moment are looked at.
pub(crate) fn row_parity<L: Ledger>(
    rows: &[Edge],
    ranges: &[Range],
    p: Point,
    steps: &mut Steps<L>,
) -> Option<bool>
    requires in_order { BeginInOrder rows.now }
    requires ranges { AreRanges rows.now ranges.now }
    ensures parity { IsParity rows.now p result }
    ensures counted { steps.old ≤ steps.new }
    ensures within { steps.new ≤ steps.old + length rows.now }
{
    let mut odd = false;
    let mut from = 0;
    while let Some(at) = next(rows, ranges, from, p) {
        odd = flipped(odd, is_under(rows[at], p, steps)?);
        from = at + 1;
    }
    Some(odd)
}
