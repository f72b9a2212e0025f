// A point among the corners.

ghost use Rattle.std.specs.Prelude.{◌+◌, ◌-◌, ◌*◌, ◌^◌, ◌≤◌, length};
ghost use Rattle.loc_place.specs.Standing.{IsStanding};

use loc_edges::Views;
use loc_geom::{Point, Steps};
use std::cmp::Ordering;
use std::sync::ledger::Ledger;

/// Where a point stands among the corners, which are in order: on one of them, or behind so many of them and before the others.
#[derive(Clone, Copy)]
pub enum Standing {
    OnCorner(u32),
    Behind(u32),
}

/// Where a point stands among the corners. Each turn leaves at most half of them to look at.
pub fn search_corners<L: Ledger>(views: &Views<'_, L>, p: Point, steps: &mut Steps<L>) -> Standing
    ensures standing { IsStanding views.now p result }
    ensures counted { steps.old ≤ steps.new }
    ensures halving { 2 ^ (steps.new - steps.old) ≤ 2 * length views.now.corners + 1 }
    ensures few { steps.new ≤ steps.old + length views.now.corners }
{
    views.law();
    let mut low = 0;
    let mut high = views.corner_count();
    while low < high {
        let middle = low + (high - low) / 2;
        match views.compare(middle, p, steps) {
            Ordering::Less => low = middle + 1,
            Ordering::Equal => return Standing::OnCorner(middle),
            Ordering::Greater => high = middle,
        }
    }
    Standing::Behind(low)
}
