// A point against the corners.

ghost use Rattle.std.specs.Prelude.{◌+◌, ◌≤◌, length};
ghost use Rattle.loc_spec_plane.specs.Tables.{IsTable};
ghost use Rattle.loc_place.specs.Standing.{IsStanding};

use loc_edges::Views;
use loc_geom::{Point, Steps};
use loc_place::Standing;
use std::cmp::Ordering;
use std::sync::ledger::Ledger;

// Where a point stands among the corners, by a look at each up to the first that it does not stand behind.
pub(crate) fn among_corners<L: Ledger>(
    views: &Views<'_, L>,
    p: Point,
    steps: &mut Steps<L>,
) -> Standing
    requires in_order { IsTable views.now }
    ensures standing { IsStanding views.now p result }
    ensures counted { steps.old ≤ steps.new }
    ensures within { steps.new ≤ steps.old + length views.now.corners }
{
    let count = views.corner_count();
    for corner in 0..count {
        match views.compare(corner, p, steps) {
            Ordering::Less => {}
            Ordering::Equal => return Standing::OnCorner(corner),
            Ordering::Greater => return Standing::Behind(corner),
        }
    }
    Standing::Behind(count)
}
