// A point in the list of the edges alive under and over it, by halving.

ghost use Rattle.std.specs.Prelude.{◌≡◌, ◌+◌, ◌-◌, ◌<◌, ◌≤◌, None, length, slice_get};
ghost use Rattle.loc_spec_plane.specs.Places.{IsCornerless, IsListAt, IsPlace};
ghost use Rattle.loc_place.specs.Planar.{IsPlanar};

use loc_edges::Views;
use loc_geom::{Point, Side, Steps};
use loc_place::Place;
use std::sync::ledger::Ledger;

// The place of a point that is no corner, from the list of the edges alive there: an edge of it on which the point lies, or else the last
// one that has the point above it.
pub(crate) fn search_list<L: Ledger>(
    views: &Views<'_, L>,
    list: &[u32],
    p: Point,
    steps: &mut Steps<L>,
) -> Place
    requires planar { IsPlanar views.now }
    requires cornerless { IsCornerless views.now p }
    requires alive { IsListAt views.now p list.now }
    ensures place { IsPlace views.now p result }
    ensures counted { steps.old ≤ steps.new }
    ensures within { steps.new ≤ steps.old + length views.now.ends }
{
    let mut low = 0;
    let mut high = list.len();
    while low < high {
        let middle = low + (high - low) / 2;
        match views.side(list[middle], p, steps) {
            Side::Below => high = middle,
            Side::On => return Place::Border(list[middle]),
            Side::Above => low = middle + 1,
        }
    }
    Place::Area(last_of(list, low))
}

// The last of so many edges of a list, if there are any.
fn last_of(list: &[u32], many: usize) -> Option<u32>
    ensures none { many ≡ 0 → result ≡ None }
    ensures some { 0 < many → result ≡ slice_get list.now (many - 1) }
{
    if many == 0 {
        return None;
    }
    list.get(many - 1).copied()
}
