// A point against the edges.

ghost use Rattle.std.specs.Prelude.{◌≡◌, ◌+◌, ◌<◌, ◌≤◌, length, IfSome};
ghost use Rattle.loc_spec_plane.specs.Tables.{IsTable};
ghost use Rattle.loc_spec_plane.specs.Places.{IsPlace};
ghost use Rattle.loc_place.specs.Found.{higher_of};
ghost use Rattle.loc_place.specs.Planar.{IsPlanar};
ghost use Rattle.loc_scan.specs.Look.{IsLook};
ghost use Rattle.loc_place.specs.Standing.{IsBehind};

use loc_edges::Views;
use loc_geom::{Point, Side, Steps};
use loc_place::Place;
use std::sync::ledger::Ledger;

// What a look at an edge shows: the point lies on it, or the edge is alive under the point, or neither.
#[derive(Clone, Copy)]
enum Look {
    On,
    Under,
    Neither,
}

// What a look at an edge shows, from the number of corners that the point has passed: only an alive edge is tested.
fn look_at<L: Ledger>(
    views: &Views<'_, L>,
    edge: u32,
    p: Point,
    passed: u32,
    steps: &mut Steps<L>,
) -> Look
    requires in_range { edge < length views.now.ends }
    requires in_order { IsTable views.now }
    requires behind { IsBehind views.now p passed }
    ensures look { IsLook views.now p edge result }
    ensures counted { steps.old ≤ steps.new }
    ensures within { steps.new ≤ steps.old + 1 }
{
    let (lo, hi) = views.ends(edge);
    if passed <= lo || hi < passed {
        return Look::Neither;
    }
    match views.side(edge, p, steps) {
        Side::Below => Look::Neither,
        Side::On => Look::On,
        Side::Above => Look::Under,
    }
}

// The higher of two edges, or the second where there is no first.
fn higher<L: Ledger>(views: &Views<'_, L>, highest: Option<u32>, edge: u32) -> u32
    requires highest_in_range { IfSome highest (λ e. e < length views.now.ends) }
    requires in_range { edge < length views.now.ends }
    ensures { result ≡ higher_of views.now highest edge }
{
    match highest {
        Some(highest) if !views.lower(highest, edge) => highest,
        _ => edge,
    }
}

// The place of a point that is no corner: the edge on which it lies, or else the highest of the alive edges that it is above.
pub(crate) fn among_edges<L: Ledger>(
    views: &Views<'_, L>,
    p: Point,
    passed: u32,
    steps: &mut Steps<L>,
) -> Place
    requires planar { IsPlanar views.now }
    requires behind { IsBehind views.now p passed }
    ensures place { IsPlace views.now p result }
    ensures counted { steps.old ≤ steps.new }
    ensures within { steps.new ≤ steps.old + length views.now.ends }
{
    let mut floor = None;
    for edge in 0..views.edge_count() {
        match look_at(views, edge, p, passed, steps) {
            Look::On => return Place::Border(edge),
            Look::Under => floor = Some(higher(views, floor, edge)),
            Look::Neither => {}
        }
    }
    Place::Area(floor)
}
