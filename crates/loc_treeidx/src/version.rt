// A point among the edges of a version, by the walk down its tree.

ghost use Rattle.std.specs.Prelude.{◌-◌, ◌^◌, ◌<◌, ◌≤◌, [], length, get_or};
ghost use Rattle.loc_place.specs.Standing.{IsBehind};
ghost use Rattle.loc_spec_plane.specs.Places.{IsCornerless, IsListAt, IsPlace};
ghost use Rattle.loc_place.specs.Planar.{IsPlanar};
ghost use Rattle.loc_treeidx.specs.Standing.{AreVersionsOf};
ghost use Rattle.loc_place.specs.Steps.{alive_count, version_bound};

use loc_edges::Views;
use loc_geom::{Point, Side, Steps};
use loc_persist::Versions;
use loc_place::Place;
use loc_pool::Turn;
use std::sync::ledger::Ledger;

// The place of a point that is no corner, from the version whose list is that of the edges alive there: an edge of it on which the point
// lies, or else the last one that has the point above it.
fn search_version<L: Ledger>(
    versions: &Versions,
    version: u32,
    views: &Views<'_, L>,
    p: Point,
    steps: &mut Steps<L>,
) -> Place
    requires sealed { version < length versions.now.roots }
    requires planar { IsPlanar views.now }
    requires cornerless { IsCornerless views.now p }
    requires alive { IsListAt views.now p (get_or versions.now.sealed_lists version []) }
    ensures place { IsPlace views.now p result }
    ensures counted { steps.old ≤ steps.new }
    ensures few { 2 ^ (steps.new - steps.old) ≤ version_bound (length (get_or versions.now.sealed_lists version [])) }
{
    // tells that the version reads as its list
    let _sealed = versions.sealed();
    let mut floor = None;
    let mut next = versions.root(version);
    'down: while let Some(at) = next {
        let edge = versions.item(at);
        match views.side(edge, p, steps) {
            Side::Below => next = versions.child(at, Turn::Left, version),
            Side::On => return Place::Border(edge),
            Side::Above => {
                floor = Some(edge);
                next = versions.child(at, Turn::Right, version);
            }
        }
    }
    Place::Area(floor)
}

// The place of a point behind so many corners and before the others, from the version of the last of them.
pub(crate) fn search_behind<L: Ledger>(
    versions: &Versions,
    passed: u32,
    views: &Views<'_, L>,
    p: Point,
    steps: &mut Steps<L>,
) -> Place
    requires stands { AreVersionsOf views.now versions.now }
    requires behind { IsBehind views.now p passed }
    ensures place { IsPlace views.now p result }
    ensures counted { steps.old ≤ steps.new }
    ensures few { 2 ^ (steps.new - steps.old) ≤ version_bound (alive_count views.now p) }
{
    // tells that there are as many roots as lists
    let _sealed = versions.sealed();
    if passed == 0 {
        return Place::Area(None);
    }
    search_version(versions, passed - 1, views, p, steps)
}
