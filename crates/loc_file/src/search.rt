// The search of a point in what a file holds.

ghost use Rattle.std.specs.Prelude.{◌≡◌, ◌+◌, ◌-◌, ◌^◌, ◌<◌, ◌≤◌, None, IfOk, IsOkAnd, length};
ghost use Rattle.loc_spec_plane.specs.Places.{IsPlace};
ghost use Rattle.loc_spec_index.specs.Content.{table_in, root_of};
ghost use Rattle.loc_spec_index.specs.Nodes.{Left, Right, child};
ghost use Rattle.loc_spec_index.specs.Search.{walk, search_for};
ghost use Rattle.loc_place.specs.Answers.{IsInRange};
ghost use Rattle.loc_place.specs.Steps.{alive_count, search_bound};
ghost use Rattle.loc_file.specs.Depths.{depth_from, most_of};
ghost use Rattle.loc_file.specs.Searches.{answer_of, IsIndexFor};
ghost use Rattle.loc_file.specs.Standing.{index_apart, index_finds};

use crate::held::Held;
use loc_edges::Views;
use loc_geom::{Point, Side, Steps};
use loc_place::{Deep, Locator, Place, Standing, search_corners};
use loc_spec_index::NodeRow;
use std::sync::ledger::Ledger;

// The left child of a node in a version, or 0.
fn left_of(row: NodeRow, version: u32) -> u32
    ensures { result ≡ child row Left version }
{
    if row.side == 1 && row.stamp <= version {
        row.extra
    } else {
        row.left
    }
}

// The right child of a node in a version, or 0.
fn right_of(row: NodeRow, version: u32) -> u32
    ensures { result ≡ child row Right version }
{
    if row.side == 2 && row.stamp <= version {
        row.extra
    } else {
        row.right
    }
}

// How many nodes a walk has at most.
const MOST_NODES: u32 = 42;

// What the walk down a version finds, of at most 42 nodes.
fn walk_version<L: Ledger>(
    held: &Held,
    version: u32,
    views: &Views<'_, L>,
    p: Point,
    steps: &mut Steps<L>,
) -> Result<Place, Deep>
    requires fits { views.now ≡ table_in held.now.content }
    requires version { version < length held.now.content.corners }
    ensures found { result ≡ answer_of (walk views.now held.now.content.nodes p version 42 (root_of held.now.content version) None) }
    ensures counted { steps.old ≤ steps.new }
    ensures within { steps.new ≤ steps.old + depth_from held.now.content.nodes version 42 (root_of held.now.content version) }
{
    let mut at = held.root(version);
    let mut floor = None;
    for walked in 0..MOST_NODES {
        if at == 0 {
            return Ok(Place::Area(floor));
        }
        let row = held.row(at);
        match views.side(row.item, p, steps) {
            Side::On => return Ok(Place::Border(row.item)),
            Side::Above => {
                floor = Some(row.item);
                at = right_of(row, version);
            }
            Side::Below => at = left_of(row, version),
        }
    }
    if at == 0 {
        Ok(Place::Area(floor))
    } else {
        Err(Deep { version })
    }
}

// What the search finds for a point.
fn search<L: Ledger>(
    held: &Held,
    views: &Views<'_, L>,
    p: Point,
    steps: &mut Steps<L>,
) -> Result<Place, Deep>
    requires { views.now ≡ table_in held.now.content }
    ensures found { result ≡ answer_of (search_for views.now held.now.content.nodes p held.now.content.roots) }
    ensures counted { steps.old ≤ steps.new }
    ensures within { steps.new ≤ steps.old + most_of held.now.content views.now }
    ensures few { IsIndexFor held.now.content views.now → 2 ^ (steps.new - steps.old) ≤ search_bound (length views.now.corners) (alive_count views.now p) }
{
    // tells that the corners are in order
    views.law();
    match search_corners(views, p, steps) {
        Standing::OnCorner(corner) => Ok(Place::Corner(corner)),
        Standing::Behind(0) => Ok(Place::Area(None)),
        Standing::Behind(passed) => walk_version(held, passed - 1, views, p, steps),
    }
}

impl Locator for Held {
    ghost fits = { λ held t. t ≡ table_in held.content };

    ghost stands = { λ held t. IsIndexFor held.content t };

    ghost finds = { λ held t p. answer_of (search_for t held.content.nodes p held.content.roots) };

    ghost most = { λ held t. most_of held.content t };

    // The first five clauses are those of the trait; the last counts only the edges that are alive at the point.
    fn locate<L: Ledger>(
        &self,
        views: &Views<'_, L>,
        p: Point,
        steps: &mut Steps<L>,
    ) -> Result<Place, Deep>
        requires { views.now ≡ table_in self.now.content }
        ensures found { result ≡ answer_of (search_for views.now self.now.content.nodes p self.now.content.roots) }
        ensures place { IsIndexFor self.now.content views.now → IsOkAnd result (IsPlace views.now p) }
        ensures in_range { IfOk result (IsInRange views.now) }
        ensures counted { steps.old ≤ steps.new }
        ensures within { steps.new ≤ steps.old + most_of self.now.content views.now }
        ensures few { IsIndexFor self.now.content views.now → 2 ^ (steps.new - steps.old) ≤ search_bound (length views.now.corners) (alive_count views.now p) }
    {
        self.law();
        search(self, views, p, steps)
    }

    ghost stands_fits = { λ held t stands. stands.table_is };

    ghost stands_apart = { λ held t stands. index_apart held.content t stands };

    ghost stands_finds = { λ held t p stands. index_finds held.content t p stands };
}
