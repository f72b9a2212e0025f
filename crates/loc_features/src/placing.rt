// The features of a part that touch a point and those that cover it, by the place of the point.

ghost use Rattle.std.specs.Prelude.{◌≡◌, ◌+◌, ◌<◌, ◌≤◌, ◌++◌, ◌∷◌, [], ℕ, All, IsTrue, List, filter, length, nat_lt, not};
ghost use Rattle.loc_spec_plane.specs.Lists.{is_in, is_rising};
ghost use Rattle.loc_laws_any.specs.Unions.{by_place};
ghost use Rattle.loc_rings.specs.Values.{Feature};
ghost use Rattle.loc_edges.specs.Layers.{layer_rings};
ghost use Rattle.loc_place.specs.Found.{place_at};
ghost use Rattle.loc_cover.specs.Legends.{AreNamed, covering, touching};
ghost use Rattle.loc_batch.specs.Answering.{IsPlaceIn};
ghost use Rattle.loc_batch.specs.Lists.{no_lists};
ghost use Rattle.loc_parts.specs.Parts.{IsPartOf, IsParted, part_numbers};
ghost use Rattle.loc_features.specs.Gathered.{Names};
ghost use Rattle.loc_features.specs.Places.{AreAt, IsAt, found_at};

use loc_batch::{Lists, above, is_among, list_at, list_of, on_corner, on_edge};
use loc_cover::Legend;
use loc_geom::{Point, Steps};
use loc_parts::{Part, Parted, part_law};
use loc_place::{Locator, Place};
use loc_treeidx::laws::{most_is_greatest, swept_stands};
use std::sync::ledger::Ledger;

/// A point, and its place in each part of a layer that has at most so many.
#[derive(Clone, Copy, Drop)]
pub(crate) struct Found<const N: usize> {
    pub(crate) point: Point,
    places: [Place; N],
}

// The place of a point in a part. It takes at most 63 steps.
fn place_in<L: Ledger>(part: &Part, p: Point, steps: &mut Steps<L>) -> Place
    requires part { (layer : List Feature) × IsPartOf layer part.now }
    ensures found { result ≡ place_at part.now.plane.table p }
    ensures place { IsAt part.now p result }
    ensures counted { steps.old ≤ steps.new }
    ensures within { steps.new ≤ steps.old + 63 }
{
    let table = &part.plane.table;
    table.law();
    swept_stands(table, &part.plane.tree);
    most_is_greatest(table);
    match part.plane.tree.locate(&table.views(), p, steps) {
        Ok(place) => place,
        Err(_) => unreachable!(),
    }
}

/// The place of a point in each part.
pub(crate) fn find_in<const N: usize, L: Ledger>(
    parted: &Parted,
    p: Point,
    steps: &mut Steps<L>,
) -> Found<N>
    requires few { length parted.now.parts.items ≤ N }
    requires parted { (layer : List Feature) × IsParted layer parted.now }
    ensures found { result ≡ found_at parted.now.parts.items p }
    ensures known { AreAt parted.now.parts.items result }
    ensures counted { steps.old ≤ steps.new }
    ensures within { steps.new ≤ steps.old + 1008 }
{
    let mut places = [Place::Area(None); N];
    for (k, part) in parted.parts.iter().enumerate() {
        places[k] = place_in(part, p, steps);
    }
    Found { point: p, places }
}

// The features of a legend that touch what lies at a place.
fn touching_at(legend: &Legend, place: Place) -> &[u32]
    requires in_range { IsPlaceIn legend.now place }
    ensures value { result.now ≡ touching legend.now place }
    ensures in_order { IsTrue (is_rising nat_lt result.now) }
    ensures named { AreNamed legend.now result.now }
{
    match place {
        Place::Corner(n) => on_corner(legend, n),
        Place::Border(e) => on_edge(legend, e),
        Place::Area(_) => &[],
    }
}

// Those of the list at a place: they cover it, or touch it.
fn listed_at(legend: &Legend, place: Place) -> &[u32]
    requires in_range { IsPlaceIn legend.now place }
    ensures value { filter (λ f. not (is_in f (touching legend.now place))) result.now ≡ covering legend.now place }
    ensures named { AreNamed legend.now result.now }
{
    match place {
        Place::Corner(n) => list_at(legend, n),
        Place::Border(e) => above(legend, e),
        Place::Area(floor) => list_of(legend, floor),
    }
}

// The numbers at these places touch.
fn touch_all(lists: &mut Lists, numbers: &[u32], places: &[u32])
    requires in_range { All (λ k. k < length numbers.now) places.now }
    requires room { length lists.old.touching + length places.now ≤ 262144 }
    ensures touching { lists.new.touching ≡ lists.old.touching ++ by_place numbers.now places.now }
    ensures covering { lists.new.covering ≡ lists.old.covering }
{
    for place in places {
        lists.touch(numbers[*place as usize]);
    }
}

// The numbers at these places cover, but for those that touch.
fn cover_others(lists: &mut Lists, numbers: &[u32], places: &[u32], touching: &[u32])
    requires in_order { IsTrue (is_rising nat_lt touching.now) }
    requires in_range { All (λ k. k < length numbers.now) places.now }
    requires room { length lists.old.covering + length (filter (λ f. not (is_in f touching.now)) places.now) ≤ 262144 }
    ensures covering { lists.new.covering ≡ lists.old.covering
        ++ by_place numbers.now (filter (λ f. not (is_in f touching.now)) places.now) }
    ensures touching { lists.new.touching ≡ lists.old.touching }
{
    for place in places {
        if !is_among(touching, *place) {
            lists.cover(numbers[*place as usize]);
        }
    }
}

// Names the features of a part that touch a point and those that cover it, by its place, behind those that are named.
fn name_part(part: &Part, p: Point, place: Place, lists: &mut Lists)
    requires part { (layer : List Feature) × IsPartOf layer part.now }
    requires place { IsAt part.now p place }
    requires touching { length lists.old.touching + length part.now.numbers.items ≤ 262144 }
    requires covering { length lists.old.covering + length part.now.numbers.items ≤ 262144 }
    ensures { (layer : List Feature) (named : List (List ℕ)) → IsPartOf layer part.now
        → Names (layer_rings layer) p named lists.old
        → Names (layer_rings layer) p (named ++ part.now.numbers.items ∷ []) lists.new }
{
    part_law(part, p, place);
    let legend = &part.plane.legend;
    let touching = touching_at(legend, place);
    touch_all(lists, &part.numbers, touching);
    cover_others(lists, &part.numbers, listed_at(legend, place), touching);
}

/// Names the features of all parts that touch a point and those that cover it, by its places.
pub(crate) fn name_parts<const N: usize>(parted: &Parted, found: &Found<N>, lists: &mut Lists)
    requires few { length parted.now.parts.items ≤ N }
    requires parted { (layer : List Feature) × IsParted layer parted.now }
    requires known { AreAt parted.now.parts.items found.now }
    requires empty { lists.old ≡ no_lists }
    ensures { (layer : List Feature) → IsParted layer parted.now
        → Names (layer_rings layer) found.now.point (part_numbers parted.now.parts.items) lists.new }
{
    for (k, part) in parted.parts.iter().enumerate() {
        name_part(part, found.point, found.places[k], lists);
    }
}
