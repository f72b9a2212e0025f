// The points on an edge, along its way.

ghost use Rattle.std.specs.Prelude.{◌≡◌, ◌<◌, ◌≤◌, ℕ, ℤ, true, false, All, IfOk, OnOk, filter, length, map, slice_index_or, take};
ghost use Rattle.std.specs.List.Sorted.{IsPermutation, IsSortedBy};
ghost use Rattle.loc_spec_plane.specs.Points.{Point as PointOf, lies_on};
ghost use Rattle.loc_laws_noding.specs.Search.{is_parallel, number_along};
ghost use Rattle.loc_node.specs.Ways.{WayOrder, points_along, way_before};

use loc_geom::{Edge, Point, is_before, on, side_number};
use std::alloc::{AllocError, Global};
use std::marker::Model;

/// An edge that stands for all that go its way, and points in the order of their numbers along it.
#[derive(Drop)]
pub(crate) struct Way {
    edge: Edge,
    order: Vec<(i128, Point)>,
}

impl Model for Way {
    ghost use Rattle.loc_node.specs.Ways.{IsWayOrder, WayOrder};

    ghost Value = { WayOrder };

    ghost view = { λ w. record { edge = w.edge; order = w.order.items } };

    ghost invariant = { λ w. IsWayOrder (record { edge = w.edge; order = w.order.items }) };
}

// The points behind their numbers along the way of the edge.
fn numbered(alloc: Global, edge: Edge, points: &[Point]) -> Result<Vec<(i128, Point)>, AllocError>
    ensures { IfOk result (λ order. order.items ≡ map (λ p. (number_along edge p, p)) points.now) }
{
    let mut order = Vec::with_capacity(alloc, points.len())?;
    for p in points {
        order.push((side_number(edge, *p), *p))?;
    }
    Ok(order)
}

// Whether the first of two points behind numbers comes before the second.
fn stands_before(a: &(i128, Point), b: &(i128, Point)) -> bool
    ensures { result ≡ way_before a.now b.now }
{
    a.0 < b.0 || (a.0 == b.0 && is_before(a.1, b.1))
}

// How many of the points come before a place.
fn first_from(order: &[(i128, Point)], place: &(i128, Point)) -> usize
    requires sorted { IsSortedBy way_before order.now }
    ensures within { result ≤ length order.now }
    ensures passed { (k : ℕ) (d : ℤ × PointOf) → k < result → way_before (slice_index_or order.now k d) place.now ≡ true }
    ensures from { (k : ℕ) (d : ℤ × PointOf) → result ≤ k → k < length order.now → way_before (slice_index_or order.now k d) place.now ≡ false }
{
    let mut low = 0;
    let mut high = order.len();
    while low < high {
        let middle = low + (high - low) / 2;
        if stands_before(&order[middle], place) {
            low = middle + 1;
        } else {
            high = middle;
        }
    }
    low
}

// Puts the points from a place on that lie on the edge behind the others, up to the first that does not.
fn gather(
    found: &mut Vec<Point>,
    order: &[(i128, Point)],
    start: usize,
    edge: Edge,
) -> Result<(), AllocError>
    requires within { start ≤ length order.now }
    requires so_far { found.old.items ≡ filter (lies_on edge) (take start (points_along order.now)) }
    requires over { (i j : ℕ) (d : ℤ × PointOf) → start ≤ i → i ≤ j → j < length order.now → lies_on edge (slice_index_or order.now i d).1 ≡ false → lies_on edge (slice_index_or order.now j d).1 ≡ false }
    ensures { OnOk result (found.new.items ≡ filter (lies_on edge) (points_along order.now)) }
{
    for k in start..order.len() {
        let p = order[k].1;
        if !on(edge, p) {
            return Ok(());
        }
        found.push(p)?;
    }
    Ok(())
}

impl Way {
    /// The points along the way of the edge.
    pub(crate) fn make(alloc: Global, edge: Edge, points: &[Point]) -> Result<Way, AllocError>
        ensures { IfOk result (λ way. IsPermutation points.now (points_along way.order)) }
    {
        let _upper = edge.hi();
        let mut order = numbered(alloc, edge, points)?;
        order.sort_unstable();
        Ok(Way { edge, order })
    }

    /// Whether the edge goes this way.
    pub(crate) fn leads(&self, edge: Edge) -> bool
        ensures { result ≡ is_parallel self.now.edge edge }
    {
        side_number(self.edge, edge.hi()) == side_number(self.edge, edge.lo())
    }

    /// Finds the points that lie on an edge that goes this way.
    pub(crate) fn find(&self, found: &mut Vec<Point>, edge: Edge) -> Result<(), AllocError>
        requires { is_parallel self.now.edge edge ≡ true }
        ensures { OnOk result (found.new.items ≡ filter (lies_on edge) (points_along self.now.order)) }
    {
        let _upper = edge.hi();
        let low = edge.lo();
        found.clear();
        let place = (side_number(self.edge, low), low);
        let start = first_from(&self.order, &place);
        gather(found, &self.order, start, edge)
    }
}

/// The points along the ways of some edges.
pub(crate) fn ways_of(
    alloc: Global,
    points: &[Point],
    guides: &[Edge],
) -> Result<Vec<Way>, AllocError>
    ensures { IfOk result (λ ways. All (λ (way : WayOrder). IsPermutation points.now (points_along way.order)) ways.items) }
{
    let mut ways = Vec::new(alloc);
    for guide in guides {
        ways.push(Way::make(alloc, *guide, points)?)?;
    }
    Ok(ways)
}

/// The place of the first way that the edge goes, or how many ways there are.
pub(crate) fn way_number(ways: &[Way], edge: Edge) -> usize
    ensures { (d : WayOrder) → result < length ways.now → is_parallel (slice_index_or ways.now result d).edge edge ≡ true }
{
    for n in 0..ways.len() {
        if ways[n].leads(edge) {
            return n;
        }
    }
    ways.len()
}
