// Corners, kept so that those on an edge are found fast, and the pieces of an edge that is cut at them.

ghost use Rattle.std.specs.Prelude.{◌≡◌, ℕ, IfOk, OnOk, IsTrue, filter, map};
ghost use Rattle.std.specs.List.Sorted.{IsPermutation};
ghost use Rattle.loc_spec_plane.specs.Points.{Point as PointOf, before, lies_on};
ghost use Rattle.loc_spec_plane.specs.Lists.{is_rising, sorted_set};
ghost use Rattle.loc_spec_plane.specs.Tables.{cut_at, neighbour_edges};

use crate::curve::Window;
use crate::runs::{Run, add_runs};
use crate::search::find;
use crate::ways::{Way, way_number, ways_of};
use loc_geom::{Edge, Point};
use std::alloc::{AllocError, Global};
use std::marker::Model;

// Puts points in order, each once.
fn sort_points(points: &mut Vec<Point>)
    ensures { points.new.items ≡ sorted_set before points.old.items }
{
    points.sort_unstable();
    points.dedup();
}

// Puts the edges between neighbours among points in order in the place of what stood there.
fn neighbours(edges: &mut Vec<Edge>, points: &[Point]) -> Result<(), AllocError>
    requires in_order { IsTrue (is_rising before points.now) }
    ensures { OnOk result (edges.new.items ≡ neighbour_edges points.now) }
{
    edges.clear();
    for i in 1..points.len() {
        if let Some(edge) = Edge::new(points[i - 1], points[i]) {
            edges.push(edge)?;
        }
    }
    Ok(())
}

// The points with their places on the curve.
fn placed(alloc: Global, corners: &[Point]) -> Result<Vec<(u64, Point)>, AllocError>
    ensures { IfOk result (λ keyed. map (λ (k : ℕ × PointOf). k.1) keyed.items ≡ corners.now) }
{
    let window = Window::around(corners);
    let mut keyed = Vec::new(alloc);
    for p in corners {
        keyed.push((window.place(*p), *p))?;
    }
    Ok(keyed)
}

// The points without their places.
fn points_of(alloc: Global, keyed: &[(u64, Point)]) -> Result<Vec<Point>, AllocError>
    ensures { IfOk result (λ points. points.items ≡ map (λ (k : ℕ × PointOf). k.1) keyed.now) }
{
    let mut points = Vec::new(alloc);
    for pair in keyed {
        points.push(pair.1)?;
    }
    Ok(points)
}

// The points in the order of the curve.
fn along_curve(alloc: Global, corners: &[Point]) -> Result<Vec<Point>, AllocError>
    ensures { IfOk result (λ points. IsPermutation corners.now points.items) }
{
    let mut keyed = placed(alloc, corners)?;
    keyed.sort_by_key(|pair| pair.0)?;
    points_of(alloc, &keyed)
}

/// Corners in order, kept so that those on an edge are found fast.
#[derive(Drop)]
pub(crate) struct Finder {
    points: Vec<Point>,
    runs: Vec<Run>,
    ways: Vec<Way>,
}

impl Model for Finder {
    ghost use Rattle.std.specs.Prelude.{List, All};
    ghost use Rattle.loc_spec_plane.specs.Points.{Point, before};
    ghost use Rattle.loc_spec_plane.specs.Lists.{sorted_set};
    ghost use Rattle.std.specs.List.Sorted.{IsPermutation};
    ghost use Rattle.loc_node.specs.Runs.{IsRunOf};
    ghost use Rattle.loc_node.specs.Ways.{WayOrder, points_along};

    ghost Value = { List Point };

    ghost view = { λ f. sorted_set before f.points.items };

    ghost invariant = { λ f. All (IsRunOf f.points.items) f.runs.items × All (λ (way : WayOrder). IsPermutation f.points.items (points_along way.order)) f.ways.items };
}

impl Finder {
    /// Keeps the corners, which are in order, also along the ways of some edges.
    pub(crate) fn make(
        alloc: Global,
        corners: &[Point],
        guides: &[Edge],
    ) -> Result<Finder, AllocError>
        requires in_order { IsTrue (is_rising before corners.now) }
        ensures { IfOk result (λ finder. finder ≡ corners.now) }
    {
        let points = along_curve(alloc, corners)?;
        let ways = ways_of(alloc, &points, guides)?;
        let mut runs = Vec::new(alloc);
        if !points.is_empty() {
            add_runs(&mut runs, &points, 0, points.len())?;
        }
        Ok(Finder { points, runs, ways })
    }

    // Finds the corners on the edge, in some order.
    fn find_on(&self, found: &mut Vec<Point>, edge: Edge) -> Result<(), AllocError>
        ensures { OnOk result (sorted_set before found.new.items ≡ filter (lies_on edge) self.now) }
    {
        let n = way_number(&self.ways, edge);
        if n < self.ways.len() {
            return self.ways[n].find(found, edge);
        }
        find(found, &self.points, &self.runs, edge)
    }

    /// Puts the pieces of the edge, which is cut at the corners on it, in the place of what stood there. `found` is room for those corners.
    pub(crate) fn cut(
        &self,
        pieces: &mut Vec<Edge>,
        found: &mut Vec<Point>,
        edge: Edge,
    ) -> Result<(), AllocError>
        ensures { OnOk result (pieces.new.items ≡ cut_at self.now edge) }
    {
        self.find_on(found, edge)?;
        sort_points(found);
        neighbours(pieces, found)
    }
}
