// Corners and edges by number.

ghost use Rattle.std.specs.Prelude.{◌≡◌, ◌<◌, ◌≤◌, IsTrue, All, length, map, slice_index_or, IfOk};
ghost use Rattle.loc_spec_plane.specs.Points.{Point as PointOf, Edge as EdgeOf, before};
ghost use Rattle.loc_spec_text.specs.Limits.{most_points};
ghost use Rattle.loc_spec_plane.specs.Lists.{is_rising};
ghost use Rattle.loc_spec_plane.specs.Tables.{number_of};
ghost use Rattle.loc_edges.specs.Parts.{GoesUpBelow, edge_of_pair};

use loc_geom::{Edge, Point};
use std::alloc::{AllocError, Global};

// The place of a point among corners in order, 0 where it is none of them.
fn corner_number(corners: &[Point], p: Point) -> u32
    requires in_order { IsTrue (is_rising before corners.now) }
    requires few { length corners.now ≤ most_points }
    ensures number { result ≡ number_of corners.now p }
    ensures within { result ≤ most_points }
{
    match corners.binary_search(&p) {
        Ok(n) => n as u32,
        Err(_) => 0,
    }
}

// Whether a point is the corner at a place.
fn is_corner_at(corners: &[Point], n: usize, p: Point) -> bool
    ensures { IsTrue result → (n < length corners.now) × ((d : PointOf) → p ≡ slice_index_or corners.now n d) }
{
    n < corners.len() && corners[n] == p
}

// The place of a point among corners in order, 0 where it is none of them. It is looked for at first at the place `near` and behind it.
fn corner_number_near(corners: &[Point], near: u32, p: Point) -> u32
    requires in_order { IsTrue (is_rising before corners.now) }
    requires few { length corners.now ≤ most_points }
    requires near_few { near ≤ most_points }
    ensures number { result ≡ number_of corners.now p }
    ensures within { result ≤ most_points }
{
    if is_corner_at(corners, near as usize, p) {
        near
    } else if is_corner_at(corners, near as usize + 1, p) {
        near + 1
    } else {
        corner_number(corners, p)
    }
}

/// The ends of each edge, by their places among the corners.
pub fn numbered_ends(
    alloc: Global,
    corners: &[Point],
    edges: &[Edge],
) -> Result<Vec<(u32, u32)>, AllocError>
    requires in_order { IsTrue (is_rising before corners.now) }
    requires few { length corners.now ≤ most_points }
    ensures { IfOk result (λ ends. ends.items ≡ map (λ (e : EdgeOf). (number_of corners.now e.lo, number_of corners.now e.hi)) edges.now) }
{
    let mut ends = Vec::with_capacity(alloc, edges.len())?;
    let mut lo = 0;
    for edge in edges {
        lo = corner_number_near(corners, lo, edge.lo());
        let hi = corner_number(corners, edge.hi());
        ends.push((lo, hi))?;
    }
    Ok(ends)
}

// The edges between corners in order, from the numbers of their ends.
pub(crate) fn edges_between(
    alloc: Global,
    corners: &[Point],
    ends: &[(u32, u32)],
) -> Result<Vec<Edge>, AllocError>
    requires in_order { IsTrue (is_rising before corners.now) }
    requires go_up { All (GoesUpBelow (length corners.now)) ends.now }
    ensures { IfOk result (λ edges. edges.items ≡ map (edge_of_pair corners.now) ends.now) }
{
    let mut edges = Vec::with_capacity(alloc, ends.len())?;
    for pair in ends {
        if let Some(edge) = Edge::new(corners[pair.0 as usize], corners[pair.1 as usize]) {
            edges.push(edge)?;
        }
    }
    Ok(edges)
}
