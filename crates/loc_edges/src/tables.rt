// The corners and the edges of a layer.

ghost use Rattle.std.specs.Prelude.{◌≡◌, ◌<◌, ◌-◌, Bool, true, List, IsTrue, IfOk, length, slice_index_or};
ghost use Rattle.std.specs.List.{list_any};
ghost use Rattle.loc_spec_plane.specs.Points.{Point as PointOf, Edge as EdgeOf, before, edge_before};
ghost use Rattle.loc_spec_plane.specs.Lists.{is_rising, sorted_set};
ghost use Rattle.loc_spec_plane.specs.Rings.{Rings};
ghost use Rattle.loc_spec_plane.specs.Tables.{layer_corners, pieces_of, whole};
ghost use Rattle.loc_laws_noding.specs.Laws.{ends_of};
ghost use Rattle.loc_edges.specs.Layers.{layer_rings};

use crate::grouped::distinct_edges;
use crate::sorted::{sorted_points, sorted_segments};
use loc_geom::{Edge, Point};
use loc_rings::Feature;
use std::alloc::{AllocError, Global};

// Whether the edge at place n begins where the one before it does.
fn begins_again(edges: &[Edge], n: usize) -> bool
    requires in_range { n < length edges.now }
    ensures { result ≡ true → (0 < n) × ((d : EdgeOf) → (slice_index_or edges.now n d).lo ≡ (slice_index_or edges.now (n - 1) d).lo) }
{
    n > 0 && edges[n].lo() == edges[n - 1].lo()
}

// The ends of the edges, but for lower ends that stand there already.
fn ends(alloc: Global, edges: &[Edge]) -> Result<Vec<Point>, AllocError>
    ensures { IfOk result (λ points. (test : PointOf → Bool) → list_any test points.items ≡ list_any test (ends_of edges.now)) }
{
    let mut points = Vec::new(alloc);
    for n in 0..edges.len() {
        let edge = edges[n];
        if !begins_again(edges, n) {
            points.push(edge.lo())?;
        }
        points.push(edge.hi())?;
    }
    Ok(points)
}

/// The edges of a layer: the segments of its features in order, each once.
pub fn edges(alloc: Global, features: &[Feature]) -> Result<Vec<Edge>, AllocError>
    ensures value { IfOk result (λ edges. edges.items ≡ pieces_of whole (layer_rings features.now)) }
    ensures rise { IfOk result (λ edges. IsTrue (is_rising edge_before edges.items)) }
{
    let tagged = sorted_segments(alloc, features)?;
    distinct_edges(alloc, &tagged)
}

/// The corners between edges: their ends in order, each once. Those of the edges of a layer are the corners of the layer.
pub fn corners_between(alloc: Global, edges: &[Edge]) -> Result<Vec<Point>, AllocError>
    ensures value { IfOk result (λ corners. corners.items ≡ sorted_set before (ends_of edges.now)) }
    ensures of_layer { IfOk result (λ corners. (layer : List Rings) → edges.now ≡ pieces_of whole layer → corners.items ≡ layer_corners layer) }
{
    Ok(sorted_points(ends(alloc, edges)?))
}
