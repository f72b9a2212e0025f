// The noded table of a layer.

ghost use Rattle.std.specs.Prelude.{◌≡◌, ℕ, ◌<◌, ◌≤◌, [], List, IsTrue, not, get_or, length, All, IfOk, IfErr};
ghost use Rattle.std.specs.List.Sorted.{IsSortedBy};
ghost use Rattle.loc_spec_plane.specs.Points.{Point as PointOf, edge_before, touch};
ghost use Rattle.loc_spec_plane.specs.Lists.{sorted_set};
ghost use Rattle.loc_spec_plane.specs.Covers.{feature_count};
ghost use Rattle.loc_spec_plane.specs.Rings.{Rings, touches, covers};
ghost use Rattle.loc_spec_plane.specs.Tables.{IsTable, AllEnds, AllEven, edge as edge_of, layer_corners, noded_table_of, piece_count, pieces_of, touches_by_marks, covers_by_marks, whole};
ghost use Rattle.loc_rings.specs.Layers.{IsLayer};
ghost use Rattle.loc_rings.specs.Values.{IsRing};
ghost use Rattle.loc_edges.specs.Layers.{layer_rings};
ghost use Rattle.loc_edges.specs.Tagged.{segments_in};
ghost use Rattle.loc_laws_repeats.specs.Repeats.{IsFirstTwice};
ghost use Rattle.loc_node.specs.Pieces.{IsRefused, layer_pieces};
ghost use Rattle.loc_spec_text.specs.Limits.{most_pieces};

use crate::fault::NodeFault;
use crate::pieces::{featured_pieces, first_twice, placed_pieces, sources};
use loc_edges::{EdgeTable, corners_between, distinct_edges, numbered_ends, sorted_segments};
use loc_geom::{Edge, Point};
use loc_rings::{Feature, Layer};
use std::alloc::{AllocError, Global};

// The corners between segments in order.
fn corners_of(alloc: Global, tagged: &[(Edge, usize)]) -> Result<Vec<Point>, AllocError>
    requires in_order { IsSortedBy edge_before (segments_in tagged.now) }
    ensures { IfOk result (λ corners. (layer : List Rings) → sorted_set edge_before (segments_in tagged.now) ≡ pieces_of whole layer → corners.items ≡ layer_corners layer) }
{
    let edges = distinct_edges(alloc, tagged)?;
    corners_between(alloc, &edges)
}

// The table of the pieces of the features' segments, and the least edge that is a piece more than once.
fn noded_table(alloc: Global, features: &[Feature]) -> Result<(EdgeTable, Option<Edge>), NodeFault>
    requires within { IsLayer features.now }
    ensures ok { IfOk result (λ made. made.0 ≡ noded_table_of (layer_rings features.now)) }
    ensures few { IfOk result (λ _. piece_count (layer_rings features.now) ≤ most_pieces) }
    ensures closed { IfOk result (λ _. All (All IsRing) (layer_rings features.now)) }
    ensures repeat { IfOk result (λ made. IsFirstTwice (layer_pieces (layer_rings features.now)) made.1) }
    ensures refused { IfErr result (IsRefused (piece_count (layer_rings features.now))) }
{
    let tagged = sorted_segments(alloc, features)?;
    let corners = corners_of(alloc, &tagged)?;
    let placed = placed_pieces(alloc, &corners, &tagged)?;
    let edges = distinct_edges(alloc, &placed)?;
    let ends = numbered_ends(alloc, &corners, &edges)?;
    let segments = sources(alloc, &tagged, &placed)?;
    let sources = numbered_ends(alloc, &corners, &segments)?;
    let repeat = first_twice(&placed);
    let pieces = featured_pieces(placed, &tagged);
    let table = EdgeTable::of_tagged(alloc, corners, edges, ends, sources, pieces)?;
    Ok((table, repeat))
}

/// The noded table of a layer: its corners, and as edges the pieces of its segments, each of which is cut at the corners on it. The
/// source of an edge is the least segment that has it as a piece. It is refused
/// exactly where the pieces of all segments are more than 2,097,152, want of memory aside. No two of its edges touch; by its marks it touches
/// and covers what the layer touches and covers by its rings.
pub fn node(alloc: Global, layer: &Layer) -> Result<EdgeTable, NodeFault>
    ensures ok { IfOk result (λ table. table ≡ noded_table_of (layer_rings layer.now)) }
    ensures few { IfOk result (λ _. piece_count (layer_rings layer.now) ≤ most_pieces) }
    ensures refused { IfErr result (IsRefused (piece_count (layer_rings layer.now))) }
    ensures in_order { IfOk result IsTable }
    ensures all_ends { IfOk result AllEnds }
    ensures all_even { IfOk result AllEven }
    ensures never_touch { IfOk result (λ table. (a b : ℕ) → a < length table.ends → b < length table.ends → IsTrue (not (touch (edge_of table a) (edge_of table b)))) }
    ensures features { IfOk result (λ table. feature_count table ≤ length layer.now) }
    ensures touching { IfOk result (λ table. (f : ℕ) (p : PointOf) → touches_by_marks table f p ≡ touches (get_or (layer_rings layer.now) f []) p) }
    ensures covering { IfOk result (λ table. (f : ℕ) (p : PointOf) → covers_by_marks table f p ≡ covers (get_or (layer_rings layer.now) f []) p) }
{
    let (table, _) = node_and_repeat(alloc, layer)?;
    Ok(table)
}

/// The noded table of a layer, and the least edge that is a piece of its segments more than once, where there is one.
pub fn node_and_repeat(alloc: Global, layer: &Layer) -> Result<(EdgeTable, Option<Edge>), NodeFault>
    ensures ok { IfOk result (λ made. made.0 ≡ noded_table_of (layer_rings layer.now)) }
    ensures few { IfOk result (λ _. piece_count (layer_rings layer.now) ≤ most_pieces) }
    ensures repeat { IfOk result (λ made. IsFirstTwice (layer_pieces (layer_rings layer.now)) made.1) }
    ensures refused { IfErr result (IsRefused (piece_count (layer_rings layer.now))) }
    ensures in_order { IfOk result (λ made. IsTable made.0) }
    ensures all_ends { IfOk result (λ made. AllEnds made.0) }
    ensures all_even { IfOk result (λ made. AllEven made.0) }
    ensures never_touch { IfOk result (λ made. (a b : ℕ) → a < length made.0.ends → b < length made.0.ends → IsTrue (not (touch (edge_of made.0 a) (edge_of made.0 b)))) }
    ensures features { IfOk result (λ made. feature_count made.0 ≤ length layer.now) }
    ensures touching { IfOk result (λ made. (f : ℕ) (p : PointOf) → touches_by_marks made.0 f p ≡ touches (get_or (layer_rings layer.now) f []) p) }
    ensures covering { IfOk result (λ made. (f : ℕ) (p : PointOf) → covers_by_marks made.0 f p ≡ covers (get_or (layer_rings layer.now) f []) p) }
{
    noded_table(alloc, layer.features())
}
