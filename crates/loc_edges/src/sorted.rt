// Points and segments in order.

ghost use Rattle.std.specs.Prelude.{◌≡◌, ◌<◌, ℕ, length, All, IfOk};
ghost use Rattle.std.specs.List.Sorted.{IsPermutation, IsSortedBy};
ghost use Rattle.loc_spec_plane.specs.Points.{Edge as EdgeOf, before, edge_before};
ghost use Rattle.loc_spec_plane.specs.Lists.{sorted_set};
ghost use Rattle.loc_spec_plane.specs.Tables.{pieces_of, whole};
ghost use Rattle.loc_rings.specs.Values.{IsRing};
ghost use Rattle.loc_edges.specs.Layers.{layer_rings};
ghost use Rattle.loc_edges.specs.Tagged.{segments_in, features_of, tagged_from};

use crate::segments::tagged_segments;
use loc_geom::{Edge, Point};
use loc_rings::Feature;
use std::alloc::{AllocError, Global};

// The points in order, each once.
pub(crate) fn sorted_points(mut points: Vec<Point>) -> Vec<Point>
    ensures { result.items ≡ sorted_set before points.items }
{
    points.sort_unstable();
    points.dedup();
    points.shrink_to_fit();
    points
}

// Segments in order, those of an edge in the order in which they stood.
fn by_edge(mut tagged: Vec<(Edge, usize)>) -> Result<Vec<(Edge, usize)>, AllocError>
    ensures moved { IfOk result (λ sorted. IsPermutation tagged.items sorted.items) }
    ensures in_order { IfOk result (λ sorted. IsSortedBy edge_before (segments_in sorted.items)) }
    ensures features { IfOk result (λ sorted. (e : EdgeOf) → features_of sorted.items e ≡ features_of tagged.items e) }
{
    tagged.sort_by_key(|segment| segment.0)?;
    Ok(tagged)
}

/// The segments of all features in order, each as often as it stands there, with the number of its feature; those of an edge in the order of
/// their features.
pub fn sorted_segments(
    alloc: Global,
    features: &[Feature],
) -> Result<Vec<(Edge, usize)>, AllocError>
    ensures moved { IfOk result (λ tagged. IsPermutation (tagged_from 0 (layer_rings features.now)) tagged.items) }
    ensures closed { IfOk result (λ _. All (All IsRing) (layer_rings features.now)) }
    ensures few { IfOk result (λ tagged. All (λ (t : EdgeOf × ℕ). t.1 < length features.now) tagged.items) }
    ensures in_order { IfOk result (λ tagged. IsSortedBy edge_before (segments_in tagged.items)) }
    ensures edges { IfOk result (λ tagged. sorted_set edge_before (segments_in tagged.items) ≡ pieces_of whole (layer_rings features.now)) }
    ensures features { IfOk result (λ tagged. (e : EdgeOf) → features_of tagged.items e ≡ features_of (tagged_from 0 (layer_rings features.now)) e) }
{
    by_edge(tagged_segments(alloc, features)?)
}
