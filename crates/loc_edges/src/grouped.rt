// Segments in order, cut where the edge changes.

ghost use Rattle.std.specs.Prelude.{◌≡◌, ◌<◌, ◌-◌, ◌^◌, ℕ, not, true, length, map, slice_index_or, All, IfOk};
ghost use Rattle.std.specs.List.Sorted.{IsSortedBy};
ghost use Rattle.loc_spec_plane.specs.Points.{Edge as EdgeOf, same_edge, edge_before};
ghost use Rattle.loc_spec_plane.specs.Lists.{sorted_set};
ghost use Rattle.loc_edges.specs.Tagged.{segments_in, features_of};

use crate::rows::Rows;
use loc_geom::Edge;
use std::alloc::{AllocError, Global};

// Whether the segment at place n is another edge than the one before it.
fn is_new(tagged: &[(Edge, usize)], n: usize) -> bool
    requires in_range { n < length tagged.now }
    ensures first { n ≡ 0 → result ≡ true }
    ensures later { 0 < n → (d : EdgeOf × ℕ) → result ≡ not (same_edge (slice_index_or tagged.now n d).0 (slice_index_or tagged.now (n - 1) d).0) }
{
    n == 0 || tagged[n].0 != tagged[n - 1].0
}

/// The edges of segments in order, each once.
pub fn distinct_edges(alloc: Global, tagged: &[(Edge, usize)]) -> Result<Vec<Edge>, AllocError>
    requires in_order { IsSortedBy edge_before (segments_in tagged.now) }
    ensures { IfOk result (λ edges. edges.items ≡ sorted_set edge_before (segments_in tagged.now)) }
{
    let mut edges = Vec::new(alloc);
    for n in 0..tagged.len() {
        if is_new(tagged, n) {
            edges.push(tagged[n].0)?;
        }
    }
    edges.shrink_to_fit();
    Ok(edges)
}

// For each edge in order, the features of the segments that are the edge.
pub(crate) fn feature_rows(alloc: Global, tagged: &[(Edge, usize)]) -> Result<Rows<u32>, AllocError>
    requires in_order { IsSortedBy edge_before (segments_in tagged.now) }
    requires few { All (λ (t : EdgeOf × ℕ). t.1 < 2 ^ 20) tagged.now }
    ensures { IfOk result (λ rows. rows ≡ map (features_of tagged.now) (sorted_set edge_before (segments_in tagged.now))) }
{
    let mut rows = Rows::new(alloc);
    for n in 0..tagged.len() {
        if is_new(tagged, n) {
            rows.start(rows.len() + 1)?;
        }
        rows.extend(&[tagged[n].1 as u32])?;
    }
    Ok(rows)
}
