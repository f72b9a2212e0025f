// The marks of edges: for each edge the features that have it as a segment, and whether they have it an odd number of times.

ghost use Rattle.std.specs.Prelude.{◌≡◌, ◌<◌, ◌^◌, ◌++◌, [], ◌∷◌, ℕ, List, map, All, IfOk, OnOk};
ghost use Rattle.std.specs.List.Sorted.{IsSortedBy};
ghost use Rattle.loc_spec_plane.specs.Points.{Edge as EdgeOf, edge_before};
ghost use Rattle.loc_spec_plane.specs.Lists.{sorted_set};
ghost use Rattle.loc_edges.specs.Tagged.{marks_in, marks_of, segments_in};

use crate::grouped::feature_rows;
use crate::rows::Rows;
use loc_geom::Edge;
use loc_spec_plane::Mark;
use std::alloc::{AllocError, Global};

// Counts one more segment of the feature.
fn count_segment(row: &mut Vec<Mark>, feature: u32) -> Result<(), AllocError>
    ensures { OnOk result ((fs : List ℕ) → row.old.items ≡ marks_of fs → row.new.items ≡ marks_of (fs ++ feature ∷ [])) }
{
    let len = row.len();
    if len > 0 && row[len - 1].feature == feature {
        let odd = !row[len - 1].odd;
        row[len - 1] = Mark { feature, odd };
    } else {
        row.push(Mark { feature, odd: true })?;
    }
    Ok(())
}

// Counts the segments of an edge, given by their features in order, in a row that is cleared first.
fn count_edge(row: &mut Vec<Mark>, features: &[u32]) -> Result<(), AllocError>
    ensures { OnOk result (row.new.items ≡ marks_of features.now) }
{
    row.clear();
    for feature in features {
        count_segment(row, *feature)?;
    }
    Ok(())
}

// The marks of each edge, from the features of its segments in order.
fn mark_rows(alloc: Global, features: &Rows<u32>) -> Result<Rows<Mark>, AllocError>
    ensures { IfOk result (λ rows. rows ≡ map marks_of features.now) }
{
    let mut rows = Rows::new(alloc);
    let mut row = Vec::new(alloc);
    for n in 0..features.len() {
        count_edge(&mut row, features.row(n))?;
        rows.push(&row)?;
    }
    Ok(rows)
}

// The marks of each edge, from the segments of all features in order.
pub(crate) fn edge_marks(
    alloc: Global,
    tagged: Vec<(Edge, usize)>,
) -> Result<Rows<Mark>, AllocError>
    requires in_order { IsSortedBy edge_before (segments_in tagged.items) }
    requires few { All (λ (t : EdgeOf × ℕ). t.1 < 2 ^ 20) tagged.items }
    ensures { IfOk result (λ rows. rows ≡ marks_in tagged.items) }
{
    let features = feature_rows(alloc, &tagged)?;
    drop(tagged);
    mark_rows(alloc, &features)
}
