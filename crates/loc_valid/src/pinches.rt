// Rings that pass a corner twice.

ghost use Rattle.std.specs.Prelude.{◌≡◌, ◌++◌, ◌≤◌, length, IfOk, OnOk};
ghost use Rattle.std.specs.List.Sorted.{IsSorted};
ghost use Rattle.loc_spec_plane.specs.Covers.{feature_count};
ghost use Rattle.loc_spec_plane.specs.Tables.{corner_numbers};
ghost use Rattle.loc_spec_valid.specs.Breaches.{feature_rings, first_pair, is_pinch, ring_numbers, ring_table};
ghost use Rattle.loc_valid.specs.Pinches.{IsFirstThrice, ends_by, pair_cmp, ring_ends};

use loc_edges::EdgeTable;
use loc_rings::Feature;
use loc_spec_plane::Mark;
use std::alloc::{AllocError, Global};

// Puts each ring that has an edge behind the others, once with each end of the edge.
fn put_ends(all: &mut Vec<(u32, u32)>, ends: (u32, u32), marks: &[Mark]) -> Result<(), AllocError>
    ensures { OnOk result (all.new.items ≡ all.old.items ++ ends_by ends marks.now) }
{
    for mark in marks {
        all.push((mark.feature, ends.0))?;
        all.push((mark.feature, ends.1))?;
    }
    Ok(())
}

// Each ring with each end of its edges.
fn ends_of_rings(alloc: Global, table: &EdgeTable) -> Result<Vec<(u32, u32)>, AllocError>
    ensures { IfOk result (λ ends. ends.items ≡ ring_ends table.now) }
{
    let mut all = Vec::new(alloc);
    for edge in 0..table.edge_count() {
        put_ends(&mut all, table.ends(edge), table.marks(edge))?;
    }
    Ok(all)
}

// The first of pairs in order that stands there more than twice.
fn first_thrice(pairs: &[(u32, u32)]) -> Option<(u32, u32)>
    requires in_order { IsSorted pair_cmp pairs.now }
    ensures { IsFirstThrice pairs.now result }
{
    for i in 2..pairs.len() {
        if pairs[i] == pairs[i - 2] {
            return Some(pairs[i]);
        }
    }
    None
}

/// The first ring, and of it the first corner, at which more than two of its edges end.
pub(crate) fn first_pinch(
    alloc: Global,
    feature: &Feature,
    table: &EdgeTable,
) -> Result<Option<(u32, u32)>, AllocError>
    requires of_rings { table.now ≡ ring_table feature.now.polygons }
    requires features { feature_count table.now ≤ length (feature_rings feature.now.polygons) }
    ensures { IfOk result (λ pair. pair ≡ first_pair (is_pinch feature.now.polygons table.now) (ring_numbers feature.now.polygons) (corner_numbers table.now)) }
{
    let _feature = feature;
    table.law();
    let mut pairs = ends_of_rings(alloc, table)?;
    pairs.sort_unstable();
    Ok(first_thrice(&pairs))
}
