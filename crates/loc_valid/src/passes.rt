// The breaches by the lists above edges: one pass over the edges for each.

ghost use Rattle.std.specs.Prelude.{◌≡◌, ℕ, ◌<◌, IsTrue, [], length, get_or, IfOk};
ghost use Rattle.loc_spec_plane.specs.Covers.{cover_above};
ghost use Rattle.loc_spec_plane.specs.Tables.{has};
ghost use Rattle.loc_laws_valid.specs.Laws.{ring_of};
ghost use Rattle.loc_valid.specs.Hits.{AreClimbing, AreOddLists, IsLaidOut, IsLeastOf, misplaced_in, overlap_in};

use crate::hits::{Fault, misplaced};
use crate::least::{Least, least_odd, lesser, other_of};
use loc_cover::Legend;
use loc_edges::EdgeTable;
use loc_rings::Rings;
use std::alloc::{AllocError, Global};

// The first ring that has the edge.
fn ring_at(table: &EdgeTable, edge: u32) -> u32
    requires in_range { edge < length table.now.ends }
    requires some { 0 < length (get_or table.now.marks edge []) }
    ensures { IsTrue (has table.now result edge) }
{
    table.marks(edge)[0].feature
}

/// The least pair of a hole with an edge by which it is misplaced so, and the ring against which it is.
pub(crate) fn first_misplaced(
    fault: Fault,
    rings: &Rings,
    homes: &[u32],
    table: &EdgeTable,
    legend: &Legend,
) -> Option<(u32, u32)>
    requires { IsLaidOut rings.now homes.now table.now legend.now }
    ensures { IsLeastOf (λ e. misplaced_in fault rings.now (ring_of rings.now table.now e) (cover_above table.now e)) (length table.now.ends) result }
{
    table.law();
    legend.law();
    let mut least = None;
    for edge in 0..table.edge_count() {
        let ring = ring_at(table, edge);
        least = lesser(
            least,
            misplaced(fault, rings, homes, legend.above(edge), ring),
        );
    }
    least
}

// For each distinct list the two least polygons of which it has an odd number of rings.
fn odd_lists(alloc: Global, homes: &[u32], legend: &Legend) -> Result<Vec<Least>, AllocError>
    requires climbing { AreClimbing homes.now }
    requires named { length legend.now.ids ≡ length homes.now }
    ensures { IfOk result (λ odd. AreOddLists homes.now legend.now.lists (length legend.now.lists) odd.items) }
{
    legend.law();
    let mut odd = Vec::new(alloc);
    for n in 0..legend.covers() {
        odd.push(least_odd(legend.cover(n), homes))?;
    }
    Ok(odd)
}

/// The least pair of a polygon with an edge inside another polygon, and that polygon.
pub(crate) fn first_overlap(
    alloc: Global,
    rings: &Rings,
    homes: &[u32],
    table: &EdgeTable,
    legend: &Legend,
) -> Result<Option<(u32, u32)>, AllocError>
    requires { IsLaidOut rings.now homes.now table.now legend.now }
    ensures { IfOk result (IsLeastOf (λ e. overlap_in rings.now (ring_of rings.now table.now e) (cover_above table.now e)) (length table.now.ends)) }
{
    table.law();
    legend.law();
    let _rings = rings;
    let odd = odd_lists(alloc, homes, legend)?;
    let mut least = None;
    for edge in 0..table.edge_count() {
        let polygon = homes[ring_at(table, edge) as usize];
        least = lesser(
            least,
            other_of(odd[legend.cover_of(edge) as usize], polygon),
        );
    }
    Ok(least)
}
