// The cycles, noted at their leaders: the least corner of each, and whether it hangs.

ghost use Rattle.std.specs.Prelude.{◌≡◌, ◌<◌, ◌≤◌, IfOk, length};
ghost use Rattle.loc_spec_plane.specs.HalfEdges.{half_edge_count, target as target_of};
ghost use Rattle.loc_spec_plane.specs.Faces.{leads_face};
ghost use Rattle.loc_half.specs.HalfEdgeLists.{AreHalfEdges, next_in};
ghost use Rattle.loc_faces.specs.Boundaries.{leads_hanging as leads_hanging_by};
ghost use Rattle.loc_faces.specs.Cycles.{AreHanging, AreLeast, AreNumbered, passes_low as passes_low_by};

use loc_edges::EdgeTable;
use loc_geom::lower;
use loc_half::HalfEdges;
use std::alloc::{AllocError, Global};

// The corner at which a half-edge arrives.
fn target(table: &EdgeTable, h: u32) -> u32
    requires { h < half_edge_count table.now }
    ensures { result ≡ target_of table.now h }
{
    let (lo, hi) = table.ends(h / 2);
    if h % 2 == 0 { hi } else { lo }
}

/// The least corner of each cycle.
pub(crate) fn least_corners(
    alloc: Global,
    table: &EdgeTable,
    half: &HalfEdges,
) -> Result<Vec<u32>, AllocError>
    requires half { AreHalfEdges table.now half.now }
    ensures { IfOk result (λ least. AreLeast table.now half.now least.items) }
{
    table.law();
    let count = 2 * table.edge_count();
    let mut least = Vec::new(alloc);
    least.resize(count as usize, table.corner_count())?;
    for h in 0..count {
        let leader = half.leader(h) as usize;
        least[leader] = least[leader].min(target(table, h));
    }
    Ok(least)
}

// Whether a half-edge arrives at the least corner of its cycle, and its next leaves by its edge or a higher one.
fn passes_low(table: &EdgeTable, half: &HalfEdges, least: &[u32], h: u32) -> bool
    requires half { AreHalfEdges table.now half.now }
    requires least { AreLeast table.now half.now least.now }
    requires in_range { h < half_edge_count table.now }
    ensures { result ≡ passes_low_by table.now half.now least.now h }
{
    table.law();
    let (from, to) = (h / 2, half.next(h) / 2);
    target(table, h) == least[half.leader(h) as usize]
        && (from == to || lower(table.edge(from), table.edge(to)))
}

/// Whether each cycle hangs.
pub(crate) fn hanging_cycles(
    alloc: Global,
    table: &EdgeTable,
    half: &HalfEdges,
    least: &[u32],
) -> Result<Vec<bool>, AllocError>
    requires half { AreHalfEdges table.now half.now }
    requires least { AreLeast table.now half.now least.now }
    ensures { IfOk result (λ hanging. AreHanging table.now half.now hanging.items) }
{
    table.law();
    let count = 2 * table.edge_count();
    let mut hanging = Vec::new(alloc);
    hanging.resize(count as usize, false)?;
    for h in 0..count {
        if passes_low(table, half, least, h) {
            hanging[half.leader(h) as usize] = true;
        }
    }
    Ok(hanging)
}

// Whether a half-edge leads an outer cycle.
fn leads_outer(table: &EdgeTable, half: &HalfEdges, hanging: &[bool], h: u32) -> bool
    requires half { AreHalfEdges table.now half.now }
    requires hanging { AreHanging table.now half.now hanging.now }
    requires in_range { h < half_edge_count table.now }
    ensures { result ≡ leads_face table.now (next_in half.now) h }
{
    half.leader(h) == h && !hanging[h as usize]
}

/// Whether a half-edge leads a cycle that hangs.
pub(crate) fn leads_hanging(table: &EdgeTable, half: &HalfEdges, hanging: &[bool], h: u32) -> bool
    requires half { AreHalfEdges table.now half.now }
    requires hanging { AreHanging table.now half.now hanging.now }
    requires in_range { h < half_edge_count table.now }
    ensures { result ≡ leads_hanging_by table.now (next_in half.now) h }
{
    half.leader(h) == h && hanging[h as usize]
}

/// The leaders of the outer cycles in order, and for each of them the number of its face.
pub(crate) fn number_outer(
    alloc: Global,
    table: &EdgeTable,
    half: &HalfEdges,
    hanging: &[bool],
) -> Result<(Vec<u32>, Vec<u32>), AllocError>
    requires half { AreHalfEdges table.now half.now }
    requires hanging { AreHanging table.now half.now hanging.now }
    ensures { IfOk result (λ made. AreNumbered table.now half.now made.0.items made.1.items (half_edge_count table.now)) }
{
    table.law();
    let count = 2 * table.edge_count();
    let mut outers = Vec::new(alloc);
    let mut of_cycle = Vec::new(alloc);
    of_cycle.resize(count as usize, 0)?;
    for h in 0..count {
        if leads_outer(table, half, hanging, h) {
            outers.push(h)?;
            of_cycle[h as usize] = outers.len() as u32;
        }
    }
    Ok((outers, of_cycle))
}
