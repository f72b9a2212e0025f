// The next of each half-edge, and its origin.

ghost use Rattle.std.specs.Prelude.{◌≡◌, ◌≢◌, ◌<◌, ℕ, length, get_or, IfOk};
ghost use Rattle.loc_spec_plane.specs.HalfEdges.{half_edge_count, IsNext, IsNextOfAll, IsTurnList, leaving as leaving_by, origin, target};
ghost use Rattle.loc_spec_plane.specs.Tables.{NoConflict};
ghost use Rattle.loc_half.specs.Turns.{arriving as arriving_by};

use crate::turns::put_turns;
use loc_edges::EdgeTable;
use std::alloc::{AllocError, Global};

// The half-edge that leaves a corner by an edge.
fn leaving(table: &EdgeTable, corner: u32, edge: u32) -> u32
    requires { edge < length table.now.ends }
    ensures { result ≡ leaving_by table.now corner edge }
{
    table.law();
    let (lo, _) = table.ends(edge);
    if lo == corner { 2 * edge } else { 2 * edge + 1 }
}

// The half-edge that arrives at a corner by an edge.
fn arriving(table: &EdgeTable, corner: u32, edge: u32) -> u32
    requires { edge < length table.now.ends }
    ensures { result ≡ arriving_by table.now corner edge }
{
    table.law();
    let (_, hi) = table.ends(edge);
    if hi == corner { 2 * edge } else { 2 * edge + 1 }
}

// What arrives at a corner by an edge leaves by the edge before, going round.
fn link_corner(nexts: &mut [u32], table: &EdgeTable, corner: u32, turns: &[u32])
    requires as_many { length nexts.old ≡ half_edge_count table.now }
    requires turns { IsTurnList table.now corner turns.now }
    ensures as_many { length nexts.new ≡ length nexts.old }
    ensures linked { (h : ℕ) → h < half_edge_count table.now → target table.now h ≡ corner → IsNext table.now h (get_or nexts.new h 0) }
    ensures others { (h : ℕ) → target table.now h ≢ corner → get_or nexts.new h 0 ≡ get_or nexts.old h 0 }
{
    table.law();
    let Some(mut before) = turns.last().copied() else {
        return;
    };
    for edge in turns {
        let arrival = arriving(table, corner, *edge);
        nexts[arrival as usize] = leaving(table, corner, before);
        before = *edge;
    }
}

// The next of each half-edge.
pub(crate) fn next_of_each(alloc: Global, table: &EdgeTable) -> Result<Vec<u32>, AllocError>
    requires no_conflict { NoConflict table.now }
    ensures as_many { IfOk result (λ nexts. length nexts.items ≡ half_edge_count table.now) }
    ensures nexts { IfOk result (λ nexts. IsNextOfAll table.now (λ h. get_or nexts.items h 0)) }
{
    table.law();
    let mut nexts = Vec::new(alloc);
    nexts.resize(2 * table.edge_count() as usize, 0)?;
    let mut turns = Vec::new(alloc);
    for corner in 0..table.corner_count() {
        put_turns(&mut turns, table, corner)?;
        link_corner(&mut nexts, table, corner, &turns);
    }
    Ok(nexts)
}

// The corner that each half-edge leaves.
pub(crate) fn origin_of_each(alloc: Global, table: &EdgeTable) -> Result<Vec<u32>, AllocError>
    ensures as_many { IfOk result (λ origins. length origins.items ≡ half_edge_count table.now) }
    ensures each { IfOk result (λ origins. (h : ℕ) → h < half_edge_count table.now → get_or origins.items h 0 ≡ origin table.now h) }
{
    let mut origins = Vec::new(alloc);
    for edge in 0..table.edge_count() {
        let (lo, hi) = table.ends(edge);
        origins.push(lo)?;
        origins.push(hi)?;
    }
    Ok(origins)
}
