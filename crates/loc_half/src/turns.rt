// The edges at a corner, against the clock.

ghost use Rattle.std.specs.Prelude.{◌≡◌, ◌<◌, length, OnOk};
ghost use Rattle.std.specs.Ordering.{is_lt};
ghost use Rattle.loc_spec_plane.specs.HalfEdges.{comes_round as comes_round_at, IsTurnList};
ghost use Rattle.loc_spec_plane.specs.Tables.{NoConflict};
ghost use Rattle.loc_half.specs.Turns.{AreEdgesAt, stands_at, stands_before as stands_before_at};

use loc_edges::EdgeTable;
use loc_geom::lower;
use std::alloc::AllocError;
use std::cmp::Ordering;

// Whether a number is that of an edge that has an end at the corner.
fn is_at(table: &EdgeTable, corner: u32, edge: u32) -> bool
    ensures { result ≡ stands_at table.now corner edge }
{
    if edge >= table.edge_count() {
        return false;
    }
    let (lo, hi) = table.ends(edge);
    lo == corner || hi == corner
}

// Whether edge a comes before edge b round a corner at which both have an end: first the edges that begin there, from the lowest up,
// then those that end there, from the highest down.
fn comes_round(table: &EdgeTable, corner: u32, a: u32, b: u32) -> bool
    requires first_in_range { a < length table.now.ends }
    requires second_in_range { b < length table.now.ends }
    ensures { result ≡ comes_round_at table.now corner a b }
{
    let (a_lo, _) = table.ends(a);
    let (b_lo, _) = table.ends(b);
    match (a_lo == corner, b_lo == corner) {
        (true, true) => lower(table.edge(a), table.edge(b)),
        (true, false) => true,
        (false, true) => false,
        (false, false) => lower(table.edge(b), table.edge(a)),
    }
}

// The same of any two numbers, where what is no edge at the corner comes last.
fn stands_before(table: &EdgeTable, corner: u32, a: u32, b: u32) -> bool
    ensures { result ≡ stands_before_at table.now corner a b }
{
    is_at(table, corner, a) && (!is_at(table, corner, b) || comes_round(table, corner, a, b))
}

// The order of two edges round a corner.
fn turn_order(table: &EdgeTable, corner: u32, a: u32, b: u32) -> Ordering
    ensures { is_lt result ≡ stands_before_at table.now corner a b }
{
    if stands_before(table, corner, a, b) {
        Ordering::Less
    } else if a == b {
        Ordering::Equal
    } else {
        Ordering::Greater
    }
}

// Puts the edges at a corner into a row, in place of others.
fn put_edges(row: &mut Vec<u32>, table: &EdgeTable, corner: u32) -> Result<(), AllocError>
    requires in_range { corner < length table.now.corners }
    ensures { OnOk result (AreEdgesAt table.now corner row.new.items) }
{
    table.law();
    row.clear();
    let (first, past) = table.beginning(corner);
    for edge in first..past {
        row.push(edge)?;
    }
    row.extend_from_slice(table.ending(corner))?;
    Ok(())
}

// Puts the edges at a corner into a row, against the clock, in place of others.
pub(crate) fn put_turns(
    row: &mut Vec<u32>,
    table: &EdgeTable,
    corner: u32,
) -> Result<(), AllocError>
    requires in_range { corner < length table.now.corners }
    requires no_conflict { NoConflict table.now }
    ensures { OnOk result (IsTurnList table.now corner row.new.items) }
{
    table.law();
    put_edges(row, table, corner)?;
    row.sort_unstable_by(|a, b| turn_order(table, corner, *a, *b));
    Ok(())
}
