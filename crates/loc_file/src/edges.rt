// The part of the edges.

ghost use Rattle.std.specs.Prelude.{◌≡◌, ◌&&◌, ℕ, IfOk, IfErr, option_map};
ghost use Rattle.loc_spec_plane.specs.Tables.{pair_before};
ghost use Rattle.loc_spec_index.specs.IndexFile.{edge_row_before, follows, is_rising_pair, rows_of, source_fields};
ghost use Rattle.loc_file.specs.Readings.{IsRead, IsRowStop, AreRows, IsRowsStop};
ghost use Rattle.loc_file.specs.Told.{told, told_row, told_source};

use crate::cursor::Cursor;
use crate::rows::keep;
use loc_spec_index::{IndexFault, Part};
use std::alloc::Global;

// An edge of a file: its ends, the number of the cover list above it, and its source where the file names it.
#[derive(Clone, Copy, Drop)]
pub(crate) struct EdgeOf {
    pub(crate) ends: (u32, u32),
    pub(crate) cover: u32,
    pub(crate) source: (u32, u32),
}

// The source of an edge in a file of this version. Where the version names none, each edge is its own.
pub(crate) fn source_of(version: u32, edge: EdgeOf) -> (u32, u32)
    ensures { result ≡ told_source version edge }
{
    if version == 1 { edge.ends } else { edge.source }
}

// Whether a pair of numbers comes before another.
pub(crate) fn is_before(a: (u32, u32), b: (u32, u32)) -> bool
    ensures { result ≡ pair_before a b }
{
    a.0 < b.0 || (a.0 == b.0 && a.1 < b.1)
}

// Whether an edge comes behind the one before it, if there is one.
fn follows(last: Option<EdgeOf>, edge: EdgeOf) -> bool
    ensures { (v : ℕ) → result ≡ follows edge_row_before (option_map (told v) last) (told v edge) }
{
    match last {
        None => true,
        Some(other) => is_before(other.ends, edge.ends),
    }
}

// Whether the first of two numbers is the lesser.
fn goes_up(pair: (u32, u32)) -> bool
    ensures { result ≡ is_rising_pair pair }
{
    pair.0 < pair.1
}

// Whether an edge and its source go up, and the edge comes behind the one before it.
fn is_in_order(version: u32, last: Option<EdgeOf>, edge: EdgeOf) -> bool
    ensures { result ≡ ((is_rising_pair edge.ends && is_rising_pair (told_source version edge)) && follows edge_row_before (option_map (told version) last) (told version edge)) }
{
    goes_up(edge.ends) && goes_up(source_of(version, edge)) && follows(last, edge)
}

// The source of an edge, where the version names it; else these stand in for it.
fn next_source(
    cursor: &mut Cursor<'_>,
    version: u32,
    corners: u32,
    ends: (u32, u32),
) -> Result<(u32, u32), IndexFault>
    ensures ok { IfOk result (λ source. IsRead (source_fields version corners source) cursor.old cursor.new) }
    ensures err { IfErr result (IsRowStop (source_fields version corners) cursor.old) }
{
    if version == 1 {
        Ok(ends)
    } else {
        cursor.two_numbers(corners, corners)
    }
}

// An edge behind another.
fn next_edge(
    cursor: &mut Cursor<'_>,
    version: u32,
    corners: u32,
    covers: u32,
    row: u32,
    last: Option<EdgeOf>,
) -> Result<EdgeOf, IndexFault>
    ensures ok { IfOk result (λ e. IsRead (told_row version corners covers row last e) cursor.old cursor.new) }
    ensures err { IfErr result (IsRowStop (told_row version corners covers row last) cursor.old) }
{
    let (lower, upper, cover) = cursor.three_numbers(corners, corners, covers)?;
    let source = next_source(cursor, version, corners, (lower, upper))?;
    let edge = EdgeOf {
        ends: (lower, upper),
        cover,
        source,
    };
    cursor.in_order(is_in_order(version, last, edge), Part::Edges, row)?;
    Ok(edge)
}

// The edges, which rise.
pub(crate) fn read_edges(
    alloc: Global,
    cursor: &mut Cursor<'_>,
    version: u32,
    corners: u32,
    covers: u32,
    count: u32,
) -> Result<Vec<EdgeOf>, IndexFault>
    ensures ok { IfOk result (λ edges. AreRows (rows_of (told_row version corners covers)) count edges.items cursor.old cursor.new) }
    ensures err { IfErr result (IsRowsStop (rows_of (told_row version corners covers)) count cursor.old) }
{
    let mut edges = Vec::new(alloc);
    let mut last = None;
    for row in 0..count {
        let edge = next_edge(cursor, version, corners, covers, row, last)?;
        keep(&mut edges, edge)?;
        last = Some(edge);
    }
    Ok(edges)
}
