// What a span meets beside the edges alive at its low point: those that end there, and those that begin in its column.

ghost use Rattle.std.specs.Prelude.{◌≡◌, ◌-◌, ◌<◌, ◌≤◌, ◌==◌, IfOk, filter, length};
ghost use Rattle.std.specs.List.{flat_map, range_with_len};
ghost use Rattle.loc_page.specs.Puts.{PutsText};
ghost use Rattle.loc_spec_plane.specs.Tables.{edge_numbers, hi_of};
ghost use Rattle.loc_spec_text.specs.Spans.{numbered};
ghost use Rattle.loc_laws_stab.proofs.Beginning.{begin_list};
ghost use Rattle.loc_stab.specs.Ended.{IsCornerIn, ended_at};

use crate::run::put_edge;
use loc_edges::Views;
use loc_io::{Sink, WriteFault};
use loc_page::Page;
use loc_place::Standing;
use std::sync::ledger::Ledger;

// Each edge of a list behind a space.
fn write_each<O: Sink>(edges: &[u32], page: &mut Page, sink: &mut O) -> Result<(), WriteFault>
    ensures { PutsText (flat_map numbered edges.now) (O.meaning sink.old) (O.meaning sink.new) page.old page.new result }
{
    for edge in edges {
        put_edge(page, sink, *edge)?;
    }
    Ok(())
}

// The edges from one number on and before another.
fn write_range<O: Sink>(
    first: u32,
    past: u32,
    page: &mut Page,
    sink: &mut O,
) -> Result<(), WriteFault>
    requires { first ≤ past }
    ensures { PutsText (flat_map numbered (range_with_len first (past - first))) (O.meaning sink.old) (O.meaning sink.new) page.old page.new result }
{
    for edge in first..past {
        put_edge(page, sink, edge)?;
    }
    Ok(())
}

// The edges that begin at the corners from one on and before another, corner after corner, and how many these are.
pub(crate) fn write_beginning<O: Sink, L: Ledger>(
    views: &Views<'_, L>,
    from: u32,
    past: u32,
    page: &mut Page,
    sink: &mut O,
) -> Result<u32, WriteFault>
    requires in_order { from ≤ past }
    requires within { past ≤ length views.now.corners }
    ensures written { PutsText (flat_map numbered (begin_list views.now from past)) (O.meaning sink.old) (O.meaning sink.new) page.old page.new result }
    ensures count { IfOk result (λ n. n ≡ length (begin_list views.now from past)) }
{
    views.law();
    let mut count = 0;
    for corner in from..past {
        let (first, last) = views.beginning(corner);
        write_range(first, last, page, sink)?;
        count += last - first;
    }
    Ok(count)
}

// The edges that end at a corner, and how many these are.
fn write_ending<O: Sink, L: Ledger>(
    views: &Views<'_, L>,
    corner: u32,
    page: &mut Page,
    sink: &mut O,
) -> Result<u32, WriteFault>
    requires { corner < length views.now.corners }
    ensures written { PutsText (flat_map numbered (filter (λ e. hi_of views.now e == corner) (edge_numbers views.now))) (O.meaning sink.old) (O.meaning sink.new) page.old page.new result }
    ensures count { IfOk result (λ n. n ≡ length (filter (λ e. hi_of views.now e == corner) (edge_numbers views.now))) }
{
    views.law();
    let edges = views.ending(corner);
    write_each(edges, page, sink)?;
    Ok(edges.len() as u32)
}

// The edges that end at a corner, if a point stands on one, and how many these are.
pub(crate) fn write_ended<O: Sink, L: Ledger>(
    views: &Views<'_, L>,
    at: Standing,
    page: &mut Page,
    sink: &mut O,
) -> Result<u32, WriteFault>
    requires { IsCornerIn views.now at }
    ensures written { PutsText (flat_map numbered (ended_at views.now at)) (O.meaning sink.old) (O.meaning sink.new) page.old page.new result }
    ensures count { IfOk result (λ n. n ≡ length (ended_at views.now at)) }
{
    match at {
        Standing::OnCorner(corner) => write_ending(views, corner, page, sink),
        Standing::Behind(_) => Ok(0),
    }
}
