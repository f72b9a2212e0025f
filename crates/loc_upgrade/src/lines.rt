//! The lines of the edges of an index, written in order.

ghost use Rattle.std.specs.Prelude.{◌<◌, ◌++◌, codes, length};
ghost use Rattle.loc_io.specs.Streams.{TakesAll};
ghost use Rattle.loc_page.specs.Puts.{PutsText};
ghost use Rattle.loc_spec_plane.specs.Tables.{source_of};
ghost use Rattle.loc_spec_text.specs.Points.{grid_text, position_text};
ghost use Rattle.loc_upgrade.specs.EdgeTexts.{edge_line, edge_lines, ends_in, pair_text};

use loc_edges::EdgeTable;
use loc_geom::Point;
use loc_io::{Sink, WriteFault};
use loc_page::Page;
use loc_spec_text::Scale;
use loc_wkt::put_grid;

// Room for a grid value.
const ROOM: usize = 40;

// A coordinate at a scale.
fn put_value<O: Sink>(
    page: &mut Page,
    sink: &mut O,
    value: i64,
    scale: Scale,
) -> Result<(), WriteFault>
    ensures { PutsText (grid_text scale value) (O.meaning sink.old) (O.meaning sink.new) page.old page.new result }
{
    let mut room = [b'0'; ROOM];
    let start = put_grid(&mut room, value, scale.decimals());
    page.put(sink, &room[start..])
}

// x, a space, y.
fn put_position<O: Sink>(
    page: &mut Page,
    sink: &mut O,
    point: Point,
    scale: Scale,
) -> Result<(), WriteFault>
    ensures { PutsText (position_text scale point) (O.meaning sink.old) (O.meaning sink.new) page.old page.new result }
{
    put_value(page, sink, point.x(), scale)?;
    page.put(sink, b" ")?;
    put_value(page, sink, point.y(), scale)
}

// Two corners by their numbers.
fn put_pair<O: Sink>(
    page: &mut Page,
    sink: &mut O,
    table: &EdgeTable,
    pair: (u32, u32),
    scale: Scale,
) -> Result<(), WriteFault>
    requires goes_up { pair.0 < pair.1 }
    requires in_range { pair.1 < length table.now.corners }
    ensures { PutsText (pair_text scale table.now pair) (O.meaning sink.old) (O.meaning sink.new) page.old page.new
        result }
{
    put_position(page, sink, table.corner(pair.0), scale)?;
    page.put(sink, b", ")?;
    put_position(page, sink, table.corner(pair.1), scale)
}

// An edge and its source, behind its number.
fn put_source<O: Sink>(
    page: &mut Page,
    sink: &mut O,
    table: &EdgeTable,
    edge: u32,
    scale: Scale,
) -> Result<(), WriteFault>
    requires in_range { edge < length table.now.ends }
    ensures { PutsText (pair_text scale table.now (ends_in table.now edge)
        ++ (codes " of " ++ (pair_text scale table.now (source_of table.now edge) ++ codes "\n")))
        (O.meaning sink.old) (O.meaning sink.new) page.old page.new result }
{
    put_pair(page, sink, table, table.ends(edge), scale)?;
    page.put(sink, b" of ")?;
    put_pair(page, sink, table, table.source(edge), scale)?;
    page.put(sink, b"\n")
}

// The line of an edge.
fn put_edge<O: Sink>(
    page: &mut Page,
    sink: &mut O,
    table: &EdgeTable,
    edge: u32,
    scale: Scale,
) -> Result<(), WriteFault>
    requires in_range { edge < length table.now.ends }
    ensures { PutsText (edge_line scale table.now edge) (O.meaning sink.old) (O.meaning sink.new) page.old page.new
        result }
{
    page.put(sink, b"edge ")?;
    page.put_number(sink, edge)?;
    page.put(sink, b" ")?;
    put_source(page, sink, table, edge, scale)
}

// The lines of all edges.
fn put_edges<O: Sink>(
    page: &mut Page,
    sink: &mut O,
    table: &EdgeTable,
    scale: Scale,
) -> Result<(), WriteFault>
    ensures { PutsText (edge_lines scale table.now) (O.meaning sink.old) (O.meaning sink.new) page.old page.new result }
{
    for edge in 0..table.edge_count() {
        put_edge(page, sink, table, edge, scale)?;
    }
    Ok(())
}

/// Writes the lines of the edges of a table at a scale. It takes no memory.
pub(crate) fn write_edges<O: Sink>(
    table: &EdgeTable,
    scale: Scale,
    sink: &mut O,
) -> Result<(), WriteFault>
    ensures { TakesAll (edge_lines scale table.now) (O.meaning sink.old) (O.meaning sink.new) result }
{
    let mut page = Page::new();
    put_edges(&mut page, sink, table, scale)?;
    page.flush(sink)
}
