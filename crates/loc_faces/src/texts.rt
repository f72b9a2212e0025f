// The text of a face, put on a page in order.

ghost use Rattle.std.specs.Prelude.{◌≡◌, ◌<◌, ◌≤◌, ◌++◌, codes, length, All, IfErr};
ghost use Rattle.std.specs.Fmt.{decimal};
ghost use Rattle.std.specs.List.{flat_map};
ghost use Rattle.loc_io.specs.Streams.{TakesAll};
ghost use Rattle.loc_page.specs.Puts.{PutsText};
ghost use Rattle.loc_spec_plane.specs.Faces.{face_count};
ghost use Rattle.loc_spec_plane.specs.HalfEdges.{half_edge_count};
ghost use Rattle.loc_spec_text.specs.Points.{ended, grid_text, position_text};
ghost use Rattle.loc_half.specs.HalfEdgeLists.{AreHalfEdges, next_in};
ghost use Rattle.loc_faces.specs.FaceLists.{AreFaces, face_in};
ghost use Rattle.loc_faces.specs.FaceTexts.{corner_text, cycle_line, cycle_text, face_text};
ghost use Rattle.loc_faces.specs.declared.faults.FaceFault.{FaceFault};

use crate::{FaceFault, Faces};
use loc_edges::EdgeTable;
use loc_geom::Point;
use loc_half::HalfEdges;
use loc_io::{Sink, WriteFault};
use loc_page::Page;
use loc_wkt::put_grid;

// Room for a grid value.
const ROOM: usize = 40;

// A coordinate at a scale.
fn put_value<O: Sink>(
    page: &mut Page,
    sink: &mut O,
    value: i64,
    scale: u8,
) -> Result<(), WriteFault>
    requires scale { scale ≤ 15 }
    ensures { PutsText (grid_text scale value) (O.meaning sink.old) (O.meaning sink.new) page.old page.new result }
{
    let mut room = [b'0'; ROOM];
    let start = put_grid(&mut room, value, scale);
    page.put(sink, &room[start..])
}

/// Puts a point on a page: x, a space, y, at a scale of at most 15.
pub fn put_position<O: Sink>(
    page: &mut Page,
    sink: &mut O,
    point: Point,
    scale: u8,
) -> Result<(), WriteFault>
    requires scale { scale ≤ 15 }
    ensures { PutsText (position_text scale point) (O.meaning sink.old) (O.meaning sink.new) page.old page.new result }
{
    put_value(page, sink, point.x(), scale)?;
    page.put(sink, b" ")?;
    put_value(page, sink, point.y(), scale)
}

// The corner that a half-edge leaves.
fn put_corner<O: Sink>(
    page: &mut Page,
    sink: &mut O,
    table: &EdgeTable,
    half: &HalfEdges,
    scale: u8,
    h: u32,
) -> Result<(), WriteFault>
    requires half { AreHalfEdges table.now half.now }
    requires scale { scale ≤ 15 }
    requires in_range { h < half_edge_count table.now }
    ensures { PutsText (corner_text scale table.now h) (O.meaning sink.old) (O.meaning sink.new) page.old page.new result }
{
    table.law();
    put_position(page, sink, table.corner(half.origin(h)), scale)
}

// A further corner, behind a comma.
fn put_later<O: Sink>(
    page: &mut Page,
    sink: &mut O,
    table: &EdgeTable,
    half: &HalfEdges,
    scale: u8,
    h: u32,
) -> Result<(), WriteFault>
    requires half { AreHalfEdges table.now half.now }
    requires scale { scale ≤ 15 }
    requires in_range { h < half_edge_count table.now }
    ensures { PutsText (codes ", " ++ corner_text scale table.now h) (O.meaning sink.old) (O.meaning sink.new) page.old page.new result }
{
    page.put(sink, b", ")?;
    put_corner(page, sink, table, half, scale, h)
}

// The corners of a cycle, from a half-edge on.
fn put_cycle<O: Sink>(
    page: &mut Page,
    sink: &mut O,
    table: &EdgeTable,
    half: &HalfEdges,
    scale: u8,
    leader: u32,
) -> Result<(), WriteFault>
    requires half { AreHalfEdges table.now half.now }
    requires scale { scale ≤ 15 }
    requires in_range { leader < half_edge_count table.now }
    ensures { PutsText (cycle_text scale table.now (next_in half.now) leader) (O.meaning sink.old) (O.meaning sink.new) page.old page.new result }
{
    table.law();
    put_corner(page, sink, table, half, scale, leader)?;
    let mut h = half.next(leader);
    'round: while h != leader {
        put_later(page, sink, table, half, scale, h)?;
        h = half.next(h);
    }
    Ok(())
}

// The line of a cycle, behind a word.
fn put_line<O: Sink>(
    page: &mut Page,
    sink: &mut O,
    table: &EdgeTable,
    half: &HalfEdges,
    scale: u8,
    word: &[u8],
    leader: u32,
) -> Result<(), WriteFault>
    requires half { AreHalfEdges table.now half.now }
    requires scale { scale ≤ 15 }
    requires in_range { leader < half_edge_count table.now }
    ensures { PutsText (cycle_line scale table.now (next_in half.now) word.now leader) (O.meaning sink.old) (O.meaning sink.new) page.old page.new result }
{
    page.put(sink, word)?;
    put_cycle(page, sink, table, half, scale, leader)?;
    page.put(sink, b"\n")
}

// The lines of cycles, each behind a word.
fn put_lines<O: Sink>(
    page: &mut Page,
    sink: &mut O,
    table: &EdgeTable,
    half: &HalfEdges,
    scale: u8,
    word: &[u8],
    leaders: &[u32],
) -> Result<(), WriteFault>
    requires half { AreHalfEdges table.now half.now }
    requires scale { scale ≤ 15 }
    requires in_range { All (λ leader. leader < half_edge_count table.now) leaders.now }
    ensures { PutsText (flat_map (cycle_line scale table.now (next_in half.now) word.now) leaders.now) (O.meaning sink.old) (O.meaning sink.new) page.old page.new result }
{
    for leader in leaders {
        put_line(page, sink, table, half, scale, word, *leader)?;
    }
    Ok(())
}

// The line of a face's number.
fn put_number<O: Sink>(page: &mut Page, sink: &mut O, number: u32) -> Result<(), WriteFault>
    ensures { PutsText (ended (codes "face " ++ decimal number)) (O.meaning sink.old) (O.meaning sink.new) page.old page.new result }
{
    page.put(sink, b"face ")?;
    page.put_number(sink, number)?;
    page.put(sink, b"\n")
}

// The text of a face that there is.
fn put_text<O: Sink>(
    page: &mut Page,
    sink: &mut O,
    faces: &Faces,
    number: u32,
    table: &EdgeTable,
    half: &HalfEdges,
    scale: u8,
) -> Result<(), WriteFault>
    requires half { AreHalfEdges table.now half.now }
    requires faces { AreFaces table.now (next_in half.now) faces.now }
    requires scale { scale ≤ 15 }
    requires in_range { number < faces.now.count }
    ensures { PutsText (face_text scale table.now (next_in half.now) (face_in faces.now) number) (O.meaning sink.old) (O.meaning sink.new) page.old page.new result }
{
    put_number(page, sink, number)?;
    put_lines(
        page,
        sink,
        table,
        half,
        scale,
        b"outer ",
        faces.outer(number),
    )?;
    put_lines(
        page,
        sink,
        table,
        half,
        scale,
        b"inner ",
        faces.inner(number),
    )
}

// The same, written through a page.
fn write_text<O: Sink>(
    faces: &Faces,
    number: u32,
    table: &EdgeTable,
    half: &HalfEdges,
    scale: u8,
    sink: &mut O,
) -> Result<(), WriteFault>
    requires half { AreHalfEdges table.now half.now }
    requires faces { AreFaces table.now (next_in half.now) faces.now }
    requires scale { scale ≤ 15 }
    requires in_range { number < faces.now.count }
    ensures { TakesAll (face_text scale table.now (next_in half.now) (face_in faces.now) number) (O.meaning sink.old) (O.meaning sink.new) result }
{
    let mut page = Page::new();
    put_text(&mut page, sink, faces, number, table, half, scale)?;
    page.flush(sink)
}

/// Writes the text of a face: its number, the corners of its outer cycle, and those of each cycle that hangs in it. It takes no memory.
pub fn write_face<O: Sink>(
    faces: &Faces,
    number: u32,
    table: &EdgeTable,
    half: &HalfEdges,
    scale: u8,
    sink: &mut O,
) -> Result<(), FaceFault>
    requires half { AreHalfEdges table.now half.now }
    requires faces { AreFaces table.now (next_in half.now) faces.now }
    requires scale { scale ≤ 15 }
    ensures no_face { face_count table.now (next_in half.now) ≤ number → result ≡ Err (FaceFault.NoFace (face_count table.now (next_in half.now))) }
    ensures nothing { face_count table.now (next_in half.now) ≤ number → O.meaning sink.new ≡ O.meaning sink.old }
    ensures face { number < face_count table.now (next_in half.now) → TakesAll (face_text scale table.now (next_in half.now) (face_in faces.now) number) (O.meaning sink.old) (O.meaning sink.new) result }
    ensures fault { number < face_count table.now (next_in half.now) → IfErr result (λ fault. fault ≡ FaceFault.WriteFault) }
{
    if number >= faces.count() {
        return Err(FaceFault::NoFace {
            count: faces.count(),
        });
    }
    match write_text(faces, number, table, half, scale, sink) {
        Ok(()) => Ok(()),
        Err(_) => Err(FaceFault::WriteFault),
    }
}
