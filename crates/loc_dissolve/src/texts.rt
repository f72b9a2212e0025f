// The groups as a layer in form csv.

ghost use Rattle.std.specs.Prelude.{◌≤◌, ◌++◌, ℕ, List, codes, map};
ghost use Rattle.std.specs.List.{flat_map};
ghost use Rattle.loc_io.specs.Streams.{TakesAll};
ghost use Rattle.loc_page.specs.Puts.{PutsText};
ghost use Rattle.loc_spec_text.specs.Points.{position_text};
ghost use Rattle.loc_dissolve.specs.Writing.{closed_text};
ghost use Rattle.loc_spec_groups.specs.GroupTexts.{dissolved_text, enclosed, group_row, listed, polygon_text, polygons_text, ring_text};

use crate::groups::{Dissolved, Group, Polygon, Ring};
use loc_batch::put_doubled;
use loc_faces::put_position;
use loc_geom::Point;
use loc_io::{Sink, WriteFault};
use loc_page::Page;

// A corner, and a comma behind it.
fn put_corner<O: Sink>(
    page: &mut Page,
    sink: &mut O,
    point: Point,
    scale: u8,
) -> Result<(), WriteFault>
    requires scale { scale ≤ 15 }
    ensures { PutsText (position_text scale point ++ codes ", ") (O.meaning sink.old) (O.meaning sink.new) page.old page.new result }
{
    put_position(page, sink, point, scale)?;
    page.put(sink, b", ")
}

// Corners, each with a comma behind it.
fn put_corners<O: Sink>(
    page: &mut Page,
    sink: &mut O,
    corners: &[Point],
    scale: u8,
) -> Result<(), WriteFault>
    requires scale { scale ≤ 15 }
    ensures { PutsText (flat_map (λ p. position_text scale p ++ codes ", ") corners.now) (O.meaning sink.old) (O.meaning sink.new) page.old page.new result }
{
    for corner in corners {
        put_corner(page, sink, *corner, scale)?;
    }
    Ok(())
}

// Corners, and the first of them once more.
fn put_closed<O: Sink>(
    page: &mut Page,
    sink: &mut O,
    corners: &[Point],
    scale: u8,
) -> Result<(), WriteFault>
    requires scale { scale ≤ 15 }
    ensures { PutsText (closed_text scale corners.now) (O.meaning sink.old) (O.meaning sink.new) page.old page.new result }
{
    let Some((first, _later)) = corners.split_first() else {
        return Ok(());
    };
    put_corners(page, sink, corners, scale)?;
    put_position(page, sink, *first, scale)
}

// What is written as a text at a scale.
trait Written {
    ghost text: { ℕ → Self → List ℕ };

    // Puts the text.
    fn put<O: Sink>(&self, page: &mut Page, sink: &mut O, scale: u8) -> Result<(), WriteFault>
        requires { scale ≤ 15 }
        ensures { PutsText (text scale self.now) (O.meaning sink.old) (O.meaning sink.new) page.old page.new result };
}

// A further item, behind a comma.
fn put_later<T: Written, O: Sink>(
    page: &mut Page,
    sink: &mut O,
    item: &T,
    scale: u8,
) -> Result<(), WriteFault>
    requires scale { scale ≤ 15 }
    ensures { PutsText (codes ", " ++ T.text scale item.now) (O.meaning sink.old) (O.meaning sink.new) page.old page.new result }
{
    page.put(sink, b", ")?;
    item.put(page, sink, scale)
}

// Further items, each behind a comma.
fn put_all_later<T: Written, O: Sink>(
    page: &mut Page,
    sink: &mut O,
    items: &[T],
    scale: u8,
) -> Result<(), WriteFault>
    requires scale { scale ≤ 15 }
    ensures { PutsText (flat_map (λ x. codes ", " ++ T.text scale x) items.now) (O.meaning sink.old) (O.meaning sink.new) page.old page.new result }
{
    for item in items {
        put_later(page, sink, item, scale)?;
    }
    Ok(())
}

// Items with a comma and a space between them.
fn put_listed<T: Written, O: Sink>(
    page: &mut Page,
    sink: &mut O,
    items: &[T],
    scale: u8,
) -> Result<(), WriteFault>
    requires scale { scale ≤ 15 }
    ensures { PutsText (listed (map (T.text scale) items.now)) (O.meaning sink.old) (O.meaning sink.new) page.old page.new result }
{
    let Some((first, later)) = items.split_first() else {
        return Ok(());
    };
    first.put(page, sink, scale)?;
    put_all_later(page, sink, later, scale)
}

// The same in parentheses.
fn put_enclosed<T: Written, O: Sink>(
    page: &mut Page,
    sink: &mut O,
    items: &[T],
    scale: u8,
) -> Result<(), WriteFault>
    requires scale { scale ≤ 15 }
    ensures { PutsText (enclosed (map (T.text scale) items.now)) (O.meaning sink.old) (O.meaning sink.new) page.old page.new result }
{
    page.put(sink, b"(")?;
    put_listed(page, sink, items, scale)?;
    page.put(sink, b")")
}

impl Written for Ring {
    ghost text = { ring_text };

    fn put<O: Sink>(&self, page: &mut Page, sink: &mut O, scale: u8) -> Result<(), WriteFault> {
        page.put(sink, b"(")?;
        put_closed(page, sink, self.corners(), scale)?;
        page.put(sink, b")")
    }
}

impl Written for Polygon {
    ghost text = { polygon_text };

    fn put<O: Sink>(&self, page: &mut Page, sink: &mut O, scale: u8) -> Result<(), WriteFault> {
        put_enclosed(page, sink, self.rings(), scale)
    }
}

// EMPTY, or the polygons.
fn put_polygons<O: Sink>(
    page: &mut Page,
    sink: &mut O,
    polygons: &[Polygon],
    scale: u8,
) -> Result<(), WriteFault>
    requires scale { scale ≤ 15 }
    ensures { PutsText (polygons_text scale polygons.now) (O.meaning sink.old) (O.meaning sink.new) page.old page.new result }
{
    if polygons.is_empty() {
        return page.put(sink, b"EMPTY");
    }
    put_enclosed(page, sink, polygons, scale)
}

// The row of a group.
fn put_group<O: Sink>(
    page: &mut Page,
    sink: &mut O,
    group: &Group,
    scale: u8,
) -> Result<(), WriteFault>
    requires scale { scale ≤ 15 }
    ensures { PutsText (group_row scale group.now) (O.meaning sink.old) (O.meaning sink.new) page.old page.new result }
{
    page.put(sink, b"\"MULTIPOLYGON ")?;
    put_polygons(page, sink, group.polygons(), scale)?;
    page.put(sink, b"\",\"")?;
    put_doubled(page, sink, group.id())?;
    page.put(sink, b"\"\n")
}

// The rows of groups.
fn put_groups<O: Sink>(
    page: &mut Page,
    sink: &mut O,
    groups: &[Group],
    scale: u8,
) -> Result<(), WriteFault>
    requires scale { scale ≤ 15 }
    ensures { PutsText (flat_map (group_row scale) groups.now) (O.meaning sink.old) (O.meaning sink.new) page.old page.new result }
{
    for group in groups {
        put_group(page, sink, group, scale)?;
    }
    Ok(())
}

// The header, and the rows of groups.
fn put_layer<O: Sink>(
    page: &mut Page,
    sink: &mut O,
    groups: &[Group],
    scale: u8,
) -> Result<(), WriteFault>
    requires scale { scale ≤ 15 }
    ensures { PutsText (dissolved_text scale groups.now) (O.meaning sink.old) (O.meaning sink.new) page.old page.new result }
{
    page.put(sink, b"wkt,id\n")?;
    put_groups(page, sink, groups, scale)
}

/// Writes the groups as a layer in form csv, at a scale of at most 15. It takes no memory.
pub fn write_dissolved<O: Sink>(
    groups: &Dissolved,
    scale: u8,
    sink: &mut O,
) -> Result<(), WriteFault>
    requires scale { scale ≤ 15 }
    ensures { TakesAll (dissolved_text scale groups.now) (O.meaning sink.old) (O.meaning sink.new) result }
{
    let mut page = Page::new();
    put_layer(&mut page, sink, groups.groups(), scale)?;
    page.flush(sink)
}
