// The part of the corners.

ghost use Rattle.std.specs.Prelude.{◌≡◌, IfOk, IfErr};
ghost use Rattle.loc_spec_index.specs.IndexFile.{follows, corner_row, point_fields, rows_of};
ghost use Rattle.loc_spec_plane.specs.Points.{before};
ghost use Rattle.loc_file.specs.Readings.{IsRead, IsRowStop, AreRows, IsRowsStop};

use crate::cursor::Cursor;
use crate::rows::keep;
use loc_geom::Point;
use loc_geom::laws::point_order;
use loc_spec_index::{IndexFault, Part};
use std::alloc::Global;
use std::cmp::Ordering;

// Whether a corner comes behind the one before it, if there is one.
fn follows(last: Option<Point>, corner: Point) -> bool
    ensures { result ≡ follows before last corner }
{
    match last {
        None => true,
        Some(other) => point_order(other, corner) == Ordering::Less,
    }
}

// A point by its coordinates.
fn next_point(cursor: &mut Cursor<'_>) -> Result<Point, IndexFault>
    ensures ok { IfOk result (λ p. IsRead (point_fields p) cursor.old cursor.new) }
    ensures err { IfErr result (IsRowStop point_fields cursor.old) }
{
    let x = cursor.coordinate()?;
    let y = cursor.coordinate()?;
    let Some(point) = Point::new(x, y) else {
        unreachable!()
    };
    Ok(point)
}

// A corner behind another.
fn next_corner(cursor: &mut Cursor<'_>, row: u32, last: Option<Point>) -> Result<Point, IndexFault>
    ensures ok { IfOk result (λ p. IsRead (corner_row row last p) cursor.old cursor.new) }
    ensures err { IfErr result (IsRowStop (corner_row row last) cursor.old) }
{
    let corner = next_point(cursor)?;
    cursor.in_order(follows(last, corner), Part::Corners, row)?;
    Ok(corner)
}

// The corners, which rise.
pub(crate) fn read_corners(
    alloc: Global,
    cursor: &mut Cursor<'_>,
    count: u32,
) -> Result<Vec<Point>, IndexFault>
    ensures ok { IfOk result (λ corners. AreRows (rows_of corner_row) count corners.items cursor.old cursor.new) }
    ensures err { IfErr result (IsRowsStop (rows_of corner_row) count cursor.old) }
{
    let mut corners = Vec::new(alloc);
    let mut last = None;
    for row in 0..count {
        let corner = next_corner(cursor, row, last)?;
        keep(&mut corners, corner)?;
        last = Some(corner);
    }
    Ok(corners)
}
