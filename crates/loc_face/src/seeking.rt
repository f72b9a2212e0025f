//! The face of a point, from the bytes in to the bytes out.

ghost use Rattle.std.specs.Prelude.{IfSome, ◌<◌, length};
ghost use Rattle.loc_spec_plane.specs.Tables.{NoConflict};
ghost use Rattle.loc_spec_text.specs.Points.{point_of};
ghost use Rattle.loc_edges.specs.Floors.{AreFloors};
ghost use Rattle.loc_place.specs.Found.{place_at};
ghost use Rattle.loc_treeidx.specs.Standing.{AreVersionsOf};
ghost use Rattle.loc_place.specs.Steps.{most_steps};
ghost use Rattle.loc_course.specs.Courses.{searches, writes};
ghost use Rattle.loc_course.specs.Outcomes.{exactly};
ghost use Rattle.loc_course.specs.Runs.{Runs, RunsOnOut, RunsOnOutAndSteps};
ghost use Rattle.loc_maps.specs.MapCourses.{layer_file};
ghost use Rattle.loc_face.specs.FaceCourses.{face_course, place_course, point_course, text_above};

use crate::lines::numbered_line;
use loc_course::{Line, Stop};
use loc_faces::{Faces, write_face};
use loc_geom::{Point, Steps};
use loc_half::HalfEdges;
use loc_io::{Shelf, Sink};
use loc_maps::{Plane, judge, read_layer_file};
use loc_place::{Locator, Place};
use loc_spec_text::{Form, Scale};
use loc_treeidx::TreeIndex;
use loc_treeidx::laws::swept_stands;
use loc_wkt::read_point;
use std::alloc::Global;
use std::sync::ledger::Ledger;

// Writes the face above a floor.
fn write_above<O: Sink>(
    alloc: Global,
    plane: &Plane<TreeIndex>,
    floor: Option<u32>,
    scale: Scale,
    out: &mut O,
) -> Result<(), Stop>
    requires apart { NoConflict plane.now.table }
    requires floors { AreFloors plane.now.table plane.now.floors }
    requires in_range { IfSome floor (λ e. e < length plane.now.table.ends) }
    ensures { RunsOnOut (writes (exactly (text_above scale plane.now.table floor))) O.meaning out result }
{
    let table = &plane.table;
    table.law();
    let half = HalfEdges::make(alloc, table)?;
    let faces = match Faces::make(alloc, table, &half, &plane.floors) {
        Ok(faces) => faces,
        Err(_) => {
            drop(half);
            return Err(Stop::NoMemory);
        }
    };
    let number = faces.above(floor);
    let written = write_face(&faces, number, table, &half, scale.decimals(), out);
    drop(faces);
    drop(half);
    match written {
        Ok(()) => Ok(()),
        Err(_) => Err(Stop::WriteFault),
    }
}

// Seeks a point, and writes its face, or says why it has none.
fn write_at<O: Sink, L: Ledger>(
    alloc: Global,
    plane: &Plane<TreeIndex>,
    point: Point,
    scale: Scale,
    out: &mut O,
    steps: &mut Steps<L>,
) -> Result<(), Stop>
    requires apart { NoConflict plane.now.table }
    requires stands { AreVersionsOf plane.now.table plane.now.status }
    requires floors { AreFloors plane.now.table plane.now.floors }
    ensures { RunsOnOutAndSteps
        (searches (most_steps plane.now.table) (place_course scale plane.now.table (place_at plane.now.table point)))
        O.meaning out steps result }
{
    match plane.status.locate(&plane.table.views(), point, steps) {
        Ok(Place::Corner(n)) => Err(Stop::Refused(numbered_line(b"point: corner ", n))),
        Ok(Place::Border(e)) => Err(Stop::Refused(numbered_line(b"point: border ", e))),
        Ok(Place::Area(floor)) => write_above(alloc, plane, floor, scale, out),
        Err(_) => unreachable!(),
    }
}

// Reads a word as a point, and writes its face.
fn write_for<O: Sink, L: Ledger>(
    alloc: Global,
    plane: &Plane<TreeIndex>,
    word: &[u8],
    scale: Scale,
    out: &mut O,
    steps: &mut Steps<L>,
) -> Result<(), Stop>
    requires apart { NoConflict plane.now.table }
    requires stands { AreVersionsOf plane.now.table plane.now.status }
    requires floors { AreFloors plane.now.table plane.now.floors }
    ensures { RunsOnOutAndSteps (point_course scale plane.now.table (point_of scale word.now))
        O.meaning out steps result }
{
    match read_point(word, scale.decimals()) {
        Some(point) => write_at(alloc, plane, point, scale, out, steps),
        None => Err(Stop::Refused(Line::of(b"point: unread"))),
    }
}

/// Reads the layer, seeks the point of the word in it, and writes the face in which the point lies: all memory is taken before the first
/// byte on `out`.
pub fn face<F: Shelf, O: Sink, L: Ledger>(
    alloc: Global,
    name: &str,
    point: &str,
    form: Form,
    scale: Scale,
    shelf: &mut F,
    out: &mut O,
    steps: &mut Steps<L>,
) -> Result<(), Stop>
    ensures { Runs (face_course (layer_file name.now form scale) point.now) F.meaning shelf O.meaning out steps result }
{
    let layer = read_layer_file(alloc, shelf, name, form, scale)?;
    let plane: Plane<TreeIndex> = judge(alloc, layer, scale)?;
    swept_stands(&plane.table, &plane.status);
    let outcome = write_for(alloc, &plane, point.as_bytes(), scale, out, steps);
    drop(plane);
    outcome
}
