//! The groups of a layer, from the bytes in to the bytes out.

ghost use Rattle.std.specs.Prelude.{◌≡◌, IfOk};
ghost use Rattle.loc_dissolve.specs.Grouping.{ids_of};
ghost use Rattle.loc_faces.specs.Subdivision.{face_at, next_at};
ghost use Rattle.loc_spec_groups.specs.Groups.{dissolved};
ghost use Rattle.loc_course.specs.Courses.{Course, writes};
ghost use Rattle.loc_course.specs.Following.{Moment};
ghost use Rattle.loc_course.specs.Outcomes.{exactly};
ghost use Rattle.loc_course.specs.Runs.{RunsOnFilesAndOut, RunsOnOut};
ghost use Rattle.loc_course.specs.Stops.{GoesOn};
ghost use Rattle.loc_maps.specs.Located.{table_in};
ghost use Rattle.loc_maps.specs.MapCourses.{accepted_course, layer_file, pieces_course};
ghost use Rattle.loc_spec_groups.specs.GroupTexts.{dissolved_text};
ghost use Rattle.loc_groups.specs.GroupCourses.{dissolve_course};

use loc_course::Stop;
use loc_dissolve::{Dissolved, write_dissolved};
use loc_io::{Shelf, Sink};
use loc_maps::{Plane, judge_layer, read_layer_file};
use loc_rings::Layer;
use loc_spec_text::{Form, Scale};
use loc_treeidx::TreeIndex;
use std::alloc::Global;

// The groups of a layer that is accepted.
fn groups_of(alloc: Global, layer: &Layer, scale: Scale) -> Result<Dissolved, Stop>
    ensures goes_on { (next : Course) (m : Moment) → GoesOn
        (pieces_course layer.now (accepted_course scale layer.now next)) m (λ _. next) m result }
    ensures groups { IfOk result (λ groups. groups ≡ dissolved next_at face_at (table_in layer.now)
        (ids_of layer.now)) }
{
    let plane: Plane<TreeIndex> = judge_layer(alloc, layer, None, scale)?;
    let groups = loc_dissolve::dissolve(alloc, layer, &plane.table, &plane.legend);
    drop(plane);
    Ok(groups?)
}

// Writes groups.
fn write_groups<O: Sink>(groups: &Dissolved, scale: Scale, out: &mut O) -> Result<(), Stop>
    ensures { RunsOnOut (writes (exactly (dissolved_text scale groups.now))) O.meaning out result }
{
    match write_dissolved(groups, scale.decimals(), out) {
        Ok(()) => Ok(()),
        Err(_) => Err(Stop::WriteFault),
    }
}

/// Reads the layer, and writes its features by their ids, each group as the polygons that it covers: all memory is taken before the first byte on
/// `out`.
pub fn dissolve<F: Shelf, O: Sink>(
    alloc: Global,
    layer_name: &str,
    form: Form,
    scale: Scale,
    shelf: &mut F,
    out: &mut O,
) -> Result<(), Stop>
    ensures { RunsOnFilesAndOut (dissolve_course (layer_file layer_name.now form scale))
        F.meaning shelf O.meaning out result }
{
    let layer = read_layer_file(alloc, shelf, layer_name, form, scale)?;
    let groups = groups_of(alloc, &layer, scale)?;
    write_groups(&groups, scale, out)
}
