//! The features of a layer judged, from the bytes in to the bytes out.

ghost use Rattle.std.specs.Prelude.{◌≡◌, ◌≤◌, None, IfErr, IfOk};
ghost use Rattle.loc_spec_text.specs.Limits.{most_points};
ghost use Rattle.loc_spec_valid.specs.Breaches.{IsBreachOf};
ghost use Rattle.loc_rings.specs.Layers.{point_count};
ghost use Rattle.loc_faces.specs.Subdivision.{face_at, next_at};
ghost use Rattle.loc_valid.specs.Judged.{told};
ghost use Rattle.loc_course.specs.Courses.{writes};
ghost use Rattle.loc_course.specs.Following.{Moment};
ghost use Rattle.loc_course.specs.Runs.{RunsOnFilesAndOut};
ghost use Rattle.loc_course.specs.Stops.{GoesOn, stopped};
ghost use Rattle.loc_maps.specs.MapCourses.{layer_file};
ghost use Rattle.loc_breaches.specs.BreachCourses.{AreLines, IsRefusedBy, are_lines, judged_course, refusal_of, valid_course};

use crate::lines::push_line;
use loc_course::{Stop, write_out};
use loc_io::{Shelf, Sink};
use loc_maps::{covers_line, pieces_line, read_features_file};
use loc_rings::{Feature, Layer};
use loc_spec_text::{Form, Scale};
use loc_valid::{Breach, ValidFault, judge};
use std::alloc::Global;

// The first breach of a feature, or why the command stops.
fn judged(alloc: Global, feature: &Feature) -> Result<Option<Breach>, Stop>
    requires few { point_count feature.now ≤ most_points }
    ensures breach { IfOk result (λ breach. IsBreachOf next_at face_at feature.now.polygons (told breach)) }
    ensures judged { IfOk result (λ _. refusal_of feature.now.polygons ≡ None) }
    ensures refused { IfErr result (λ stop. IsRefusedBy (refusal_of feature.now.polygons) (stopped stop)) }
{
    match judge(alloc, feature) {
        Ok(breach) => Ok(breach),
        Err(ValidFault::ManyPieces) => Err(Stop::Refused(pieces_line())),
        Err(ValidFault::ManyCovers) => Err(Stop::Refused(covers_line())),
        Err(ValidFault::NoMemory) => Err(Stop::NoMemory),
    }
}

// The lines of all features.
fn judged_lines(alloc: Global, layer: &Layer, scale: Scale) -> Result<Vec<u8>, Stop>
    ensures goes_on { (m : Moment) → GoesOn (judged_course scale layer.now) m
        (λ _. writes (are_lines scale layer.now)) m result }
    ensures lines { IfOk result (λ text. AreLines scale layer.now text.items) }
{
    let mut text = Vec::new(alloc);
    for feature in layer.features() {
        let breach = judged(alloc, feature)?;
        push_line(&mut text, feature.id(), breach, scale)?;
    }
    Ok(text)
}

/// Reads the layer, and writes for each feature its first breach or that it is valid: all memory is taken before the first byte on `out`.
pub fn valid<F: Shelf, O: Sink>(
    alloc: Global,
    layer_name: &str,
    form: Form,
    scale: Scale,
    shelf: &mut F,
    out: &mut O,
) -> Result<(), Stop>
    ensures { RunsOnFilesAndOut (valid_course (layer_file layer_name.now form scale))
        F.meaning shelf O.meaning out result }
{
    let layer = read_features_file(alloc, shelf, layer_name, form, scale)?;
    let text = judged_lines(alloc, &layer, scale)?;
    write_out(out, &text)
}
