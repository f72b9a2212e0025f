//! The features at the points of a file, from the bytes in to the bytes out.

ghost use Rattle.std.specs.Prelude.{◌≤◌, length};
ghost use Rattle.loc_maps.specs.MapCourses.{layer_file};
ghost use Rattle.loc_parts.specs.Parts.{IsParted};
ghost use Rattle.loc_features.specs.FeatureCourses.{features_course, features_points};
ghost use Rattle.loc_course.specs.Runs.{Runs};

use crate::answering::ByParts;
use crate::placing::Found;
use loc_answering::answer_lines;
use loc_batch::Batch;
use loc_course::Stop;
use loc_geom::Steps;
use loc_io::{Shelf, Sink};
use loc_maps::read_features_file;
use loc_parts::Parted;
use loc_rings::Layer;
use loc_spec_text::{Form, MOST_TEXT, Scale};
use std::alloc::Global;
use std::sync::ledger::Ledger;

// The answers to a file of points, by the parts of a layer that has at most so many.
fn answer_by<const N: usize, F: Shelf, O: Sink, L: Ledger>(
    alloc: Global,
    layer: &Layer,
    parted: &Parted,
    scale: Scale,
    points: &str,
    shelf: &mut F,
    out: &mut O,
    steps: &mut Steps<L>,
) -> Result<(), Stop>
    requires room { N ≤ 16 }
    requires parted { IsParted layer.now parted.now }
    requires few { length parted.now.parts.items ≤ N }
    ensures { Runs (features_points scale points.now layer.now) F.meaning shelf O.meaning out steps result }
{
    let mut batch: Batch<Found<N>> = Batch::make(alloc, scale.decimals(), MOST_TEXT as u64)?;
    let by: ByParts<N> = ByParts { parted, layer };
    answer_lines(
        &mut batch,
        &by,
        shelf,
        points,
        b"points: too long",
        out,
        steps,
    )
}

// The answers to a file of points, in a layer that was read. What is kept of a line has room for one part, for two, or for sixteen.
fn answer_points<F: Shelf, O: Sink, L: Ledger>(
    alloc: Global,
    layer: &Layer,
    scale: Scale,
    points: &str,
    shelf: &mut F,
    out: &mut O,
    steps: &mut Steps<L>,
) -> Result<(), Stop>
    ensures { Runs (features_points scale points.now layer.now) F.meaning shelf O.meaning out steps result }
{
    let parted = Parted::make(alloc, layer)?;
    let count = parted.parts.len();
    if count <= 1 {
        answer_by::<1, F, O, L>(alloc, layer, &parted, scale, points, shelf, out, steps)
    } else if count == 2 {
        answer_by::<2, F, O, L>(alloc, layer, &parted, scale, points, shelf, out, steps)
    } else {
        answer_by::<16, F, O, L>(alloc, layer, &parted, scale, points, shelf, out, steps)
    }
}

/// Reads the layer and then the points in pieces, and answers each line once it has been read, in any layer that reads: all memory is taken before
/// the first byte on `out`.
pub fn features<F: Shelf, O: Sink, L: Ledger>(
    alloc: Global,
    layer_name: &str,
    points_name: &str,
    form: Form,
    scale: Scale,
    shelf: &mut F,
    out: &mut O,
    steps: &mut Steps<L>,
) -> Result<(), Stop>
    ensures { Runs (features_course (layer_file layer_name.now form scale) points_name.now)
        F.meaning shelf O.meaning out steps result }
{
    let layer = read_features_file(alloc, shelf, layer_name, form, scale)?;
    answer_points(alloc, &layer, scale, points_name, shelf, out, steps)
}
