//! An index file that is asked for the points of another, from the bytes in to the bytes out.

ghost use Rattle.loc_indexed.specs.IndexedCourses.{ask_course, asked_course};
ghost use Rattle.loc_course.specs.Runs.{Runs};

use crate::indexes::read_index_file;
use loc_answering::answer_source;
use loc_batch::{Batch, Unnumbered};
use loc_course::Stop;
use loc_file::Held;
use loc_geom::Steps;
use loc_io::{Shelf, Sink};
use loc_spec_text::MOST_TEXT;
use std::alloc::Global;
use std::sync::ledger::Ledger;

// The answers to a file of points, by the search and the rows of an index.
fn answer_points<F: Shelf, O: Sink, L: Ledger>(
    alloc: Global,
    held: &Held,
    points: &str,
    shelf: &mut F,
    out: &mut O,
    steps: &mut Steps<L>,
) -> Result<(), Stop>
    ensures { Runs (asked_course points.now held.now.content) F.meaning shelf O.meaning out steps result }
{
    let mut batch = Batch::make(alloc, held.scale(), MOST_TEXT as u64)?;
    answer_source(
        &mut batch,
        held,
        held.table(),
        held.legend(),
        &Unnumbered,
        shelf,
        points,
        b"points: too long",
        out,
        steps,
    )
}

/// Reads the index whole and then the points in pieces, and answers each line once it has been read, by the index alone: whether it is true
/// or not. All memory is taken before the first byte on `out`.
pub fn ask<F: Shelf, O: Sink, L: Ledger>(
    alloc: Global,
    index_name: &str,
    points_name: &str,
    shelf: &mut F,
    out: &mut O,
    steps: &mut Steps<L>,
) -> Result<(), Stop>
    ensures { Runs (ask_course index_name.now points_name.now) F.meaning shelf O.meaning out steps result }
{
    let held = read_index_file(alloc, shelf, index_name)?;
    let outcome = answer_points(alloc, &held, points_name, shelf, out, steps);
    drop(held);
    outcome
}
