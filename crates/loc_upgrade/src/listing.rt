//! The edges of an index file with their sources, from the bytes in to the bytes out.

ghost use Rattle.loc_course.specs.Courses.{writes};
ghost use Rattle.loc_course.specs.Outcomes.{exactly};
ghost use Rattle.loc_course.specs.Runs.{RunsOnFilesAndOut, RunsOnOut};
ghost use Rattle.loc_course.specs.Sentences.{status_of};
ghost use Rattle.loc_course.specs.Stops.{end_of};
ghost use Rattle.loc_upgrade.specs.EdgeTexts.{edges_text};
ghost use Rattle.loc_upgrade.specs.TellsEdges.{Listed};
ghost use Rattle.loc_upgrade.specs.UpgradeCourses.{edges_course};

use crate::lines::write_edges;
use loc_course::Stop;
use loc_file::Held;
use loc_indexed::read_index_file;
use loc_io::{Shelf, Sink};
use loc_spec_text::Scale;
use std::alloc::Global;

// Writes the lines of the edges of what is held.
fn write_held_edges<O: Sink>(held: &Held, out: &mut O) -> Result<(), Stop>
    ensures { RunsOnOut (writes (exactly (edges_text held.now.content))) O.meaning out result }
{
    match write_edges(held.table(), Scale::new(held.scale()), out) {
        Ok(()) => Ok(()),
        Err(_) => Err(Stop::WriteFault),
    }
}

/// Reads an index file of either version whole, and writes for each of its edges the edge and its source, whether the index is true or not.
/// All memory is taken before the first byte on `out`.
pub fn edges<F: Shelf, O: Sink>(
    alloc: Global,
    index_name: &str,
    shelf: &mut F,
    out: &mut O,
) -> Result<(), Stop>
    ensures follows { RunsOnFilesAndOut (edges_course index_name.now) F.meaning shelf O.meaning out result }
    ensures listed { Listed ((F.meaning shelf.old).told index_name.now) (status_of (end_of result)) }
{
    let held = read_index_file(alloc, shelf, index_name)?;
    let outcome = write_held_edges(&held, out);
    drop(held);
    outcome
}
