//! The lines of a file that are answered while it is read, as a part of a command.
#![tactic(auto)]

ghost use Rattle.std.specs.Prelude.{◌≡◌, ◌+◌, ◌≤◌, length};
ghost use Rattle.loc_spec_text.specs.Points.{ended};
ghost use Rattle.loc_course.specs.Streams.{AnswersSource};
ghost use Rattle.loc_course.specs.Stops.{end_of, source, stopped};
ghost use Rattle.loc_cover.specs.Legends.{FitsTable};
ghost use Rattle.loc_batch.specs.Answering.{answer_by};
ghost use Rattle.loc_batch.specs.Batches.{IsFresh};
ghost use Rattle.loc_batch.specs.PointLines.{is_point_line};
ghost use Rattle.loc_batch.specs.Told.{told_by};
ghost use Rattle.loc_answering.specs.ByLine.{by_line, deep_text, stopped_by, told_by_line};
ghost use Rattle.loc_course.specs.Lines.{line_text};
ghost use Rattle.loc_course.specs.Runs.{over};

use loc_batch::{Answerer, Batch, BatchFault, ByPlace, FaceNumbers, answer_all};
use loc_course::{Line, Part, Stop};
use loc_cover::Legend;
use loc_edges::EdgeTable;
use loc_geom::Steps;
use loc_io::{Shelf, Sink};
use loc_place::{Deep, Locator, Place};
use std::sync::ledger::Ledger;

// The line on notes of a search that was given up.
fn deep_line(version: u32) -> Line
    ensures { line_text result ≡ deep_text version }
{
    Line {
        parts: [
            Part::of(b"index: version "),
            Part::Number(version),
            Part::of(b" deeper than 42"),
            Part::None,
            Part::None,
            Part::None,
        ],
    }
}

// Why the command stops.
fn stop_of(fault: BatchFault, too_long: &[u8]) -> Stop
    requires line { length too_long.now ≤ 24 }
    ensures { stopped result ≡ stopped_by (ended too_long.now) fault }
{
    match fault {
        BatchFault::ReadFault => Stop::ReadFault,
        BatchFault::WriteFault => Stop::WriteFault,
        BatchFault::PointsLong => Stop::Refused(Line::of(too_long)),
        BatchFault::Deep { version } => Stop::Refused(deep_line(version)),
    }
}

/// Takes up a file, and answers its lines while it reads it in pieces. Where it has more bytes than the batch's limit, the line says so.
pub fn answer_lines<F: Copy + Drop, D: Answerer<F>, S: Shelf, O: Sink, L: Ledger>(
    batch: &mut Batch<F>,
    by: &D,
    shelf: &mut S,
    name: &str,
    too_long: &[u8],
    out: &mut O,
    steps: &mut Steps<L>,
) -> Result<(), Stop>
    requires line { length too_long.now ≤ 24 }
    requires fresh { IsFresh batch.old }
    requires fits { D.fits by.now }
    ensures { over (AnswersSource (source name.now batch.old.limit (ended too_long.now)) (is_point_line batch.old.scale)
        (D.most_found by.now + D.most_put by.now)
        (told_by_line (told_by batch.old.scale (D.finds by.now) (D.tells by.now))))
        S.meaning shelf O.meaning out steps (end_of result) }
{
    match shelf.take_up(name) {
        Ok(()) => {}
        Err(_) => return Err(Stop::ReadFault),
    }
    match answer_all(batch, by, shelf, out, steps) {
        Ok(()) => Ok(()),
        Err(fault) => Err(stop_of(fault, too_long)),
    }
}

/// The same by places: what a locator finds in a table, the rows of a legend and the numbers of faces.
pub fn answer_source<F: Shelf, I: Locator, N: FaceNumbers, O: Sink, L: Ledger>(
    batch: &mut Batch<Result<Place, Deep>>,
    index: &I,
    table: &EdgeTable,
    legend: &Legend,
    faces: &N,
    shelf: &mut F,
    name: &str,
    too_long: &[u8],
    out: &mut O,
    steps: &mut Steps<L>,
) -> Result<(), Stop>
    requires line { length too_long.now ≤ 24 }
    requires fresh { IsFresh batch.old }
    requires fits { I.fits index.now table.now }
    requires legend { FitsTable table.now legend.now }
    requires faces { N.fits faces.now table.now }
    ensures { over (AnswersSource (source name.now batch.old.limit (ended too_long.now)) (is_point_line batch.old.scale)
        (I.most index.now table.now)
        (by_line (answer_by batch.old.scale (I.finds index.now table.now) (N.shown faces.now) legend.now)))
        F.meaning shelf O.meaning out steps (end_of result) }
{
    let by = ByPlace {
        index,
        table,
        legend,
        faces,
    };
    answer_lines(batch, &by, shelf, name, too_long, out, steps)
}
