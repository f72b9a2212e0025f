//! A trial: the points of a generated layer, asked of an index.

ghost use Rattle.std.specs.Prelude.{◌≡◌, ◌+◌, ◌*◌, ◌≤◌, IfOk, length, map};
ghost use Rattle.loc_spec_plane.specs.Lists.{numbers};
ghost use Rattle.loc_spec_text.specs.Answered.{answered};
ghost use Rattle.loc_batch.specs.Answering.{answer_by};
ghost use Rattle.loc_batch.specs.Batches.{no_tally};
ghost use Rattle.loc_batch.specs.Faces.{unnumbered};
ghost use Rattle.loc_batch.specs.Streams.{tally_of as tally_of_answers};
ghost use Rattle.loc_cover.specs.Legends.{FitsTable};
ghost use Rattle.loc_maps.specs.MapCourses.{accepted_course, pieces_course};
ghost use Rattle.loc_trial.specs.Asked.{AnswersAll};
ghost use Rattle.loc_trial.specs.Generated.{generated, point_line};
ghost use Rattle.loc_trial.specs.TrialCourses.{counted_course, trial_course, tried_course};
ghost use Rattle.loc_course.specs.Runs.{RunsOnOutAndSteps};

use crate::counts::line_of;
use crate::layers::read_back;
use crate::points::points_of;
use loc_batch::{Batch, ByPlace, Tally, Unnumbered};
use loc_course::{Stop, write_out};
use loc_cover::Legend;
use loc_edges::EdgeTable;
use loc_gen::Kind;
use loc_geom::Steps;
use loc_io::{Sink, SteadySink};
use loc_orders::GivenOrder;
use loc_place::Locator;
use loc_query::choose;
use loc_rings::Layer;
use loc_spec_asked::Index;
use loc_spec_text::{MOST_TEXT, Scale};
use std::alloc::{AllocError, Global};
use std::sync::ledger::Ledger;

// The number from which the edges are shuffled.
const SHUFFLE: u64 = 1;

// What a locator answers to the points of a layer of size n, counted.
fn tally_of<I: Locator, L: Ledger>(
    alloc: Global,
    index: &I,
    table: &EdgeTable,
    legend: &Legend,
    n: u64,
    shift: u64,
    steps: &mut Steps<L>,
) -> Result<Tally, AllocError>
    requires size { n ≤ 131072 }
    requires fits { I.fits index.now table.now }
    requires legend { FitsTable table.now legend.now }
    requires always { AnswersAll (answer_by 0 (I.finds index.now table.now) unnumbered legend.now) }
    ensures tally { IfOk result (λ t. t ≡ tally_of_answers no_tally
        (answered (answer_by 0 (I.finds index.now table.now) unnumbered legend.now)
        (map (point_line n shift) (numbers n))).answers) }
    ensures counted { steps.old ≤ steps.new }
    ensures within { steps.new ≤ steps.old + n * I.most index.now table.now }
{
    let points = points_of(alloc, n, shift)?;
    let mut batch = Batch::make(alloc, 0, MOST_TEXT as u64)?;
    let mut sink = SteadySink::new();
    let by = ByPlace {
        index,
        table,
        legend,
        faces: &Unnumbered,
    };
    match batch.feed(&by, &points, &mut sink, steps) {
        Ok(()) => Ok(batch.tally()),
        Err(_) => unreachable!(),
    }
}

// The points of a layer of size n are asked of a locator, and the line of the counts is written.
fn try_points<I: Locator, O: Sink, L: Ledger>(
    alloc: Global,
    index: &I,
    table: &EdgeTable,
    legend: &Legend,
    kind: Kind,
    n: u64,
    shift: u64,
    nodes: Option<u32>,
    out: &mut O,
    steps: &mut Steps<L>,
) -> Result<(), Stop>
    requires size { n ≤ 131072 }
    requires fits { I.fits index.now table.now }
    requires legend { FitsTable table.now legend.now }
    requires always { AnswersAll (answer_by 0 (I.finds index.now table.now) unnumbered legend.now) }
    ensures { RunsOnOutAndSteps (counted_course (I.most index.now table.now)
        (answer_by 0 (I.finds index.now table.now) unnumbered legend.now) kind n shift table.now nodes)
        O.meaning out steps result }
{
    let tally = tally_of(alloc, index, table, legend, n, shift, steps)?;
    let corners = table.corner_count();
    let edges = table.edge_count();
    let line = line_of(alloc, kind, n, shift, corners, edges, tally, nodes)?;
    write_out(out, &line)
}

// A trial of a layer by an index. The edges of trapezoids are added as they are shuffled from the number 1.
fn try_layer<O: Sink, L: Ledger>(
    alloc: Global,
    index: Index,
    layer: Layer,
    kind: Kind,
    n: u64,
    shift: u64,
    out: &mut O,
    steps: &mut Steps<L>,
) -> Result<(), Stop>
    requires size { n ≤ 131072 }
    requires features { length layer ≤ 131072 }
    ensures { RunsOnOutAndSteps (pieces_course layer (accepted_course 0 layer (tried_course index kind n shift layer)))
        O.meaning out steps result }
{
    let order = GivenOrder::Shuffled(SHUFFLE);
    let plane = choose(alloc, index, order, layer, None, Scale::new(0))?;
    plane.legend.law();
    let nodes = plane.status.nodes();
    let written = try_points(
        alloc,
        &plane.status,
        &plane.table,
        &plane.legend,
        kind,
        n,
        shift,
        nodes,
        out,
        steps,
    );
    drop(plane);
    written
}

/// Makes a generated layer, reads it back, and asks an index for its points. The counts of the answers are written: all memory is taken
/// before the first byte on `out`.
pub fn trial<O: Sink, L: Ledger>(
    alloc: Global,
    kind: Kind,
    n: u64,
    shift: u64,
    index: Index,
    out: &mut O,
    steps: &mut Steps<L>,
) -> Result<(), Stop>
    ensures { RunsOnOutAndSteps (trial_course index kind n shift) O.meaning out steps result }
{
    let layer = read_back(alloc, kind, n, shift)?;
    try_layer(alloc, index, layer, kind, n, shift, out, steps)
}
