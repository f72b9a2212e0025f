//! The edges on the spans of a file, from the bytes in to the bytes out.

ghost use Rattle.loc_treeidx.specs.Standing.{AreVersionsOf};
ghost use Rattle.loc_maps.specs.MapCourses.{layer_file};
ghost use Rattle.loc_reach.specs.SpanCourses.{answered_course, spans_course, stab_course};
ghost use Rattle.loc_course.specs.Runs.{Runs, RunsOnOutAndSteps};

use crate::answering::write_answers;
use loc_course::{Stop, read_source};
use loc_geom::Steps;
use loc_io::{Shelf, Sink};
use loc_maps::{SweptTable, read_layer_file, sweep_layer};
use loc_spec_text::{Form, MOST_TEXT, Scale};
use loc_treeidx::TreeIndex;
use loc_treeidx::laws::swept_stands;
use std::alloc::Global;
use std::sync::ledger::Ledger;

// Seeks the spans of a text, and writes the answers to its lines.
fn write_spans<O: Sink, L: Ledger>(
    plane: &SweptTable<TreeIndex>,
    text: &[u8],
    scale: Scale,
    out: &mut O,
    steps: &mut Steps<L>,
) -> Result<(), Stop>
    requires stands { AreVersionsOf plane.now.table plane.now.status }
    ensures { RunsOnOutAndSteps (answered_course scale plane.now.table text.now) O.meaning out steps result }
{
    let views = plane.table.views();
    match write_answers(&plane.status, &views, text, scale, out, steps) {
        Ok(()) => Ok(()),
        Err(_) => Err(Stop::WriteFault),
    }
}

// Reads a file of spans whole, and writes the answers to its lines.
fn answer_spans<F: Shelf, O: Sink, L: Ledger>(
    alloc: Global,
    plane: &SweptTable<TreeIndex>,
    spans_name: &str,
    scale: Scale,
    shelf: &mut F,
    out: &mut O,
    steps: &mut Steps<L>,
) -> Result<(), Stop>
    requires stands { AreVersionsOf plane.now.table plane.now.status }
    ensures follows { Runs (spans_course scale plane.now.table spans_name.now)
        F.meaning shelf O.meaning out steps result }
{
    let text = read_source(alloc, shelf, spans_name, MOST_TEXT, b"spans: too long")?;
    write_spans(plane, &text, scale, out, steps)
}

/// Reads the layer and then the spans, whole, and writes for each line the edges that its span meets, in their order: all memory is taken
/// before the first byte on `out`.
pub fn stab<F: Shelf, O: Sink, L: Ledger>(
    alloc: Global,
    name: &str,
    spans: &str,
    form: Form,
    scale: Scale,
    shelf: &mut F,
    out: &mut O,
    steps: &mut Steps<L>,
) -> Result<(), Stop>
    ensures { Runs (stab_course (layer_file name.now form scale) spans.now) F.meaning shelf O.meaning out steps result }
{
    let layer = read_layer_file(alloc, shelf, name, form, scale)?;
    let plane: SweptTable<TreeIndex> = sweep_layer(alloc, &layer, scale)?;
    swept_stands(&plane.table, &plane.status);
    let outcome = answer_spans(alloc, &plane, spans, scale, shelf, out, steps);
    drop(plane);
    drop(layer);
    outcome
}
