// What each command does.

ghost use Rattle.std.specs.Prelude.{◌≤◌};
ghost use Rattle.loc_words.specs.Words.{HasScale, asked_by};
ghost use Rattle.loc_words.specs.declared.command.Command.TheVariants as by;
ghost use Rattle.loc_course.specs.Sentences.{status_of};
ghost use Rattle.loc_course.specs.Stops.{end_of};
ghost use Rattle.loc_top.specs.Run.{BesideCourse, course_by};
ghost use Rattle.loc_course.specs.Runs.{Runs, RunsOnFiles, RunsOnFilesAndOut};

use loc_breaches::valid;
use loc_course::Stop;
use loc_face::face;
use loc_features::features;
use loc_geom::Steps;
use loc_groups::dissolve;
use loc_indexed::{ask, build, verify};
use loc_io::{Shelf, Sink};
use loc_maps::check;
use loc_query::query;
use loc_reach::stab;
use loc_spec_text::Scale;
use loc_trial::{generate, trial};
use loc_upgrade::{edges, upgrade};
use loc_words::{Command, LayerFile, Query, Upgrade};
use std::alloc::Global;
use std::sync::ledger::Ledger;

// Answers a query.
fn run_query<F: Shelf, O: Sink, L: Ledger>(
    alloc: Global,
    asked: Query<'_>,
    shelf: &mut F,
    out: &mut O,
    steps: &mut Steps<L>,
) -> Result<(), Stop>
    requires scale { asked.layer.scale ≤ 15 }
    ensures { Runs (course_by (asked_by (by.Query asked.entry))) F.meaning shelf O.meaning out steps result }
{
    let layer = asked.layer;
    query(
        alloc,
        layer.name,
        asked.points,
        layer.form,
        Scale::new(layer.scale),
        asked.index,
        asked.order,
        asked.faces,
        shelf,
        out,
        steps,
    )
}

// Makes an index file anew. It stands for itself, so that a wrong body of it is refused soon; so does `run_valid`.
fn run_upgrade<F: Shelf>(alloc: Global, asked: Upgrade<'_>, shelf: &mut F) -> Result<(), Stop>
    ensures follows { RunsOnFiles (course_by (asked_by (by.Upgrade asked.entry))) F.meaning shelf result }
    ensures beside { BesideCourse (asked_by (by.Upgrade asked.entry)) (F.meaning shelf.old) (F.meaning shelf.new)
        (status_of (end_of result)) }
{
    upgrade(alloc, asked.old, asked.new, shelf)
}

// Judges the features of a layer.
fn run_valid<F: Shelf, O: Sink>(
    alloc: Global,
    layer: LayerFile<'_>,
    shelf: &mut F,
    out: &mut O,
) -> Result<(), Stop>
    requires scale { layer.scale ≤ 15 }
    ensures { RunsOnFilesAndOut (course_by (asked_by (by.Valid layer.entry))) F.meaning shelf O.meaning out result }
{
    let LayerFile { name, scale, form } = layer;
    valid(alloc, name, form, Scale::new(scale), shelf, out)
}

/// Does what a command says.
pub(crate) fn run_command<F: Shelf, O: Sink, L: Ledger>(
    alloc: Global,
    command: Command<'_>,
    shelf: &mut F,
    out: &mut O,
    steps: &mut Steps<L>,
) -> Result<(), Stop>
    requires scale { HasScale command }
    ensures follows { Runs (course_by (asked_by command.entry)) F.meaning shelf O.meaning out steps result }
    ensures beside { BesideCourse (asked_by command.entry) (F.meaning shelf.old) (F.meaning shelf.new)
        (status_of (end_of result)) }
{
    match command {
        Command::Query(asked) => run_query(alloc, asked, shelf, out, steps),
        Command::Features(asked) => {
            let LayerFile { name, scale, form } = asked.layer;
            let scale = Scale::new(scale);
            features(alloc, name, asked.points, form, scale, shelf, out, steps)
        }
        Command::Check(layer) => {
            let LayerFile { name, scale, form } = layer;
            check(alloc, name, form, Scale::new(scale), shelf, out)
        }
        Command::Build(asked) => {
            let LayerFile { name, scale, form } = asked.layer;
            build(alloc, name, asked.index, form, Scale::new(scale), shelf)
        }
        Command::Ask(asked) => ask(alloc, asked.index, asked.points, shelf, out, steps),
        Command::Verify(asked) => verify(alloc, asked.index, shelf, out),
        Command::Face(asked) => {
            let LayerFile { name, scale, form } = asked.layer;
            let scale = Scale::new(scale);
            face(alloc, name, asked.point, form, scale, shelf, out, steps)
        }
        Command::Gen(asked) => generate(asked.kind, asked.n, asked.shift, out),
        Command::Trial(asked) => {
            let (kind, n, shift) = (asked.kind, asked.n, asked.shift);
            trial(alloc, kind, n, shift, asked.index, out, steps)
        }
        Command::Edges(asked) => edges(alloc, asked.index, shelf, out),
        Command::Upgrade(asked) => run_upgrade(alloc, asked, shelf),
        Command::Stab(asked) => {
            let LayerFile { name, scale, form } = asked.layer;
            let scale = Scale::new(scale);
            stab(alloc, name, asked.spans, form, scale, shelf, out, steps)
        }
        Command::Valid(layer) => run_valid(alloc, layer, shelf, out),
        Command::Dissolve(layer) => {
            let LayerFile { name, scale, form } = layer;
            dissolve(alloc, name, form, Scale::new(scale), shelf, out)
        }
    }
}
