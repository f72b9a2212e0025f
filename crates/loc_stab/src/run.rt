// The edges from a place in a version on, up to the first that has the high point below it.

ghost use Rattle.std.specs.Prelude.{◌≡◌, ◌+◌, ◌^◌, ◌<◌, ◌≤◌, [], List, ℕ, IfOk, get_or, length};
ghost use Rattle.std.specs.List.{flat_map};
ghost use Rattle.loc_page.specs.Puts.{PutsText};
ghost use Rattle.loc_spec_text.specs.Spans.{numbered};
ghost use Rattle.loc_laws_stab.specs.Fronts.{passing_front};
ghost use Rattle.loc_laws_stab.proofs.RunOfRest.{reaches_up};
ghost use Rattle.loc_spec_plane.specs.Places.{IsListAt};
ghost use Rattle.loc_spec_plane.specs.Spans.{IsSpan};
ghost use Rattle.loc_place.specs.Planar.{IsPlanar};
ghost use Rattle.loc_place.specs.Steps.{alive_count, version_bound};
ghost use Rattle.loc_stab.specs.Pending.{IsRest};
ghost use Rattle.loc_stab.specs.Runs.{run_at};

use crate::pending::{Pending, next_edge};
use crate::seek::seek;
use crate::sides::is_at;
use loc_edges::Views;
use loc_geom::{Point, Side, Steps};
use loc_io::{Sink, WriteFault};
use loc_page::Page;
use loc_persist::Versions;
use std::sync::ledger::Ledger;

// A space and the number of an edge.
pub(crate) fn put_edge<O: Sink>(page: &mut Page, sink: &mut O, edge: u32) -> Result<(), WriteFault>
    ensures { PutsText (numbered edge) (O.meaning sink.old) (O.meaning sink.new) page.old page.new result }
{
    page.put(sink, b" ")?;
    page.put_number(sink, edge)
}

// Writes the edges that are pending, up to the first that has the high point below it, and says how many these are.
pub(crate) fn write_run<O: Sink, L: Ledger>(
    versions: &Versions,
    version: u32,
    views: &Views<'_, L>,
    high: Point,
    pending: &mut Pending,
    page: &mut Page,
    sink: &mut O,
    steps: &mut Steps<L>,
) -> Result<u32, WriteFault>
    requires { (rest : List ℕ) × IsRest views.now version versions.now.rows pending.old.items rest }
    ensures written { (rest : List ℕ) → IsRest views.now version versions.now.rows pending.old.items rest → PutsText (flat_map numbered (passing_front (reaches_up views.now high) rest)) (O.meaning sink.old) (O.meaning sink.new) page.old page.new result }
    ensures count { (rest : List ℕ) → IsRest views.now version versions.now.rows pending.old.items rest → IfOk result (λ n. n ≡ length (passing_front (reaches_up views.now high) rest)) }
    ensures counted { steps.old ≤ steps.new }
    ensures few { (rest : List ℕ) → IsRest views.now version versions.now.rows pending.old.items rest → steps.new ≤ steps.old + length (passing_front (reaches_up views.now high) rest) + 1 }
{
    views.law();
    let mut count = 0;
    'out: while let Some(edge) = next_edge(versions, version, pending) {
        if is_at(views, edge, high, Side::Below, steps) {
            return Ok(count);
        }
        put_edge(page, sink, edge)?;
        count += 1;
    }
    Ok(count)
}

// Writes the edges of a version that the span meets, from the lowest to the highest, and says how many these are. The version's list is
// that of the edges alive at the low point.
pub(crate) fn write_alive<O: Sink, L: Ledger>(
    versions: &Versions,
    version: u32,
    views: &Views<'_, L>,
    low: Point,
    high: Point,
    page: &mut Page,
    sink: &mut O,
    steps: &mut Steps<L>,
) -> Result<u32, WriteFault>
    requires sealed { version < length versions.now.roots }
    requires planar { IsPlanar views.now }
    requires span { IsSpan low high }
    requires alive { IsListAt views.now low (get_or versions.now.sealed_lists version []) }
    ensures written { PutsText (flat_map numbered (run_at views.now low high)) (O.meaning sink.old) (O.meaning sink.new) page.old page.new result }
    ensures count { IfOk result (λ n. n ≡ length (run_at views.now low high)) }
    ensures counted { steps.old ≤ steps.new }
    ensures few { (s : ℕ) × (steps.new ≤ steps.old + s + length (run_at views.now low high) + 1) × (2 ^ s ≤ version_bound (alive_count views.now low)) }
{
    let mut pending = seek(versions, version, views, low, steps);
    write_run(
        versions,
        version,
        views,
        high,
        &mut pending,
        page,
        sink,
        steps,
    )
}
