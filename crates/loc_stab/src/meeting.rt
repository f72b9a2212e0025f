// The edges that a span meets.

ghost use Rattle.std.specs.Prelude.{◌≡◌, ◌+◌, ◌-◌, ◌*◌, ◌^◌, ◌≤◌, ℕ, IfOk, length};
ghost use Rattle.std.specs.List.{flat_map};
ghost use Rattle.loc_io.specs.Streams.{TakesAll};
ghost use Rattle.loc_page.specs.Puts.{PutsText};
ghost use Rattle.loc_place.specs.Standing.{IsStanding};
ghost use Rattle.loc_laws_order.proofs.AliveAt.{IsPassed};
ghost use Rattle.loc_spec_plane.specs.Spans.{IsSpan, met_at};
ghost use Rattle.loc_spec_text.specs.Spans.{numbered};
ghost use Rattle.loc_treeidx.specs.Standing.{AreVersionsOf};
ghost use Rattle.loc_place.specs.Steps.{alive_count, search_bound, version_bound};
ghost use Rattle.loc_stab.specs.Runs.{run_at};

use crate::beside::{write_beginning, write_ended};
use crate::run::write_alive;
use loc_edges::Views;
use loc_geom::{Point, Steps};
use loc_io::{Sink, WriteFault};
use loc_page::Page;
use loc_persist::Versions;
use loc_place::{Standing, search_corners};
use loc_treeidx::TreeIndex;
use std::sync::ledger::Ledger;

// Where a point stands among the corners, and how many corners are not behind it.
fn stand<L: Ledger>(views: &Views<'_, L>, p: Point, steps: &mut Steps<L>) -> (Standing, u32)
    ensures standing { IsStanding views.now p result.0 }
    ensures passed { IsPassed views.now p result.1 }
    ensures within { result.1 ≤ length views.now.corners }
    ensures counted { steps.old ≤ steps.new }
    ensures halving { 2 ^ (steps.new - steps.old) ≤ 2 * length views.now.corners + 1 }
{
    views.law();
    match search_corners(views, p, steps) {
        Standing::OnCorner(corner) => (Standing::OnCorner(corner), corner + 1),
        Standing::Behind(passed) => (Standing::Behind(passed), passed),
    }
}

// Writes the edges met that are alive at the low point, from the lowest to the highest, and says how many these are.
fn write_line<O: Sink, L: Ledger>(
    versions: &Versions,
    at: Standing,
    views: &Views<'_, L>,
    low: Point,
    high: Point,
    page: &mut Page,
    sink: &mut O,
    steps: &mut Steps<L>,
) -> Result<u32, WriteFault>
    requires stands { AreVersionsOf views.now versions.now }
    requires span { IsSpan low high }
    requires standing { IsStanding views.now low at }
    ensures written { PutsText (flat_map numbered (run_at views.now low high)) (O.meaning sink.old) (O.meaning sink.new) page.old page.new result }
    ensures count { IfOk result (λ n. n ≡ length (run_at views.now low high)) }
    ensures counted { steps.old ≤ steps.new }
    ensures few { (s : ℕ) × (steps.new ≤ steps.old + s + length (run_at views.now low high) + 1) × (2 ^ s ≤ version_bound (alive_count views.now low)) }
{
    // tells that there are as many roots as lists
    let _sealed = versions.sealed();
    match at {
        Standing::OnCorner(corner) => {
            write_alive(versions, corner, views, low, high, page, sink, steps)
        }
        Standing::Behind(passed) => {
            if passed == 0 {
                return Ok(0);
            }
            write_alive(versions, passed - 1, views, low, high, page, sink, steps)
        }
    }
}

/// Puts a space and the number of each edge that meets the vertical span from the low point up to the high one on a page, and says how many these
/// are: those that end at the low point, by number; those that are alive there, from the lowest to the highest; and the others, by number. Those
/// alive are read from one version of the index. Beside the steps of its searches it takes at most one for each edge of the second kind, and one more.
pub fn put_met<O: Sink, L: Ledger>(
    index: &TreeIndex,
    views: &Views<'_, L>,
    low: Point,
    high: Point,
    page: &mut Page,
    sink: &mut O,
    steps: &mut Steps<L>,
) -> Result<u64, WriteFault>
    requires stands { AreVersionsOf views.now index.now }
    requires span { IsSpan low high }
    ensures written { PutsText (flat_map numbered (met_at views.now low high)) (O.meaning sink.old) (O.meaning sink.new) page.old page.new result }
    ensures count { IfOk result (λ n. n ≡ length (met_at views.now low high)) }
    ensures counted { steps.old ≤ steps.new }
    ensures few { (s : ℕ) × (steps.new ≤ steps.old + s + length (run_at views.now low high) + 1) × (2 ^ s ≤ (2 * length views.now.corners + 1) * search_bound (length views.now.corners) (alive_count views.now low)) }
{
    let (from, first) = stand(views, low, steps);
    let ended = write_ended(views, from, page, sink)?;
    let run = write_line(index.versions(), from, views, low, high, page, sink, steps)?;
    let (_, past) = stand(views, high, steps);
    let later = write_beginning(views, first, past, page, sink)?;
    Ok(u64::from(ended) + u64::from(run) + u64::from(later))
}

/// The same, written on a sink.
pub fn stab<O: Sink, L: Ledger>(
    index: &TreeIndex,
    views: &Views<'_, L>,
    low: Point,
    high: Point,
    sink: &mut O,
    steps: &mut Steps<L>,
) -> Result<u64, WriteFault>
    requires stands { AreVersionsOf views.now index.now }
    requires span { IsSpan low high }
    ensures written { TakesAll (flat_map numbered (met_at views.now low high)) (O.meaning sink.old) (O.meaning sink.new) result }
    ensures count { IfOk result (λ n. n ≡ length (met_at views.now low high)) }
    ensures counted { steps.old ≤ steps.new }
    ensures few { (s : ℕ) × (steps.new ≤ steps.old + s + length (run_at views.now low high) + 1) × (2 ^ s ≤ (2 * length views.now.corners + 1) * search_bound (length views.now.corners) (alive_count views.now low)) }
{
    let mut page = Page::new();
    let count = put_met(index, views, low, high, &mut page, sink, steps)?;
    page.flush(sink)?;
    Ok(count)
}
