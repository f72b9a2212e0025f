// Where a point goes on from a trapezoid that was cut.

ghost use Rattle.std.specs.Prelude.{◌≡◌, ◌+◌, ◌<◌, ◌≤◌, true, None, length, Some};
ghost use Rattle.std.specs.Ordering.{MatchOrdering};
ghost use Rattle.loc_spec_plane.specs.Points.{before, same_point};
ghost use Rattle.loc_spec_plane.specs.Tables.{corner as corner_of, lo_of, hi_of};
ghost use Rattle.loc_laws_traps.specs.Sets.{is_inside};
ghost use Rattle.loc_traps.specs.Meaning.{row_of};
ghost use Rattle.loc_trapdag.specs.Graphs.{IsIndexOf, IsTurn, step_of};

use crate::index::{Step, TrapIndex};
use loc_edges::Views;
use loc_geom::{Point, Side, Steps};
use loc_place::Place;
use std::cmp::Ordering;
use std::sync::ledger::Ledger;

// The place of a point, or the trapezoid to which it goes on.
#[derive(Clone, Copy)]
pub(crate) enum Turn {
    At(Place),
    To(usize),
}

// How the lower end of an edge stands to a point. It comes before the point where there is no part before it.
fn against_lower<L: Ledger>(
    views: &Views<'_, L>,
    corner: u32,
    part: Option<usize>,
    p: Point,
    steps: &mut Steps<L>,
) -> Ordering
    requires in_range { corner < length views.now.corners }
    requires none { part ≡ None → before (corner_of views.now corner) p ≡ true }
    ensures value { MatchOrdering result (before (corner_of views.now corner) p ≡ true) (same_point (corner_of views.now corner) p ≡ true) (before p (corner_of views.now corner) ≡ true) }
    ensures counted { steps.old ≤ steps.new }
    ensures few { steps.new ≤ steps.old + 1 }
{
    match part {
        Some(_) => views.compare(corner, p, steps),
        None => Ordering::Less,
    }
}

// How the upper end of an edge stands to a point. It comes behind the point where there is no part behind it.
fn against_upper<L: Ledger>(
    views: &Views<'_, L>,
    corner: u32,
    part: Option<usize>,
    p: Point,
    steps: &mut Steps<L>,
) -> Ordering
    requires in_range { corner < length views.now.corners }
    requires none { part ≡ None → before p (corner_of views.now corner) ≡ true }
    ensures value { MatchOrdering result (before (corner_of views.now corner) p ≡ true) (same_point (corner_of views.now corner) p ≡ true) (before p (corner_of views.now corner) ≡ true) }
    ensures counted { steps.old ≤ steps.new }
    ensures few { steps.new ≤ steps.old + 1 }
{
    match part {
        Some(_) => views.compare(corner, p, steps),
        None => Ordering::Greater,
    }
}

// A point against the edge that cut the trapezoid in which it is.
pub(crate) fn turn_at<L: Ledger>(
    index: &TrapIndex,
    n: usize,
    step: Step,
    views: &Views<'_, L>,
    p: Point,
    steps: &mut Steps<L>,
) -> Turn
    requires stands { IsIndexOf views.now index.now }
    requires in_range { n < length index.now.map.rows }
    requires step { step_of index.now.cuts n ≡ Some step }
    requires inside { is_inside views.now (row_of index.now.map.rows n) p ≡ true }
    ensures turn { IsTurn views.now index.now step.split p result }
    ensures counted { steps.old ≤ steps.new }
    ensures few { steps.new ≤ steps.old + 3 }
{
    let (lo, hi) = views.ends(step.edge);
    match against_lower(views, lo, step.split.before, p, steps) {
        Ordering::Greater => Turn::To(step.split.before.unwrap()),
        Ordering::Equal => Turn::At(Place::Corner(lo)),
        Ordering::Less => match against_upper(views, hi, step.split.behind, p, steps) {
            Ordering::Less => Turn::To(step.split.behind.unwrap()),
            Ordering::Equal => Turn::At(Place::Corner(hi)),
            Ordering::Greater => match views.side(step.edge, p, steps) {
                Side::Above => Turn::To(step.split.above),
                Side::On => Turn::At(Place::Border(step.edge)),
                Side::Below => Turn::To(step.split.below),
            },
        },
    }
}
