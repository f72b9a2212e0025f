// What answers a point by its place: a locator finds it, and the rows of a legend name the features.

ghost use Rattle.std.specs.Prelude.{◌≡◌, ◌<◌, ℕ, Option, filter, length, nat_lt, not, IfOk, IsTrue};
ghost use Rattle.loc_spec_plane.specs.Lists.{is_in, is_rising};
ghost use Rattle.loc_place.specs.Answers.{IsInRange};
ghost use Rattle.loc_cover.specs.Legends.{FitsTable};
ghost use Rattle.loc_batch.specs.Answering.{IsPlaceIn, answer_at, face_at};
ghost use Rattle.loc_batch.specs.Desks.{PutsAnswer, PutsOne};
ghost use Rattle.loc_batch.specs.Streams.{with_lists, with_one};
ghost use Rattle.loc_batch.specs.Told.{told_of, told_place};

use crate::answerer::{Answerer, Lists};
use crate::answers::{above, is_among, list_at, list_of, on_corner, on_edge, put_answer};
use crate::{FaceNumbers, FeedFault, Tally};
use loc_cover::Legend;
use loc_edges::{EdgeTable, Views};
use loc_geom::{Point, Steps};
use loc_io::Sink;
use loc_page::Page;
use loc_place::{Deep, Locator, Place};
use std::sync::ledger::Ledger;

/// What answers a point by its place in a table: a locator, the rows of a legend and the numbers of faces.
#[derive(Drop)]
pub struct ByPlace<'a, I: Locator, N: FaceNumbers> {
    pub index: &'a I,
    pub table: &'a EdgeTable,
    pub legend: &'a Legend,
    pub faces: &'a N,
}

// How many features of a list do not touch.
fn count_others(list: &[u32], touching: &[u32]) -> usize
    requires in_order { IsTrue (is_rising nat_lt touching.now) }
    ensures { result ≡ length (filter (λ f. not (is_in f touching.now)) list.now) }
{
    list.iter().filter(|f| !is_among(touching, **f)).count()
}

// The number of the face at a place, where it is an open face.
fn face_of<N: FaceNumbers, L: Ledger>(views: &Views<'_, L>, faces: &N, place: Place) -> Option<u32>
    requires fits { N.fits faces.now views.now }
    requires in_range { IsInRange views.now place }
    ensures { result ≡ face_at (N.shown faces.now) place }
{
    match place {
        Place::Area(floor) => faces.number(views, floor),
        _ => None,
    }
}

impl Tally {
    // The entries of the two lists of an answer.
    fn count_lists(&mut self, touching: &[u32], list: &[u32])
        requires in_order { IsTrue (is_rising nat_lt touching.now) }
        ensures { self.new ≡ with_lists (length touching.now) (length (filter (λ f. not (is_in f touching.now)) list.now)) self.old }
    {
        self.on = self.on.saturating_add(touching.len() as u64);
        self.covering = self
            .covering
            .saturating_add(count_others(list, touching) as u64);
    }

    // One answer at a place.
    fn count(&mut self, legend: &Legend, place: Place)
        requires in_range { IsPlaceIn legend.now place }
        ensures { (face : Option ℕ) → self.new ≡ with_one (answer_at legend.now face place) self.old }
    {
        self.lines = self.lines.saturating_add(1);
        match place {
            Place::Corner(n) => {
                self.corners = self.corners.saturating_add(1);
                self.count_lists(on_corner(legend, n), list_at(legend, n));
            }
            Place::Border(e) => {
                self.borders = self.borders.saturating_add(1);
                self.count_lists(on_edge(legend, e), above(legend, e));
            }
            Place::Area(floor) => {
                self.faces = self.faces.saturating_add(1);
                let covering = list_of(legend, floor).len() as u64;
                self.covering = self.covering.saturating_add(covering);
            }
        }
    }
}

// The answer at a place that was found, put and counted.
fn answer_place<O: Sink>(
    legend: &Legend,
    place: Place,
    face: Option<u32>,
    tally: &mut Tally,
    page: &mut Page,
    sink: &mut O,
) -> Result<(), FeedFault>
    requires in_range { IsPlaceIn legend.now place }
    ensures { PutsAnswer (told_of (answer_at legend.now face place)) tally.old tally.new (O.meaning sink.old) (O.meaning sink.new) page.old page.new result }
{
    put_answer(page, sink, legend, place, face)?;
    tally.count(legend, place);
    Ok(())
}

// The same of what was found.
fn answer_found<N: FaceNumbers, O: Sink, L: Ledger>(
    views: &Views<'_, L>,
    legend: &Legend,
    faces: &N,
    found: Result<Place, Deep>,
    tally: &mut Tally,
    page: &mut Page,
    sink: &mut O,
) -> Result<(), FeedFault>
    requires numbers { N.fits faces.now views.now }
    requires legend { FitsTable views.now legend.now }
    requires in_range { IfOk found (IsInRange views.now) }
    ensures { PutsOne (told_place (N.shown faces.now) legend.now found) tally.old tally.new (O.meaning sink.old) (O.meaning sink.new) page.old page.new result }
{
    match found {
        Ok(place) => {
            let face = face_of(views, faces, place);
            answer_place(legend, place, face, tally, page, sink)
        }
        Err(deep) => Err(FeedFault::from(deep)),
    }
}

impl<'a, I: Locator, N: FaceNumbers> Answerer<Result<Place, Deep>> for ByPlace<'a, I, N> {
    ghost use Rattle.std.specs.Prelude.{IfOk};
    ghost use Rattle.loc_place.specs.Answers.{IsInRange};
    ghost use Rattle.loc_cover.specs.Legends.{FitsTable};
    ghost use Rattle.loc_batch.specs.Told.{told_place};

    ghost fits = { λ d. I.fits d.index.now d.table.now × FitsTable d.table.now d.legend.now × N.fits d.faces.now d.table.now };

    ghost finds = { λ d p. I.finds d.index.now d.table.now p };

    ghost knows = { λ d found. IfOk found (IsInRange d.table.now) };

    ghost tells = { λ d found. told_place (N.shown d.faces.now) d.legend.now found };

    ghost most_found = { λ d. I.most d.index.now d.table.now };

    ghost most_put = { λ _. 0 };

    fn find<L: Ledger>(&self, p: Point, steps: &mut Steps<L>) -> Result<Place, Deep> {
        self.index.locate(&self.table.views(), p, steps)
    }

    fn put<O: Sink, L: Ledger>(
        &self,
        found: Result<Place, Deep>,
        _lists: &mut Lists,
        tally: &mut Tally,
        page: &mut Page,
        sink: &mut O,
        _steps: &mut Steps<L>,
    ) -> Result<(), FeedFault> {
        let views: Views<'_, L> = self.table.views();
        answer_found(&views, self.legend, self.faces, found, tally, page, sink)
    }
}
