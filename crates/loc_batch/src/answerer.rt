// What answers a point, and the lists that it fills.

ghost use Rattle.std.specs.Prelude.{◌≡◌, ◌+◌, ◌<◌, ◌≤◌, ◌++◌, ◌∷◌, [], ℕ, Result, length, nat_lt, vec_capacity, IfOk};
ghost use Rattle.loc_spec_plane.specs.Lists.{sorted_set};
ghost use Rattle.loc_spec_plane.specs.Points.{Point as PointValue};
ghost use Rattle.loc_place.specs.declared.locator.Deep.{Deep as DeepOf};
ghost use Rattle.loc_batch.specs.Desks.{PutsOne};
ghost use Rattle.loc_batch.specs.Lists.{no_lists};
ghost use Rattle.loc_batch.specs.Told.{Told};

use crate::{FeedFault, Tally};
use loc_geom::{Point, Steps};
use loc_io::Sink;
use loc_page::Page;
use loc_spec_text::MOST_FEATURES;
use std::alloc::{AllocError, Global};
use std::marker::Model;
use std::sync::ledger::Ledger;

// The features of a list in order, each once. The list keeps its room.
fn sort_features(list: &mut Vec<u32>)
    ensures set { list.new.items ≡ sorted_set nat_lt list.old.items }
    ensures room { vec_capacity list.new ≡ vec_capacity list.old }
{
    list.sort_unstable();
    list.dedup();
}

/// Room for two lists of features, from `make` on.
#[derive(Drop)]
pub struct Lists {
    touching: Vec<u32>,
    covering: Vec<u32>,
}

impl Model for Lists {
    ghost use Rattle.std.specs.Prelude.{◌≤◌, vec_len, vec_capacity};
    ghost use Rattle.loc_batch.specs.Lists.{ListsState};

    ghost Value = { ListsState };

    ghost view = { λ l. record { touching = l.touching.items; covering = l.covering.items } };

    ghost invariant = { λ l. (262144 ≤ vec_capacity l.touching) × (262144 ≤ vec_capacity l.covering) };
}

impl Lists {
    /// Two lists of no features.
    pub fn make(alloc: Global) -> Result<Lists, AllocError>
        ensures { IfOk result (λ l. l ≡ no_lists) }
    {
        Ok(Lists {
            touching: Vec::with_capacity(alloc, MOST_FEATURES)?,
            covering: Vec::with_capacity(alloc, MOST_FEATURES)?,
        })
    }

    /// Lets go all features.
    pub fn clear(&mut self)
        ensures { self.new ≡ no_lists }
    {
        self.touching.clear();
        self.covering.clear();
    }

    /// One feature more that touches.
    pub fn touch(&mut self, feature: u32)
        requires room { length self.old.touching < 262144 }
        ensures { self.new ≡ record self.old { touching = self.old.touching ++ feature ∷ [] } }
    {
        let _ = self.touching.push(feature);
    }

    /// One feature more that covers.
    pub fn cover(&mut self, feature: u32)
        requires room { length self.old.covering < 262144 }
        ensures { self.new ≡ record self.old { covering = self.old.covering ++ feature ∷ [] } }
    {
        let _ = self.covering.push(feature);
    }

    /// The features of each list in order, each once.
    pub fn sort(&mut self)
        ensures touching { self.new.touching ≡ sorted_set nat_lt self.old.touching }
        ensures covering { self.new.covering ≡ sorted_set nat_lt self.old.covering }
    {
        sort_features(&mut self.touching);
        sort_features(&mut self.covering);
    }

    /// The features that touch.
    pub fn touching(&self) -> &[u32]
        ensures { result.now ≡ self.now.touching }
    {
        &self.touching
    }

    /// The features that cover.
    pub fn covering(&self) -> &[u32]
        ensures { result.now ≡ self.now.covering }
    {
        &self.covering
    }
}

/// What answers a point. It finds something for each point of a block of lines, in the order of the plane; then it puts the answer lines, in
/// the order of the lines.
pub trait Answerer<F> {
    /// It may be asked.
    ghost fits: { Self → Type 0 };

    /// What it finds for a point.
    ghost finds: { Self → PointValue → F };

    /// It may be asked for the answer to what it found.
    ghost knows: { Self → F → Type 0 };

    /// What it answers to what it found, or that the line is given up.
    ghost tells: { Self → F → Result Told DeepOf };

    /// How many steps it takes at most to find something for a point.
    ghost most_found: { Self → ℕ };

    /// How many steps it takes at most to put an answer.
    ghost most_put: { Self → ℕ };

    /// Finds something for a point. It counts its steps.
    fn find<L: Ledger>(&self, p: Point, steps: &mut Steps<L>) -> F
        requires fits { fits self.now }
        ensures found { result ≡ finds self.now p }
        ensures known { knows self.now result }
        ensures counted { steps.old ≤ steps.new }
        ensures within { steps.new ≤ steps.old + most_found self.now };

    /// Puts the answer line to what was found on a page, and counts it. The lists are free for use.
    fn put<O: Sink, L: Ledger>(
        &self,
        found: F,
        lists: &mut Lists,
        tally: &mut Tally,
        page: &mut Page,
        sink: &mut O,
        steps: &mut Steps<L>,
    ) -> Result<(), FeedFault>
        requires fits { fits self.now }
        requires known { knows self.now found }
        ensures puts { PutsOne (tells self.now found) tally.old tally.new (O.meaning sink.old) (O.meaning sink.new) page.old page.new result }
        ensures counted { steps.old ≤ steps.new }
        ensures within { steps.new ≤ steps.old + most_put self.now };
}
