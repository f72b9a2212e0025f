// The index.

ghost use Rattle.std.specs.Prelude.{◌≡◌, ℕ, ◌+◌, ◌*◌, ◌<◌, ◌≤◌, true, false, Ok, IfOk, OnOk, IsTrue, not, [], ◌∷◌, ◌++◌, length};
ghost use Rattle.loc_spec_plane.specs.Points.{conflict};
ghost use Rattle.loc_spec_plane.specs.Tables.{Table, IsTable, AllEnds, NoConflict, edge as edge_of};
ghost use Rattle.loc_spec_plane.specs.Places.{IsPlace};
ghost use Rattle.loc_laws_traps.specs.Sets.{IsCalmSet, with_edge, begins_in};
ghost use Rattle.loc_place.specs.Found.{place_at};
ghost use Rattle.loc_place.proofs.FoundPlace.{place_at_is};
ghost use Rattle.loc_traps.specs.Meaning.{row_of, live_of, among};
ghost use Rattle.loc_traps.specs.Splits.{split_of};
ghost use Rattle.loc_trapdag.specs.Graphs.{IsGraphOf, IsIndexOf, Marks};
ghost use Rattle.loc_trapdag.specs.Orders.{IsOrder};

use crate::Order;
use crate::turn::{Turn, turn_at};
use loc_edges::{Ranks, Views};
use loc_geom::{Point, Steps};
use loc_place::{Deep, Locator, Place};
use loc_traps::{Split, Traps};
use std::alloc::{AllocError, Global};
use std::marker::Model;
use std::sync::ledger::Ledger;

// An edge that cut a trapezoid, and what took the place of that.
#[derive(Clone, Copy)]
pub(crate) struct Step {
    pub(crate) edge: u32,
    pub(crate) split: Split,
}

/// The trapezoids of a table's edges, those that were cut among them, each of which leads to its pieces (de Berg et al., chapter 6). A
/// search goes down from the first trapezoid, which has no bounds.
#[derive(Drop)]
pub struct TrapIndex {
    traps: Traps,
    cuts: Vec<Option<Step>>,
}

impl Model for TrapIndex {
    ghost use Rattle.loc_traps.specs.Splits.{split_of};
    ghost use Rattle.loc_trapdag.specs.Graphs.{Graph};

    ghost Value = { Graph };

    ghost view = { λ index. record { map = index.traps; cuts = index.cuts.items } };
}

impl TrapIndex {
    /// The index of a table without conflicts of which every corner is an end, whose edges are added in an order.
    pub fn build(alloc: Global, ranks: &Ranks<'_>, order: &Order) -> Result<TrapIndex, AllocError>
        requires apart { NoConflict ranks.now }
        requires ends { AllEnds ranks.now }
        requires permutation { IsOrder (length ranks.now.ends) order.now }
        ensures { IfOk result (IsIndexOf ranks.now) }
    {
        ranks.law();
        let mut index = TrapIndex::start(alloc)?;
        for edge in order.edges() {
            index.add(ranks, *edge)?;
        }
        Ok(index)
    }

    // The trapezoid in which a new edge begins.
    fn seek(&self, ranks: &Ranks<'_>, edge: u32) -> usize
        requires graph { IsGraphOf ranks.now self.now }
        requires in_range { edge < length ranks.now.ends }
        requires calm { IsCalmSet ranks.now (with_edge (among self.now.map.added) edge) }
        requires is_new { among self.now.map.added edge ≡ false }
        ensures in_range { result < length self.now.map.rows }
        ensures live { live_of self.now.map.is_live result ≡ true }
        ensures begins { begins_in ranks.now edge (row_of self.now.map.rows result) ≡ true }
    {
        let (lo, _) = ranks.ends(edge);
        let mut n = 0;
        'down: while let Some(step) = self.cuts[n] {
            let (low, high) = ranks.ends(step.edge);
            n = if lo < low {
                step.split.before.unwrap()
            } else if high <= lo {
                step.split.behind.unwrap()
            } else if ranks.lower(step.edge, edge) {
                step.split.above
            } else {
                step.split.below
            };
        }
        n
    }

    // The place of a point, by the way down from the first trapezoid.
    fn place<L: Ledger>(&self, views: &Views<'_, L>, p: Point, steps: &mut Steps<L>) -> Place
        requires { IsIndexOf views.now self.now }
        ensures place { IsPlace views.now p result }
        ensures counted { steps.old ≤ steps.new }
        ensures within { steps.new ≤ steps.old + 3 * length views.now.ends }
    {
        let mut n = 0;
        'down: while let Some(step) = self.cuts[n] {
            match turn_at(self, n, step, views, p, steps) {
                Turn::At(place) => return place,
                Turn::To(next) => n = next,
            }
        }
        Place::Area(self.traps.trap(n).bottom)
    }

    // The index of no edge.
    fn start(alloc: Global) -> Result<TrapIndex, AllocError>
        ensures graph { IfOk result (λ index. (t : Table) → IsTable t → IsGraphOf t index) }
        ensures added { IfOk result (λ index. index.map.added ≡ []) }
    {
        let mut cuts = Vec::new(alloc);
        cuts.push(None)?;
        Ok(TrapIndex {
            traps: Traps::start(alloc)?,
            cuts,
        })
    }

    // Adds an edge.
    fn add(&mut self, ranks: &Ranks<'_>, edge: u32) -> Result<(), AllocError>
        requires graph { IsGraphOf ranks.now self.old }
        requires in_range { edge < length ranks.now.ends }
        requires is_new { among self.old.map.added edge ≡ false }
        requires apart { (a : ℕ) → among self.old.map.added a ≡ true → IsTrue (not (conflict (edge_of ranks.now a) (edge_of ranks.now edge))) }
        ensures graph { OnOk result (IsGraphOf ranks.now self.new) }
        ensures added { OnOk result (self.new.map.added ≡ self.old.map.added ++ edge ∷ []) }
    {
        ranks.law();
        let from = self.seek(ranks, edge);
        let splits = self.traps.add(ranks, edge, from)?;
        self.cuts.resize(self.traps.made(), None)?;
        mark(&mut self.cuts, edge, &splits);
        Ok(())
    }
}

// Notes the splits that an edge brings.
fn mark(cuts: &mut [Option<Step>], edge: u32, splits: &[Split])
    requires in_range { (j : ℕ) → j < length splits.now → (split_of splits.now j).cut < length cuts.old }
    requires single { (i j : ℕ) → i < length splits.now → j < length splits.now → (split_of splits.now i).cut ≡ (split_of splits.now j).cut → i ≡ j }
    ensures { Marks edge splits.now (length splits.now) cuts.old cuts.new }
{
    for split in splits {
        cuts[split.cut] = Some(Step {
            edge,
            split: *split,
        });
    }
}

impl Locator for TrapIndex {
    ghost fits = { λ index t. IsIndexOf t index };

    ghost stands = { λ index t. IsIndexOf t index };

    ghost finds = { λ _ t p. Ok (place_at t p) };

    ghost most = { λ _ t. 3 * length t.ends };

    fn locate<L: Ledger>(
        &self,
        views: &Views<'_, L>,
        p: Point,
        steps: &mut Steps<L>,
    ) -> Result<Place, Deep> {
        Ok(self.place(views, p, steps))
    }

    ghost stands_fits = { λ _ t stands. stands };

    ghost stands_apart = { λ _ t stands. stands.planar.apart };

    ghost stands_finds = { λ _ t p stands. place_at_is t stands.planar p };
}
