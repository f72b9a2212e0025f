// The index of versions in a tree.

ghost use Rattle.std.specs.Prelude.{◌≡◌, ◌+◌, ◌-◌, ◌^◌, ◌≤◌, [], Ok, IfOk, IsOkAnd, length};
ghost use Rattle.loc_place.specs.Answers.{IsInRange};
ghost use Rattle.loc_place.specs.Found.{place_at};
ghost use Rattle.loc_place.proofs.FoundPlace.{place_at_is};
ghost use Rattle.loc_spec_plane.specs.Places.{IsPlace};
ghost use Rattle.loc_status.specs.Meaning.{IsFresh};
ghost use Rattle.loc_treeidx.specs.Meaning.{meaning_of};
ghost use Rattle.loc_treeidx.specs.Standing.{AreVersionsOf};
ghost use Rattle.loc_place.specs.Steps.{alive_count, search_bound, most_steps};

use crate::node::node_of;
use crate::places::place_for;
use crate::version::search_behind;
use crate::walk::walk_to;
use loc_edges::{Ranks, Views};
use loc_geom::{Point, Steps};
use loc_persist::Versions;
use loc_place::{Deep, Locator, Place, Standing, search_corners};
use loc_rb::Path;
use loc_status::{Beside, InsertFault, Status, Target};
use std::alloc::{AllocError, Global};
use std::marker::Model;
use std::sync::ledger::Ledger;

/// The index that keeps all lists of a sweep as the versions of one red-black tree. A search finds the last corner that does not come
/// behind the point, and walks down the version that was sealed there. It stands for every planar table whose versions are the lists.
#[derive(Drop)]
pub struct TreeIndex {
    versions: Versions,
}

impl Model for TreeIndex {
    ghost use Rattle.loc_persist.specs.Meaning.{VersionsMeaning};

    ghost Value = { VersionsMeaning };

    ghost view = { λ index. index.versions };
}

impl TreeIndex {
    /// An index to which nothing was done.
    pub fn new(alloc: Global) -> TreeIndex
        ensures fresh { IsFresh (meaning_of result) }
        ensures told { result.sealed_lists ≡ [] }
    {
        TreeIndex {
            versions: Versions::new(alloc),
        }
    }

    /// The versions of the tree.
    pub fn versions(&self) -> &Versions
        ensures { result.now ≡ self.now }
    {
        &self.versions
    }
}

impl Status for TreeIndex {
    ghost meaning = { meaning_of };

    fn insert(&mut self, ranks: &Ranks<'_>, edge: u32) -> Result<Beside, InsertFault> {
        ranks.law();
        let mut path = Path::new();
        let beside = place_for(&self.versions, ranks, edge, &mut path)?;
        match self.versions.insert_at(path, edge) {
            Err(AllocError) => Err(InsertFault::NoMemory),
            Ok(()) => Ok(beside),
        }
    }

    fn remove(&mut self, ranks: &Ranks<'_>, edge: u32) -> Result<Beside, AllocError> {
        let mut path = Path::new();
        let (at, beside) = node_of(&self.versions, ranks, edge, &mut path);
        self.versions.remove_at(path, at)?;
        Ok(beside)
    }

    fn floor(&self, ranks: &Ranks<'_>, corner: u32) -> Option<u32> {
        let mut path = Path::new();
        let way = walk_to(
            &self.versions,
            ranks,
            Target::Corner(corner),
            None,
            &mut path,
        );
        way.beside.below
    }

    fn seal(&mut self) -> Result<(), AllocError> {
        self.versions.seal()
    }
}

impl Locator for TreeIndex {
    ghost fits = { λ m t. AreVersionsOf t m };

    ghost stands = { λ m t. AreVersionsOf t m };

    ghost finds = { λ _ t p. Ok (place_at t p) };

    ghost most = { λ _ t. most_steps t };

    // The first five clauses are those of the trait; the last counts only the edges that are alive at the point.
    fn locate<L: Ledger>(
        &self,
        views: &Views<'_, L>,
        p: Point,
        steps: &mut Steps<L>,
    ) -> Result<Place, Deep>
        requires { AreVersionsOf views.now self.now }
        ensures found { result ≡ Ok (place_at views.now p) }
        ensures place { AreVersionsOf views.now self.now → IsOkAnd result (IsPlace views.now p) }
        ensures in_range { IfOk result (IsInRange views.now) }
        ensures counted { steps.old ≤ steps.new }
        ensures within { steps.new ≤ steps.old + most_steps views.now }
        ensures few { 2 ^ (steps.new - steps.old) ≤ search_bound (length views.now.corners) (alive_count views.now p) }
    {
        match search_corners(views, p, steps) {
            Standing::OnCorner(corner) => Ok(Place::Corner(corner)),
            Standing::Behind(passed) => Ok(search_behind(&self.versions, passed, views, p, steps)),
        }
    }

    ghost stands_fits = { λ _ t stands. stands };

    ghost stands_apart = { λ _ t stands. stands.planar.apart };

    ghost stands_finds = { λ _ t p stands. place_at_is t stands.planar p };
}
