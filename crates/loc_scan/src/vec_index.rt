// An index that keeps the versions.

ghost use Rattle.std.specs.Prelude.{◌≡◌, ℕ, ◌+◌, ◌≤◌, [], ◌∷◌, Ok, length, get_or};
ghost use Rattle.loc_place.specs.Found.{place_at};
ghost use Rattle.loc_place.proofs.FoundPlace.{place_at_is};
ghost use Rattle.loc_status.specs.Meaning.{IsFresh};
ghost use Rattle.loc_scan.specs.Versions.{AreVersionsOf, meaning_of};

use crate::versions::search_list;
use loc_edges::{Ranks, Views};
use loc_geom::{Point, Steps};
use loc_place::{Deep, Locator, Place, Standing, search_corners};
use loc_status::{Beside, InsertFault, Status, VecStatus};
use std::alloc::{AllocError, Global};
use std::marker::Model;
use std::sync::ledger::Ledger;

/// The index that keeps a copy of each list that a sweep seals, one for each corner, as its versions. A search finds the last corner that
/// does not come behind the point, and then its place in the list there, each by halving. It stands for every planar table whose versions
/// are the lists. The copies have at most as many members as there are corners times edges.
#[derive(Drop)]
pub struct VecIndex {
    status: VecStatus,
    lists: Vec<Vec<u32>>,
}

impl Model for VecIndex {
    ghost use Rattle.std.specs.Prelude.{map};
    ghost use Rattle.loc_scan.specs.Versions.{KeptLists};

    ghost Value = { KeptLists };

    ghost view = { λ v. record { status = v.status; lists = map (λ list. list.items) v.lists.items } };
}

impl VecIndex {
    /// An index to which nothing was done.
    pub fn new(alloc: Global) -> VecIndex
        ensures fresh { IsFresh (meaning_of result) }
        ensures told { result.lists ≡ [] }
    {
        VecIndex {
            status: VecStatus::new(alloc),
            lists: Vec::new(alloc),
        }
    }

    // The list that was sealed last of so many, or an empty one where there is none.
    fn version(&self, many: u32) -> &[u32]
        requires { many ≤ length self.now.lists }
        ensures { result.now ≡ get_or ([] ∷ self.now.lists) many [] }
    {
        if many == 0 {
            return &[];
        }
        self.lists[many as usize - 1].as_slice()
    }
}

impl Status for VecIndex {
    ghost meaning = { meaning_of };

    fn insert(&mut self, ranks: &Ranks<'_>, edge: u32) -> Result<Beside, InsertFault> {
        self.status.insert(ranks, edge)
    }

    fn remove(&mut self, ranks: &Ranks<'_>, edge: u32) -> Result<Beside, AllocError> {
        self.status.remove(ranks, edge)
    }

    fn floor(&self, ranks: &Ranks<'_>, corner: u32) -> Option<u32> {
        self.status.floor(ranks, corner)
    }

    // Memory is taken first, and the copy is let go again where the status refuses.
    fn seal(&mut self) -> Result<(), AllocError> {
        let copy = Vec::from_slice(*self.lists.allocator(), self.status.list())?;
        self.lists.push(copy)?;
        if self.status.seal().is_err() {
            self.lists.pop();
            return Err(AllocError);
        }
        Ok(())
    }
}

impl Locator for VecIndex {
    ghost fits = { λ v t. AreVersionsOf t v };

    ghost stands = { λ v t. AreVersionsOf t v };

    ghost finds = { λ _ t p. Ok (place_at t p) };

    ghost most = { λ _ t. length t.corners + length t.ends };

    fn locate<L: Ledger>(
        &self,
        views: &Views<'_, L>,
        p: Point,
        steps: &mut Steps<L>,
    ) -> Result<Place, Deep> {
        match search_corners(views, p, steps) {
            Standing::OnCorner(corner) => Ok(Place::Corner(corner)),
            Standing::Behind(passed) => Ok(search_list(views, self.version(passed), p, steps)),
        }
    }

    ghost stands_fits = { λ _ t stands. stands };

    ghost stands_apart = { λ _ t stands. stands.planar.apart };

    ghost stands_finds = { λ _ t p stands. place_at_is t stands.planar p };
}
