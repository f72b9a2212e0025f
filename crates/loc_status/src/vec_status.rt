// A status that keeps the present list alone.

ghost use Rattle.std.specs.Prelude.{◌≡◌, None};
ghost use Rattle.loc_status.specs.Meaning.{IsFresh};

use crate::places::{before, neighbours_at, place_for, place_of};
use crate::search::search;
use crate::{Beside, InsertFault, Status, Target};
use loc_edges::Ranks;
use std::alloc::{AllocError, Global};
use std::marker::Model;

/// A status that keeps its present list in order and finds places in it by halving. It counts the lists that are sealed, and keeps none.
#[derive(Drop)]
pub struct VecStatus {
    list: Vec<u32>,
    sealed: u32,
    inserted: u32,
    removed: u32,
    past_greatest: u64,
    is_changed: bool,
}

impl Model for VecStatus {
    ghost use Rattle.std.specs.Prelude.{None};
    ghost use Rattle.loc_status.specs.Meaning.{StatusMeaning};

    ghost Value = { StatusMeaning };

    ghost view = { λ s. record { list = s.list.items; sealed_lists = None; sealed = s.sealed; inserted = s.inserted; removed = s.removed; past_greatest = s.past_greatest; is_changed = s.is_changed } };
}

impl VecStatus {
    /// A status to which nothing was done.
    pub fn new(alloc: Global) -> VecStatus
        ensures fresh { IsFresh result }
        ensures untold { result.sealed_lists ≡ None }
    {
        VecStatus {
            list: Vec::new(alloc),
            sealed: 0,
            inserted: 0,
            removed: 0,
            past_greatest: 0,
            is_changed: false,
        }
    }

    /// The present list, from the lowest edge to the highest.
    pub fn list(&self) -> &[u32]
        ensures { result.now ≡ self.now.list }
    {
        self.list.as_slice()
    }
}

impl Status for VecStatus {
    ghost meaning = { λ s. s };

    fn insert(&mut self, ranks: &Ranks<'_>, edge: u32) -> Result<Beside, InsertFault> {
        let place = place_for(&self.list, ranks, edge)?;
        if self.list.insert(place, edge).is_err() {
            return Err(InsertFault::NoMemory);
        }
        self.inserted += 1;
        self.past_greatest = self.past_greatest.max(u64::from(edge) + 1);
        self.is_changed = true;
        Ok(neighbours_at(&self.list, place))
    }

    fn remove(&mut self, ranks: &Ranks<'_>, edge: u32) -> Result<Beside, AllocError> {
        let place = place_of(&self.list, ranks, edge);
        let beside = neighbours_at(&self.list, place);
        self.list.remove(place);
        self.removed += 1;
        self.is_changed = true;
        Ok(beside)
    }

    fn floor(&self, ranks: &Ranks<'_>, corner: u32) -> Option<u32> {
        before(
            &self.list,
            search(&self.list, ranks, Target::Corner(corner)),
        )
    }

    fn seal(&mut self) -> Result<(), AllocError> {
        self.sealed += 1;
        self.is_changed = false;
        Ok(())
    }
}
