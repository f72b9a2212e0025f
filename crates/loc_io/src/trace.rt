//! The names handed to a shelf, each with the bytes taken under it, which only contracts see.
ghost use Rattle.std.specs.Prelude.{◌≡◌, []};
ghost use Rattle.std.specs.Borrow.{ftrue};
ghost use Rattle.loc_io.specs.Entries.{Entries, noted};

use std::marker::{Model, PhantomData};

/// A list of entries that takes no bytes. Its methods do nothing at run time.
#[derive(Drop)]
pub struct Trace {
    marker: PhantomData<u8>,
    pub ghost entries: { Entries },
}

impl Model for Trace {
    ghost also_owns = { λ _. ftrue };
}

impl Trace {
    pub(crate) fn new() -> Trace
        ensures { result.entries ≡ [] }
    {
        Trace {
            marker: PhantomData,
        }
    }

    // Notes a name that was handed over, or with one number how many bytes were taken.
    pub(crate) fn note(&mut self, _numbers: &[u64], _name: &[u8])
        ensures { self.new.entries ≡ noted _numbers.now _name.now self.old.entries }
    {}
}
