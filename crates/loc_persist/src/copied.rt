//! Which links were copied. Only proofs read it: it takes no space, and its calls do nothing when they run.
ghost use Rattle.std.specs.Prelude.{◌≡◌, List, [], ◌∷◌};
ghost use Rattle.std.specs.Borrow.{ftrue};
ghost use Rattle.loc_pool.specs.declared.Link.{Link};

use loc_pool::Link;
use std::marker::{Model, PhantomData};

/// The links that were copied, the last one first.
#[derive(Drop)]
pub(crate) struct Copied {
    mark: PhantomData<u8>,
    pub(crate) ghost links: { List Link },
}

impl Model for Copied {
    ghost also_owns = { λ _. ftrue };
}

impl Copied {
    /// No links.
    pub(crate) fn new() -> Copied
        ensures { result.links ≡ [] }
    {
        Copied { mark: PhantomData }
    }

    /// One link more.
    pub(crate) fn and(&self, at: Link) -> Copied
        ensures { result.links ≡ at ∷ self.now.links }
    {
        let _ = at;
        Copied { mark: PhantomData }
    }
}
