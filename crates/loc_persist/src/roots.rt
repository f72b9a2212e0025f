//! The roots of the sealed versions.
ghost use Rattle.std.specs.Prelude.{◌≡◌, ◌≢◌, ◌<◌, [], ◌∷◌, ◌++◌, length, Some, OnOk, OnErr, slice_get};
ghost use Rattle.loc_pool.specs.Rows.{no_link};

use loc_pool::Link;
use std::alloc::{AllocError, Global};
use std::marker::Model;

/// The root of each sealed version. An `Option` of a link would take twice the bytes, so the default link stands for none.
#[derive(Drop)]
pub(crate) struct Roots {
    links: Vec<Link>,
}

impl Model for Roots {
    ghost use Rattle.std.specs.Prelude.{List, Option, map};
    ghost use Rattle.loc_pool.specs.declared.Link.{Link};
    ghost use Rattle.loc_persist.specs.Roots.{root_by};

    ghost Value = { List (Option Link) };

    ghost view = { λ r. map root_by r.links.items };
}

impl Roots {
    /// No roots.
    pub(crate) fn new(alloc: Global) -> Roots
        ensures { result ≡ [] }
    {
        Roots {
            links: Vec::new(alloc),
        }
    }

    /// How many there are.
    pub(crate) fn len(&self) -> usize
        ensures { result ≡ length self.now }
    {
        self.links.len()
    }

    /// The root of a version.
    pub(crate) fn get(&self, version: usize) -> Option<Link>
        requires { version < length self.now }
        ensures { slice_get self.now version ≡ Some result }
    {
        let link = self.links[version];
        if link.is_default() { None } else { Some(link) }
    }

    /// One root more. After a refusal all is as before.
    pub(crate) fn push(&mut self, root: Option<Link>) -> Result<(), AllocError>
        requires { root ≢ Some no_link }
        ensures pushed { OnOk result (self.new ≡ self.old ++ root ∷ []) }
        ensures refused { OnErr result (self.new ≡ self.old) }
    {
        self.links.push(root.unwrap_or(Link::default()))?;
        Ok(())
    }
}
