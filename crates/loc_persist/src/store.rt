//! The store of all versions, as the steps of a red-black tree ask for it.
ghost use Rattle.std.specs.Prelude.{◌≡◌, ◌≤◌, ◌<◌, ◌+◌, ◌^◌, ℕ, List, [], ◌∷◌, ◌++◌, length, Option, Some, None, OnOk, OnErr, IsTrue, slice_get};
ghost use Rattle.loc_pool.specs.declared.Link.{Link};
ghost use Rattle.loc_pool.specs.Maps.{has, links};
ghost use Rattle.loc_pool.specs.Rows.{row, child_at, AreNames, IsPlace};
ghost use Rattle.loc_rb.specs.Places.{Holds};
ghost use Rattle.loc_persist.specs.Numbered.{IsNumber, IsNodeRow};
ghost use Rattle.loc_persist.specs.Present.{IsPresent};
ghost use Rattle.loc_persist.specs.Stored.{nodes_of, IsStored};

use crate::copied::Copied;
use crate::node_row::{number_of, numbered};
use crate::present::{Present, Sealed};
use crate::roots::Roots;
use loc_pool::{Colour, Link, Pool, Turn};
use loc_rb::{Links, Path};
use loc_spec_index::NodeRow;
use std::alloc::{AllocError, Global};
use std::marker::Model;

/// The nodes, the roots of the sealed versions, how many nodes there were at the last seal, the counts of `make` and of `change`, and the room that is left.
#[derive(Drop)]
pub(crate) struct Store {
    present: Present,
    roots: Roots,
    sealed_nodes: u32,
    made: u32,
    changed: u32,
    room: u32,
}

impl Model for Store {
    ghost use Rattle.loc_persist.specs.Stored.{Stored, IsStored};
    ghost use Rattle.loc_persist.specs.Viewed.{stored};

    ghost Value = { Stored };

    ghost view = { λ s. stored s.present s.roots s.sealed_nodes s.made s.changed s.room };

    ghost invariant = { λ s. IsStored (stored s.present s.roots s.sealed_nodes s.made s.changed s.room) s.present.pool.spare };
}

impl Store {
    /// No nodes and no versions, and no room.
    pub(crate) fn new(alloc: Global) -> Store
        ensures { result ≡ record { rows = []; roots = []; root = None; sealed_nodes = 0; copied = []; made = 0; changed = 0; room = 0 } }
    {
        Store {
            present: Present {
                pool: Pool::new(alloc),
                root: None,
                copied: Copied::new(),
            },
            roots: Roots::new(alloc),
            sealed_nodes: 0,
            made: 0,
            changed: 0,
            room: 0,
        }
    }

    /// Takes room for one insertion or removal. After a refusal all is as before.
    pub(crate) fn reserve(&mut self) -> Result<(), AllocError>
        requires { self.old.made + self.old.changed < 2 ^ 31 }
        ensures room { OnOk result (self.new ≡ record self.old { room = 640 }) }
        ensures refused { OnErr result (self.new ≡ self.old) }
    {
        self.present.pool.reserve()?;
        self.room = 640;
        Ok(())
    }

    /// The newest version becomes a sealed one. After a refusal all is as before.
    pub(crate) fn seal(&mut self) -> Result<(), AllocError>
        requires few { length self.old.roots + 1 < 2 ^ 32 }
        requires list { (list : List ℕ) × Holds (nodes_of self.old) list × (length list ≤ 2 ^ 21) }
        ensures sealed { OnOk result (self.new ≡ record self.old { roots = self.old.roots ++ self.old.root ∷ []; sealed_nodes = length self.old.rows }) }
        ensures refused { OnErr result (self.new ≡ self.old) }
        ensures present { IsPresent (length self.old.roots) self.old.rows self.old.root self.old.copied }
    {
        let nodes = self.present.pool.len();
        self.roots.push(self.present.root)?;
        self.sealed_nodes = nodes;
        Ok(())
    }

    /// How many versions are sealed.
    pub(crate) fn sealed(&self) -> u32
        ensures count { result ≡ length self.now.roots }
        ensures facts { (spare : ℕ) × IsStored self.now spare }
    {
        self.roots.len() as u32
    }

    /// The root of a sealed version.
    pub(crate) fn root_of(&self, version: u32) -> Option<Link>
        requires { version < length self.now.roots }
        ensures { slice_get self.now.roots version ≡ Some result }
    {
        self.roots.get(version as usize)
    }

    /// The child of a node on a side in a version.
    pub(crate) fn child_in(&self, at: Link, turn: Turn, version: u32) -> Option<Link>
        requires { IsTrue (has self.now.rows at) }
        ensures { result ≡ child_at version turn (row self.now.rows at) }
    {
        self.present.pool.child(at, turn, version)
    }

    /// The item of a node, of any version.
    pub(crate) fn item_of(&self, at: Link) -> u32
        requires { IsTrue (has self.now.rows at) }
        ensures { result ≡ (row self.now.rows at).item }
    {
        self.present.pool.item(at)
    }

    /// The row of the node with this number.
    pub(crate) fn row(&self, number: u32) -> NodeRow
        requires { (1 ≤ number) × (number ≤ length self.now.rows) }
        ensures { (link : Link) × IsPlace (links self.now.rows) link number × IsNodeRow self.now.rows (row self.now.rows link) result }
    {
        numbered(&self.present.pool, self.present.pool.link(number))
    }

    /// The number of the root of a sealed version, or 0 where it has none.
    pub(crate) fn root_number(&self, version: u32) -> u32
        requires { version < length self.now.roots }
        ensures { (root : Option Link) × (slice_get self.now.roots version ≡ Some root) × IsNumber self.now.rows root result }
    {
        number_of(&self.present.pool, self.root_of(version))
    }

    /// The number of nodes.
    pub(crate) fn nodes(&self) -> u32
        ensures count { result ≡ length self.now.rows }
        ensures names { AreNames (links self.now.rows) }
    {
        self.present.pool.len()
    }
}

impl Links for Store {
    ghost use Rattle.loc_persist.specs.Stored.{nodes_of};

    ghost nodes = { nodes_of };

    fn root(&self) -> Option<Link> {
        self.present.root
    }

    fn item(&self, at: Link) -> u32 {
        self.present.pool.item(at)
    }

    fn child(&self, at: Link, turn: Turn) -> Option<Link> {
        self.present.pool.child(at, turn, self.roots.len() as u32)
    }

    fn colour(&self, at: Link) -> Colour {
        self.present.pool.colour(at)
    }

    fn set_colour(&mut self, at: Link, colour: Colour) {
        self.present.pool.set_colour(at, colour);
    }

    fn make(&mut self, item: u32, colour: Colour) -> Link {
        self.made += 1;
        self.room -= 1;
        self.present.pool.make(item, None, None, colour)
    }

    fn change(&mut self, path: &mut Path, at: Link, turn: Turn, to: Option<Link>) -> Link {
        // tells that a path has at most 44 entries
        let _length = path.len();
        let sealed = Sealed {
            versions: self.roots.len() as u32,
            nodes: self.sealed_nodes,
        };
        self.changed += 1;
        self.room -= 45;
        self.present.exchange(sealed, path, at, turn, to)
    }

    fn put_root(&mut self, to: Option<Link>) {
        self.present.root = to;
    }
}
