//! The versions of a red-black tree.
ghost use Rattle.std.specs.Prelude.{◌≡◌, ◌≤◌, ◌<◌, ◌^◌, ℕ, List, length, Option, Some, OnOk, OnErr, IsTrue, slice_get};
ghost use Rattle.loc_pool.specs.declared.Link.{Link};
ghost use Rattle.loc_pool.specs.Maps.{has, links};
ghost use Rattle.loc_pool.specs.Rows.{row, child_at, AreNames, IsPlace};
ghost use Rattle.loc_rb.specs.Places.{LeadsToGap, LeadsTo};
ghost use Rattle.loc_persist.specs.Meaning.{IsMeaning, Inserts, Removes, Seals, fresh, present_nodes};
ghost use Rattle.loc_persist.specs.Numbered.{IsNumber, IsNodeRow, IsWithin};

use crate::store::Store;
use loc_pool::{Link, Turn};
use loc_rb::{Links, Path, insert, remove};
use loc_spec_index::NodeRow;
use std::alloc::{AllocError, Global};
use std::marker::Model;

/// A list that can be read as it was at each seal. Its items stand in one red-black tree, of which each seal is a version.
#[derive(Drop)]
pub struct Versions {
    store: Store,
    inserted: u32,
    removed: u32,
    past_greatest: u64,
    is_changed: bool,
}

impl Model for Versions {
    ghost use Rattle.loc_persist.specs.Meaning.{VersionsMeaning, meaning, IsKept};

    ghost Value = { VersionsMeaning };

    ghost view = { λ v. meaning v.store v.inserted v.removed v.past_greatest v.is_changed };

    ghost invariant = { λ v. IsKept v.store v.inserted v.removed v.past_greatest v.is_changed };
}

impl Versions {
    /// An empty list, with no versions.
    pub fn new(alloc: Global) -> Versions
        ensures { result ≡ fresh }
    {
        Versions {
            store: Store::new(alloc),
            inserted: 0,
            removed: 0,
            past_greatest: 0,
            is_changed: false,
        }
    }

    /// The number of sealed lists.
    pub fn sealed(&self) -> u32
        ensures count { result ≡ length self.now.roots }
        ensures facts { IsMeaning self.now }
    {
        self.store.sealed()
    }

    /// The number of nodes.
    pub fn nodes(&self) -> u32
        ensures count { result ≡ length self.now.rows }
        ensures names { AreNames (links self.now.rows) }
    {
        self.store.nodes()
    }

    /// The root of a sealed version.
    pub fn root(&self, version: u32) -> Option<Link>
        requires { version < length self.now.roots }
        ensures { slice_get self.now.roots version ≡ Some result }
    {
        self.store.root_of(version)
    }

    /// The child of a node on a side in a version.
    pub fn child(&self, at: Link, turn: Turn, version: u32) -> Option<Link>
        requires { IsTrue (has self.now.rows at) }
        ensures { result ≡ child_at version turn (row self.now.rows at) }
    {
        self.store.child_in(at, turn, version)
    }

    /// The item of a node, the same in all versions.
    pub fn item(&self, at: Link) -> u32
        requires { IsTrue (has self.now.rows at) }
        ensures { result ≡ (row self.now.rows at).item }
    {
        self.store.item_of(at)
    }

    /// The row of the node with this number.
    pub fn row(&self, number: u32) -> NodeRow
        requires { (1 ≤ number) × (number ≤ length self.now.rows) }
        ensures row { (link : Link) × IsPlace (links self.now.rows) link number × IsNodeRow self.now.rows (row self.now.rows link) result }
        ensures bounds { IsWithin self.now.past_greatest (length self.now.roots) (length self.now.rows) self.now.is_changed result }
    {
        // tells what holds of the rows
        let _sealed = self.store.sealed();
        self.store.row(number)
    }

    /// The number of the root of a sealed version, or 0 where it has none.
    pub fn root_number(&self, version: u32) -> u32
        requires { version < length self.now.roots }
        ensures number { (root : Option Link) × (slice_get self.now.roots version ≡ Some root) × IsNumber self.now.rows root result }
        ensures bound { result ≤ length self.now.rows }
    {
        self.store.root_number(version)
    }

    /// The root of the present tree.
    pub fn newest_root(&self) -> Option<Link>
        ensures { result ≡ self.now.root }
    {
        self.store.root()
    }

    /// The child of a node on a side in the present tree.
    pub fn newest_child(&self, at: Link, turn: Turn) -> Option<Link>
        requires { IsTrue (has self.now.rows at) }
        ensures { result ≡ child_at (length self.now.roots) turn (row self.now.rows at) }
    {
        self.store.child_in(at, turn, self.store.sealed())
    }

    /// Puts the item in at the missing child to which the path leads. After a refusal all is as before.
    pub fn insert_at(&mut self, path: Path, item: u32) -> Result<(), AllocError>
        requires place { (preceding following : List ℕ) × LeadsToGap (present_nodes self.old) path.items preceding following }
        requires small { length self.old.list < 2 ^ 21 }
        requires few { self.old.inserted < 2 ^ 26 }
        ensures inserts { OnOk result (Inserts path.items item self.old self.new) }
        ensures refused { OnErr result (self.new ≡ self.old) }
    {
        self.store.reserve()?;
        insert(&mut self.store, path, item);
        self.inserted += 1;
        self.past_greatest = self.past_greatest.max(item as u64 + 1);
        self.is_changed = true;
        Ok(())
    }

    /// Takes the item of the node out to which the path leads. After a refusal all is as before.
    pub fn remove_at(&mut self, path: Path, at: Link) -> Result<(), AllocError>
        requires place { (preceding : List ℕ) × (item : ℕ) × (following : List ℕ) × LeadsTo (present_nodes self.old) path.items at preceding item following }
        requires few { self.old.removed < 2 ^ 26 }
        ensures removes { OnOk result (Removes path.items at self.old self.new) }
        ensures refused { OnErr result (self.new ≡ self.old) }
    {
        self.store.reserve()?;
        remove(&mut self.store, path, at);
        self.removed += 1;
        self.is_changed = true;
        Ok(())
    }

    /// Seals the present list as the next version. After a refusal all is as before.
    pub fn seal(&mut self) -> Result<(), AllocError>
        requires { length self.old.roots < 2 ^ 26 }
        ensures seals { OnOk result (Seals self.old self.new) }
        ensures refused { OnErr result (self.new ≡ self.old) }
    {
        self.store.seal()?;
        self.is_changed = false;
        Ok(())
    }
}
